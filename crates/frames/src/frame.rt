// Frames, which carry a post's number to the post after it. Assumes nothing.
ghost use Rattle.std.specs.Prelude.{◌≡◌, ◌<◌, is_ok, IfOk};
ghost use Rattle.std.specs.Result.{result_err};
ghost use Rattle.sums.specs.Damage.{Caught};
ghost use Rattle.lines.specs.Checks.{first_fault, IsFirstFault};
ghost use Rattle.frames.specs.FrameUnit.{frame_bytes, frame_checks, sender_of, ReadsAllSent};

use crate::Settings;
use lines::{Fault, read_word};
use sums::checksum;

// The first byte of a frame.
const KIND: u8 = 1;

impl Settings {
    // The post before a listener.
    pub fn sender(&self, listener: u8) -> u8
        ensures { result ≡ sender_of self.now.posts listener }
    {
        match listener {
            0 => self.posts - 1,
            _ => listener - 1,
        }
    }
}

// The frame is 1, the post that sends it, its number in two bytes, and the checksum of these in two bytes.
pub fn write_frame(post: u8, number: u16) -> [u8; 6]
    ensures { result ≡ frame_bytes post number }
{
    let [high, low] = number.to_be_bytes();
    let [sum_high, sum_low] = checksum(&[KIND, post, high, low]).to_be_bytes();
    [KIND, post, high, low, sum_high, sum_low]
}

// The number in a frame that a listener hears.
pub fn read_frame(bytes: &[u8], settings: &Settings, listener: u8) -> Result<u16, Fault>
    ensures fault { result_err result ≡ first_fault (frame_checks settings.now.posts settings.now.k listener bytes.now) }
    ensures first { IsFirstFault (frame_checks settings.now.posts settings.now.k listener bytes.now) (result_err result) }
    ensures value { IfOk result (λ x. (x < settings.now.k) × (bytes.now ≡ frame_bytes (sender_of settings.now.posts listener) x)) }
    ensures complete { ReadsAllSent settings.now.posts settings.now.k listener bytes.now result }
    ensures caught { Caught bytes.now (is_ok result) }
{
    let [KIND, post, rest @ ..] = bytes else {
        return Err(Fault::Malformed);
    };
    if *post >= settings.posts {
        return Err(Fault::OutOfRange);
    }
    if *post != settings.sender(listener) {
        return Err(Fault::WrongSender);
    }
    let (number, rest) = read_word(rest)?;
    if number >= settings.k {
        return Err(Fault::NumberTooLarge);
    }
    let (sum, rest) = read_word(rest)?;
    if sum != checksum(&bytes[..4]) {
        return Err(Fault::WrongSum);
    }
    if rest.is_empty() {
        Ok(number)
    } else {
        Err(Fault::Malformed)
    }
}
