// Settings from bytes, and what they say. Assumes nothing.
ghost use Rattle.std.specs.Prelude.{◌≡◌, ℕ, ◌*◌, ◌≤◌, take, IfOk, slice_index};
ghost use Rattle.std.specs.Result.{result_err};
ghost use Rattle.lines.specs.Checks.{first_fault, IsFirstFault};
ghost use Rattle.lines.specs.Units.{reading_fault};
ghost use Rattle.lines.specs.Words.{words_bytes};
ghost use Rattle.frames.specs.SettingsUnit.{turn_fields, settings_checks, settings_bytes, turn_of, AcceptsAll};

use crate::Settings;
use lines::{Fault, read_word, read_words};

// The first byte of settings.
const KIND: u8 = 2;

const FEWEST_POSTS: u8 = 2;

const MOST_POSTS: u8 = 21;

const LONGEST_TURN: u16 = 1000;

impl Settings {
    // How many members the ring has: for each post itself, its line's frame and its line's end.
    pub fn members(&self) -> usize
        ensures { result ≡ 3 * self.now.posts }
    {
        3 * usize::from(self.posts)
    }

    // For how many ticks a post may speak, if there is such a post.
    pub fn turn(&self, post: u8) -> Option<u16>
        ensures { result ≡ turn_of self.now post }
    {
        (post < self.posts).then(|| self.turns[usize::from(post)])
    }
}

// The turns of so many posts, and 0 past the last of them.
fn read_turns(bytes: &[u8], posts: u8) -> Result<[u16; 21], Fault>
    requires { posts ≤ 21 }
    ensures fault { result_err result ≡ reading_fault (turn_fields posts) bytes.now }
    ensures value { IfOk result (λ ts. words_bytes (take posts ts) ≡ bytes.now) }
    ensures short { IfOk result (λ ts. (i : ℕ) → slice_index ts i ≤ 1000) }
    ensures rest { IfOk result (λ ts. (i : ℕ) → posts ≤ i → slice_index ts i ≡ 0) }
{
    let mut turns = [0; 21];
    read_words(
        bytes,
        &mut turns[..usize::from(posts)],
        LONGEST_TURN,
        Fault::OutOfRange,
    )?;
    Ok(turns)
}

// The unit is 2, the count of posts, K in two bytes, and a turn in two bytes for each post.
pub fn read_settings(bytes: &[u8]) -> Result<Settings, Fault>
    ensures fault { result_err result ≡ first_fault (settings_checks bytes.now) }
    ensures first { IsFirstFault (settings_checks bytes.now) (result_err result) }
    ensures value { IfOk result (λ s. settings_bytes s ≡ bytes.now) }
    ensures complete { AcceptsAll bytes.now (result_err result) }
{
    let [KIND, posts, rest @ ..] = bytes else {
        return Err(Fault::Malformed);
    };
    if !(FEWEST_POSTS..=MOST_POSTS).contains(posts) {
        return Err(Fault::OutOfRange);
    }
    let (k, rest) = read_word(rest)?;
    if k < 3 * u16::from(*posts) {
        return Err(Fault::OutOfRange);
    }
    let turns = read_turns(rest, *posts)?;
    Ok(Settings {
        posts: *posts,
        k,
        turns,
    })
}
