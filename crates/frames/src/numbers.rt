// The numbers of all members from bytes. Assumes nothing.
ghost use Rattle.std.specs.Prelude.{◌≡◌, ◌*◌, ◌<◌, IfOk, vec_len};
ghost use Rattle.std.specs.List.{AllByRecursion};
ghost use Rattle.lines.specs.Checks.{first_fault, IsFirstFault};
ghost use Rattle.lines.specs.Words.{words_bytes};
ghost use Rattle.lines.specs.Refusals.{refusal};
ghost use Rattle.frames.specs.NumbersUnit.{numbers_checks};

use crate::Settings;
use lines::{Fault, ReadError, read_words};
use std::alloc::Global;

// The numbers of all members, in their order. An allocator is passed to what allocates, here and elsewhere: settings and slices hold none.
pub fn read_numbers(heap: Global, bytes: &[u8], settings: &Settings) -> Result<Vec<u16>, ReadError>
    ensures fault { refusal result ≡ first_fault (numbers_checks settings.now bytes.now) }
    ensures first { IsFirstFault (numbers_checks settings.now bytes.now) (refusal result) }
    ensures value { IfOk result (λ v. words_bytes v.items ≡ bytes.now) }
    ensures len { IfOk result (λ v. vec_len v ≡ 3 * settings.now.posts) }
    ensures below { IfOk result (λ v. AllByRecursion (λ x. x < settings.now.k) v.items) }
{
    // an array and no vector: a fault is to be found also where there is no memory
    let mut places = [0; 63];
    let numbers = &mut places[..settings.members()];
    read_words(bytes, numbers, settings.k - 1, Fault::NumberTooLarge)?;
    Ok(Vec::from_slice(heap, numbers)?)
}
