// One member: whether it may move, the number that it takes, and its move.
ghost use Rattle.std.specs.Prelude.{◌≡◌, ◌<◌, true, Ok};
ghost use Rattle.members.specs.Answers.{answer, left, may_by, next_by, refused_member, ring_of};
ghost use Rattle.members.specs.Promise.{Better};
ghost use Rattle.members.specs.Ring.{IsState, may, next, up};

use crate::checks::pair_at;
use crate::refusal::Refusal;

// One more than `own`, and 0 after `k` - 1.
pub(crate) fn one_up(own: u16, k: u16) -> u16
    ensures { result ≡ up k own }
{
    if own < k.saturating_sub(1) {
        own + 1
    } else {
        0
    }
}

// The guard of member `i`, by its own number and that of the one before. The two are given in the order in which they stand in the ring.
pub fn guard_holds(i: usize, before: u16, own: u16) -> bool
    ensures { result ≡ may_by i before own }
{
    match i {
        0 => own == before,
        _ => own != before,
    }
}

// The number that member `i` takes, by its own number and that of the one before.
pub fn number_taken(i: usize, before: u16, own: u16, k: u16) -> u16
    ensures { result ≡ next_by k i before own }
{
    match i {
        0 => one_up(own, k),
        _ => before,
    }
}

// Whether member `i` may move: member 0 where its number is the last one's, any other where its number isn't that of the one before.
pub fn may_move(numbers: &[u16], k: u16, i: usize) -> Result<bool, Refusal>
    ensures { result ≡ answer (refused_member k numbers.now i) (may (ring_of k numbers.now) numbers.now i) }
{
    let (before, own) = pair_at(numbers, k, i)?;
    Ok(guard_holds(i, before, own))
}

// The number that member `i` takes when it moves: member 0 goes up by one, any other takes that of the one before.
pub fn next_number(numbers: &[u16], k: u16, i: usize) -> Result<u16, Refusal>
    ensures { result ≡ answer (refused_member k numbers.now i) (next (ring_of k numbers.now) numbers.now i) }
{
    let (before, own) = pair_at(numbers, k, i)?;
    Ok(number_taken(i, before, own, k))
}

// Moves member `i` if it may, and says whether it did.
pub fn make_move(numbers: &mut [u16], k: u16, i: usize) -> Result<bool, Refusal>
    ensures value { result ≡ answer (refused_member k numbers.old i) (may (ring_of k numbers.old) numbers.old i) }
    ensures after { numbers.new ≡ left result (ring_of k numbers.old) numbers.old i }
    ensures better { result ≡ Ok true → IsState (ring_of k numbers.old) numbers.old → Better (ring_of k numbers.old) numbers.old numbers.new i }
{
    let (before, own) = pair_at(numbers, k, i)?;
    if !guard_holds(i, before, own) {
        return Ok(false);
    }
    numbers[i] = number_taken(i, before, own, k);
    Ok(true)
}
