// The tests of the arguments of a question about a ring.
ghost use Rattle.std.specs.Prelude.{◌≡◌, ◌<◌, ◌≤◌, length, MatchOption};
ghost use Rattle.members.specs.Answers.{answer, refused_size, refused_member, refused_ring, before};
ghost use Rattle.members.specs.Ring.{at};

use crate::refusal::Refusal;

// A ring has at least three members, and `k` is at least their count.
fn check_size(numbers: &[u16], k: u16) -> Result<(), Refusal>
    ensures { result ≡ answer (refused_size k numbers.now) tt }
{
    if numbers.len() < 3 {
        return Err(Refusal::TooFewMembers);
    }
    if usize::from(k) < numbers.len() {
        return Err(Refusal::TooFewNumbers);
    }
    Ok(())
}

// The numbers of the member before `i`, which is the last one for member 0, and of member `i`; `None` where there is no such member.
pub(crate) fn numbers_at(numbers: &[u16], i: usize) -> Option<(u16, u16)>
    ensures { MatchOption result (length numbers.now ≤ i) (λ p. (i < length numbers.now) × (p ≡ (at numbers.now (before numbers.now i), at numbers.now i))) }
{
    let own = *numbers.get(i)?;
    let before = match i {
        0 => *numbers.last()?,
        _ => numbers[i - 1],
    };
    Some((before, own))
}

// The same two numbers for a question about the ring, whose size, member and numbers are tested first.
pub(crate) fn pair_at(numbers: &[u16], k: u16, i: usize) -> Result<(u16, u16), Refusal>
    ensures { result ≡ answer (refused_member k numbers.now i) (at numbers.now (before numbers.now i), at numbers.now i) }
{
    check_size(numbers, k)?;
    let (before, own) = numbers_at(numbers, i).ok_or(Refusal::NoSuchMember)?;
    if before >= k || own >= k {
        return Err(Refusal::NumberTooLarge);
    }
    Ok((before, own))
}

// All numbers of a ring are below `k`, and its size is right.
pub(crate) fn check_ring(numbers: &[u16], k: u16) -> Result<(), Refusal>
    ensures { result ≡ answer (refused_ring k numbers.now) tt }
{
    check_size(numbers, k)?;
    if numbers.iter().all(|number| *number < k) {
        Ok(())
    } else {
        Err(Refusal::NumberTooLarge)
    }
}
