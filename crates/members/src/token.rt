// Who has the token: how many members may move, which, and after how many moves each has its turn.
ghost use Rattle.std.specs.Prelude.{◌≡◌, ℕ, ◌+◌, ◌<◌, ◌≤◌, length, Some, None, MatchOption, MatchResult};
ghost use Rattle.members.specs.Answers.{answer, refused_ring, refused_whole, ring_of, Tells};
ghost use Rattle.members.specs.Promise.{Whole};
ghost use Rattle.members.specs.Ring.{Healed, how_many, may, up};
ghost use Rattle.members.specs.Turns.{TurnAfter, wait};

use crate::checks::{check_ring, numbers_at};
use crate::guard::guard_holds;
use crate::holders::Holders;
use crate::refusal::Refusal;

// Whether member `i` may move, in a ring of any K; `None` where there is no such member.
pub fn has_token(numbers: &[u16], i: usize) -> Option<bool>
    ensures { MatchOption result (length numbers.now ≤ i) (λ b. (i < length numbers.now) × ((k : ℕ) → b ≡ may (ring_of k numbers.now) numbers.now i)) }
{
    let (before, own) = numbers_at(numbers, i)?;
    Some(guard_holds(i, before, own))
}

// The member after `i` in a ring of so many, which is 0 after the last one.
// The step of `guard::one_up` at an index: integers of two widths have no trait in common that says what a successor is.
pub fn member_after(members: usize, i: usize) -> usize
    ensures { result ≡ up members i }
{
    if i < members.saturating_sub(1) {
        i + 1
    } else {
        0
    }
}

// How many members may move.
pub fn how_many_may(numbers: &[u16], k: u16) -> Result<usize, Refusal>
    ensures { result ≡ answer (refused_ring k numbers.now) (how_many (ring_of k numbers.now) numbers.now (length numbers.now)) }
{
    check_ring(numbers, k)?;
    // added up and not filtered: that takes no branch for a member
    let ones = (0..numbers.len()).map(|i| usize::from(has_token(numbers, i).unwrap_or(false)));
    let count = ones.sum();
    Ok(count)
}

// The only member that may move, or the first two.
fn find_holders(numbers: &[u16]) -> Holders
    requires { 0 < length numbers.now }
    ensures { (k : ℕ) → Tells (ring_of k numbers.now) numbers.now result }
{
    let mut first = None;
    let mut second = None;
    let mut before = numbers[numbers.len() - 1];
    'members: for (i, own) in numbers.iter().enumerate() {
        if guard_holds(i, before, *own) {
            if first.is_some() {
                second = Some(i);
                break 'members;
            }
            first = Some(i);
        }
        before = *own;
    }
    match (first, second) {
        (Some(i), Some(j)) => Holders::Several(i, j),
        (Some(i), None) => Holders::One(i),
        (None, _) => unreachable(),
    }
}

// Who may move. From these numbers, whoever moves when, the ring heals and stays healed.
pub fn who_may(numbers: &[u16], k: u16) -> Result<Holders, Refusal>
    ensures { MatchResult result (λ h. (refused_ring k numbers.now ≡ None) × Tells (ring_of k numbers.now) numbers.now h × Whole (ring_of k numbers.now) numbers.now) (λ e. refused_ring k numbers.now ≡ Some e) }
{
    check_ring(numbers, k)?;
    Ok(find_holders(numbers))
}

// How many turns from member `holder` to member `i`, in a ring of `members`.
fn turns_between(holder: usize, i: usize, members: usize) -> usize
    requires holder_there { holder < members }
    requires member_there { i < members }
    ensures { result ≡ wait members holder i }
{
    if holder <= i {
        i - holder
    } else {
        members - holder + i
    }
}

// After how many moves member `i` has its turn, whoever chooses the moves; `None` where several may move now.
pub fn moves_until(numbers: &[u16], k: u16, i: usize) -> Result<Option<usize>, Refusal>
    ensures { MatchResult result (λ o. (refused_whole k numbers.now i ≡ None) × MatchOption o (Healed (ring_of k numbers.now) numbers.now → ⊥) (λ n. TurnAfter (ring_of k numbers.now) numbers.now n i)) (λ e. refused_whole k numbers.now i ≡ Some e) }
{
    check_ring(numbers, k)?;
    if i >= numbers.len() {
        return Err(Refusal::NoSuchMember);
    }
    match find_holders(numbers) {
        Holders::One(holder) => Ok(Some(turns_between(holder, i, numbers.len()))),
        Holders::Several(_, _) => Ok(None),
    }
}
