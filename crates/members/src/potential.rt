// The potential of a ring's state, and the bounds that follow from it.
ghost use Rattle.std.specs.Prelude.{◌≡◌, suc, pred, ◌+◌, ◌*◌, ◌<◌, ◌≤◌, length, drop, IfOk, MatchOption};
ghost use Rattle.members.specs.Answers.{answer, refused_ring, ring_of};
ghost use Rattle.members.specs.Potential.{chain, potential, tail, weights};
ghost use Rattle.members.specs.Promise.{Bounds, MovesBefore, Promises};
ghost use Rattle.members.specs.Ring.{at};

use crate::checks::check_ring;
use crate::guard::one_up;
use crate::refusal::Refusal;

// The tail of the others: what stands behind the run of member 0's number `first` at their front.
fn tail_of(first: u16, others: &[u16]) -> &[u16]
    ensures { result.now ≡ tail first others.now }
{
    let run = others.iter().take_while(|number| **number == first).count();
    &others[run..]
}

// The length of the chain of `first` in these numbers, from the last one to the first.
fn chain_of(first: u16, numbers: &[u16], k: u16) -> usize
    ensures { result ≡ chain k first numbers.now }
{
    let mut wanted = first;
    let mut found = 0;
    for number in numbers.iter().rev() {
        if *number == wanted {
            wanted = one_up(wanted, k);
            found += 1;
        }
    }
    found
}

// The weights of those that differ from the one before, `first` standing before them all.
fn weights_of(first: u16, others: &[u16]) -> usize
    requires { length others.now < 65536 }
    ensures { result ≡ weights first others.now }
{
    let mut before = first;
    let mut sum = 0;
    for (i, own) in others.iter().enumerate() {
        if *own != before {
            sum += others.len() - i;
        }
        before = *own;
    }
    sum
}

// The potential: a number that falls with every move until one member only may move.
pub fn potential_of(numbers: &[u16], k: u16) -> Result<usize, Refusal>
    ensures value { result ≡ answer (refused_ring k numbers.now) (potential k numbers.now) }
    ensures bounds { IfOk result (Bounds (ring_of k numbers.now) numbers.now) }
{
    let [first, others @ ..] = numbers else {
        return Err(Refusal::TooFewMembers);
    };
    check_ring(numbers, k)?;
    let chained = chain_of(*first, tail_of(*first, others), k);
    Ok(numbers.len() * chained + weights_of(*first, others))
}

// The most moves that a ring of so many members can make before it is healed: three halves of members times (members - 1).
pub fn most_moves(members: u16) -> u64
    ensures value { 2 * result ≡ 3 * (members * pred members) }
    ensures promises { Promises }
{
    let m = u64::from(members);
    3 * (m * m.saturating_sub(1) / 2)
}

// The most moves of member `i` alone before the ring is healed; `None` where there is no such member.
pub fn most_moves_of(members: u16, i: u16) -> Option<u32>
    ensures { MatchOption result (members ≤ i) (λ n. (suc n ≡ members + i) × (i < members) × MovesBefore members i n) }
{
    if i >= members {
        return None;
    }
    Some(u32::from(members) - 1 + u32::from(i))
}
