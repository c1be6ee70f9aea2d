// Counting the moves of members, each at the cost of two members' guards. K plays no part in it. Each contract asks that member `j` is
// `there`, since `j` is an argument, and asks for `Counted`, which is no invariant of numbers and tally together: `shift` writes a number
// before it counts anew. Assumes nothing.
ghost use Rattle.std.specs.Prelude.{◌≡◌, ℕ, ◌+◌, ◌^◌, ◌<◌, ◌≤◌, length, if◌then◌else◌, slice_set};
ghost use Rattle.members.specs.Answers.{ring_of};
ghost use Rattle.members.specs.Ring.{how_many, may};
ghost use Rattle.ring.specs.Tallies.{Counted, anew, begun, held_near, noted, one_more};

use crate::Tally;
use members::{has_token, member_after};

// 1 where member `i` may move, else 0.
fn held(numbers: &[u16], i: usize) -> usize
    requires { i < length numbers.now }
    ensures { (k : ℕ) → result ≡ (if may (ring_of k numbers.now) numbers.now i then 1 else 0) }
{
    usize::from(has_token(numbers, i).unwrap_or(false))
}

// How many of member `j` and the one after it may move.
fn held_near(numbers: &[u16], j: usize) -> usize
    requires { j < length numbers.now }
    ensures { (k : ℕ) → result ≡ held_near (ring_of k numbers.now) numbers.now j }
{
    held(numbers, j) + held(numbers, member_after(numbers.len(), j))
}

// Gives member `j` another number, and says how many may move then, of which there were `holders`: the guards of two members only can change.
fn shift(numbers: &mut [u16], j: usize, value: u16, holders: usize) -> usize
    requires counted { Counted numbers.old holders }
    requires there { j < length numbers.old }
    ensures after { numbers.new ≡ slice_set numbers.old j value }
    ensures value { (k : ℕ) → result ≡ how_many (ring_of k numbers.old) (slice_set numbers.old j value) (length numbers.old) }
{
    let before = held_near(numbers, j);
    numbers[j] = value;
    holders + held_near(numbers, j) - before
}

impl Tally {
    // One move more, after which so many may move.
    fn add_move(&mut self, holders: usize)
        requires { self.old.moves + 1 < 2 ^ 64 }
        ensures { self.new ≡ one_more holders self.old }
    {
        self.holders = holders;
        self.moves += 1;
        if self.healed.is_none() && holders == 1 {
            self.healed = Some(self.moves);
        }
    }

    // Counting begins where so many may move.
    pub(crate) fn begin(holders: usize) -> Tally
        ensures { result ≡ begun holders }
    {
        Tally {
            holders,
            moves: 0,
            healed: (holders == 1).then_some(0),
        }
    }

    // Gives member `j` the number `value`, and counts a move where that is another one.
    pub(crate) fn note(&mut self, numbers: &mut [u16], j: usize, value: u16)
        requires counted { Counted numbers.old self.old.holders }
        requires there { j < length numbers.old }
        requires room { self.old.moves + 1 < 2 ^ 64 }
        ensures after { numbers.new ≡ slice_set numbers.old j value }
        ensures value { (k : ℕ) → self.new ≡ noted (ring_of k numbers.old) numbers.old (slice_set numbers.old j value) self.old }
        ensures counted { Counted numbers.new self.new.holders }
        ensures moves { self.new.moves ≤ self.old.moves + 1 }
    {
        if numbers[j] == value {
            return;
        }
        let holders = shift(numbers, j, value, self.holders);
        self.add_move(holders);
    }

    // Gives member `j` the number `value` by a disturbance, from which counting begins anew.
    pub(crate) fn disturb(&mut self, numbers: &mut [u16], j: usize, value: u16)
        requires counted { Counted numbers.old self.old.holders }
        requires there { j < length numbers.old }
        ensures after { numbers.new ≡ slice_set numbers.old j value }
        ensures value { (k : ℕ) → self.new ≡ anew (ring_of k numbers.old) (slice_set numbers.old j value) }
        ensures counted { Counted numbers.new self.new.holders }
    {
        let holders = shift(numbers, j, value, self.holders);
        *self = Tally::begin(holders);
    }
}
