// Where a post stands in the ring: the ring's K and its place. Assumes nothing.
ghost use Rattle.std.specs.Prelude.{◌≡◌};
ghost use Rattle.members.specs.Answers.{may_by, next_by};

use members::{guard_holds, number_taken};

#[derive(Clone, Copy)]
pub(crate) struct Seat {
    pub(crate) k: u16,
    pub(crate) place: u8,
}

impl Seat {
    // Whether a post here may move that heard `heard` and stands for `number`.
    pub(crate) fn guard_holds(self, heard: u16, number: u16) -> bool
        ensures { result ≡ may_by self.place heard number }
    {
        guard_holds(usize::from(self.place), heard, number)
    }

    // The number that such a post takes when it moves.
    pub(crate) fn number_taken(self, heard: u16, number: u16) -> u16
        ensures { result ≡ next_by self.k self.place heard number }
    {
        number_taken(usize::from(self.place), heard, number, self.k)
    }
}
