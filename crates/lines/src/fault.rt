// Why a unit of bytes is refused. Assumes nothing.
ghost use Rattle.std.specs.Prelude.{◌≡◌, Some};
ghost use Rattle.lines.specs.Faults.{number_of, fault_text};

use std::fmt;

#[derive(Clone, Copy, PartialEq, Eq, Debug)]
pub enum Fault {
    // an unknown kind or a bad length
    Malformed = 1,
    // a count of posts, a K, a turn or a post that is out of range
    OutOfRange = 2,
    // a frame whose checksum is wrong
    WrongSum = 3,
    // a frame from another post than the one before
    WrongSender = 4,
    // a member's number of K or more
    NumberTooLarge = 5,
}

impl Fault {
    // The number by which the fault is reported.
    pub fn number(self) -> u8
        ensures { result ≡ number_of self }
    {
        self as u8
    }
}

impl fmt::Display for Fault {
    ghost output = { λ f. Some (fault_text f) };

    fn fmt<W: fmt::Write>(&self, f: &mut fmt::Formatter<W>) -> fmt::Result {
        let number = self.number();
        write!(f, "fault {number}")
    }
}
