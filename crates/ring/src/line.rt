// The line from a post to the next. Assumes nothing.
ghost use Rattle.std.specs.Prelude.{◌≡◌};
ghost use Rattle.posts.specs.Rule.{norm};
ghost use Rattle.posts.specs.Steps.{number_carried};

use posts::in_range;

// The bytes that were sent last on it, which may be anything, and whether they were lost. Lost bytes can't be heard, but stay the newest ones sent,
// and their number is still that of a member: so `lost` stands beside the frame, and isn't the lack of one.
#[derive(Clone, Copy, PartialEq, Eq, Debug)]
pub struct Line {
    pub frame: [u8; 6],
    pub lost: bool,
}

impl Line {
    // The number of the member that its frame is.
    pub(crate) fn number(self, k: u16) -> u16
        ensures { result ≡ norm k (number_carried self.frame) }
    {
        let [_, _, high, low, _, _] = self.frame;
        in_range(u16::from_be_bytes([high, low]), k)
    }
}
