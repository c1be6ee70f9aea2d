// A unit: what stands on a line. Assumes nothing.
ghost use Rattle.std.specs.Prelude.{◌≡◌};
ghost use Rattle.lines.specs.Hex.{is_blank};
ghost use Rattle.lines.specs.UnitLines.{line_in};

use crate::Ending;

#[derive(Clone, Copy, Debug)]
pub struct Unit<'a> {
    // up to the line's end, or to a stray character: an earlier fault than the damage may be in them
    pub bytes: &'a [u8],
    pub ending: Ending,
}

impl Unit<'_> {
    // Whether the line is passed over.
    pub fn is_blank(self) -> bool
        ensures { result ≡ is_blank (line_in self.entry) }
    {
        match self.ending {
            Ending::Whole => self.bytes.is_empty(),
            Ending::Damaged => false,
        }
    }
}
