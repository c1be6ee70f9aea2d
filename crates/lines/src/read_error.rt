// Why a unit that needs memory was not read. Assumes nothing.
ghost use Rattle.std.specs.Prelude.{◌≡◌, ℕ, List, Err, ◌≢◌};
ghost use Rattle.lines.specs.declared.fault.Fault.TheVariants.{Malformed};
ghost use Rattle.lines.specs.declared.read_error.ReadError.TheVariants.{Refused as RefusedFor, Memory};
ghost use Rattle.lines.specs.Checks.{first_fault};
ghost use Rattle.lines.specs.Hex.{line_checks, settled};
ghost use Rattle.lines.specs.Units.{Field, Laid, unit_checks};
ghost use Rattle.lines.specs.Refusals.{refusal};

use crate::{Ending, Fault};
use std::alloc::AllocError;

#[derive(Clone, Copy, PartialEq, Eq, Debug)]
pub enum ReadError {
    Refused(Fault),
    Memory,
}

// The conversions are written out, so that contracts know which error a `?` makes.
impl From<Fault> for ReadError {
    ghost from_gives = { λ f r. r ≡ RefusedFor f };

    fn from(fault: Fault) -> ReadError {
        ReadError::Refused(fault)
    }
}

impl From<AllocError> for ReadError {
    ghost from_gives = { λ _ r. r ≡ Memory };

    fn from(_error: AllocError) -> ReadError {
        ReadError::Memory
    }
}

impl Ending {
    // As `settle`, of an answer that needed memory. They are two since a clause over any error would have to say of each what its fault is.
    pub fn settle_read<T: Drop>(self, answer: Result<T, ReadError>) -> Result<T, ReadError>
        ensures value { result ≡ settled (RefusedFor Malformed) self answer }
        ensures fault { (bs : List ℕ) (fs : List Field) → Laid fs → (answer ≢ Err Memory) → refusal answer ≡ first_fault (unit_checks bs fs) → refusal result ≡ first_fault (line_checks record { bytes = bs; ending = self } fs) }
    {
        self.or_damage(answer, ReadError::Refused(Fault::Malformed))
    }
}
