// Why a program stops before the end of its input. Assumes nothing.
ghost use Rattle.std.specs.Prelude.{◌≡◌};
ghost use Rattle.inputs.specs.declared.stop.Stop.TheVariants.{Refused as StopsFor, Memory as OutOfMemory, Io as StopsBy};
ghost use Rattle.inputs.specs.Stops.{stop_for, stop_text};

use lines::{Fault, ReadError};
use std::alloc::AllocError;
use std::{fmt, io};

#[derive(Debug, Drop)]
pub enum Stop {
    Refused(Fault),
    Memory,
    Io(io::Error),
}

impl fmt::Display for Stop {
    ghost output = { stop_text };

    fn fmt<W: fmt::Write>(&self, f: &mut fmt::Formatter<W>) -> fmt::Result {
        match self {
            Stop::Refused(fault) => write!(f, "{fault}"),
            Stop::Memory => write!(f, "out of memory"),
            Stop::Io(error) => write!(f, "{error}"),
        }
    }
}

// The conversions are written out, so that contracts know which error a `?` makes.
impl From<Fault> for Stop {
    ghost from_gives = { λ f r. r ≡ StopsFor f };

    fn from(fault: Fault) -> Stop {
        Stop::Refused(fault)
    }
}

impl From<ReadError> for Stop {
    ghost from_gives = { λ e r. r ≡ stop_for e };

    fn from(error: ReadError) -> Stop {
        match error {
            ReadError::Refused(fault) => Stop::Refused(fault),
            ReadError::Memory => Stop::Memory,
        }
    }
}

impl From<AllocError> for Stop {
    ghost from_gives = { λ _ r. r ≡ OutOfMemory };

    fn from(_error: AllocError) -> Stop {
        Stop::Memory
    }
}

impl From<io::Error> for Stop {
    ghost from_gives = { λ e r. r ≡ StopsBy e };

    fn from(error: io::Error) -> Stop {
        Stop::Io(error)
    }
}
