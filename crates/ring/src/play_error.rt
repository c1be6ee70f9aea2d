// Why a script isn't played to its end. Assumes nothing.
ghost use Rattle.std.specs.Prelude.{◌≡◌};
ghost use Rattle.ring.specs.declared.play_error.PlayError.TheVariants.{Memory};

use std::alloc::AllocError;

#[derive(Clone, Copy, PartialEq, Eq, Debug)]
pub enum PlayError {
    // the slices don't have the lengths that the settings ask for, or a post isn't in its place
    Unfit,
    // there is no memory for what is to be said
    Memory,
}

// The conversions are written out, so that contracts know which error a `?` makes.
impl From<AllocError> for PlayError {
    ghost from_gives = { λ _ r. r ≡ Memory };

    fn from(_error: AllocError) -> PlayError {
        PlayError::Memory
    }
}
