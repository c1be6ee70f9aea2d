// Units of bytes: settings, frames and lists of numbers; and the names of members. A reader is given bytes and settings: those are a line's
// and these the ring's, so nothing holds both. Assumes nothing.
#![tactic(auto)]

mod frame;
mod member;
mod numbers;
mod settings;

pub use frame::{read_frame, write_frame};
pub use lines::{Ending, Fault, ReadError, read_line, write_line};
pub use member::Member;
pub use numbers::read_numbers;
pub use settings::{Settings, read_settings};
pub use sums::checksum;
