// Units of bytes in general: faults and the one rule for them, lines of hexadecimal text, rows of numbers. Assumes nothing.
#![tactic(auto)]

mod fault;
mod line;
mod read_error;
mod script;
mod text;
mod unit;
mod word;
mod words;

pub use fault::Fault;
pub use line::{Ending, read_first_line, read_line, read_three};
pub use read_error::ReadError;
pub use script::first_line;
pub use text::write_line;
pub use unit::Unit;
pub use word::read_word;
pub use words::read_words;
