// What a program is called with, units from its input, why it stops, and how it ends. Assumes nothing.
#![tactic(auto)]

mod call;
mod stop;
mod units;

pub use call::{answer_help, end};
pub use stop::Stop;
pub use units::Units;
