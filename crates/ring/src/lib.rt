// All posts and lines of a ring together. Assumes nothing.
#![tactic(auto)]

mod beginning;
mod counting;
mod line;
mod orders;
mod play_error;
mod playing;
mod report;
mod saying;
mod stage;
mod start;
mod tally;

pub use beginning::{first_lines, first_posts};
pub use line::Line;
pub use play_error::PlayError;
pub use playing::play;
pub use report::{Report, Said};
pub use tally::Tally;
