// What a post answers to a line that isn't refused. Assumes nothing.
use posts::{Act, Counts};

#[derive(Clone, Copy, PartialEq, Eq, Debug)]
pub enum Reply {
    // it did this
    Acted(Act),
    // it shows its counts
    Shown(Counts),
}
