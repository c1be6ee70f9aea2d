// What is said of a script that was played. Assumes nothing.
use crate::Tally;
use frames::Fault;
use posts::Counts;

#[derive(Clone, Copy, PartialEq, Eq, Debug)]
pub enum Said {
    // a show, with the counts of one post; its numbers and speakers stand in the report
    Shown(Counts),
    // a line that was refused
    Refused { line: u64, fault: Fault },
}

// The numbers and the speakers of all shows stand in vectors of their own: what is said of a line is then a plain value, as small where it was
// refused, and a show takes no memory of its own.
#[derive(Drop)]
pub struct Report {
    pub said: Vec<Said>,
    // the numbers of all members at each show, one show after the other
    pub numbers: Vec<u16>,
    // for each post whether it would speak in a tick, at each show
    pub speakers: Vec<bool>,
    pub tally: Tally,
}
