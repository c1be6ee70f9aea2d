// What is told of a ring.

#[derive(Drop)]
pub enum Tidings {
    // the only member that may move, and for each post the moves until it may
    One(usize, Vec<usize>),
    // the first two of several members that may move
    Several(usize, usize),
}
