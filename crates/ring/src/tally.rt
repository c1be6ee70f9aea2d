// Moves counted since the last disturbance, held against who may move. Assumes nothing.

// How many members may move, how many moves were made, and after how many of them one only might for the first time.
#[derive(Clone, Copy, PartialEq, Eq, Debug)]
pub struct Tally {
    pub holders: usize,
    pub moves: u64,
    pub healed: Option<u64>,
}
