// What a post does in a tick; it never both speaks and moves, but callers ask for either. Apart from `Act`, since that it sends is known before
// the frame is. Assumes nothing.

#[derive(Clone, Copy, PartialEq, Eq, Debug)]
pub struct Deeds {
    pub speaks: bool,
    pub moves: bool,
    pub sends: bool,
}
