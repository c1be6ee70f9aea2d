// The members that have the token.

// The only member that may move, or the first two of several.
#[derive(Clone, Copy, PartialEq, Eq, Debug)]
pub enum Holders {
    One(usize),
    Several(usize, usize),
}
