// A post's counts as they are shown. Assumes nothing.
ghost use Rattle.std.specs.Prelude.{Some};
ghost use Rattle.posts.specs.CountsText.{counts_text};

use std::fmt;

#[derive(Clone, Copy, PartialEq, Eq, Debug)]
pub struct Counts {
    pub post: u8,
    // how many moves it made
    pub moves: u32,
    // ticks since its last move
    pub since: u32,
}

impl fmt::Display for Counts {
    ghost output = { λ c. Some (counts_text c) };

    fn fmt<W: fmt::Write>(&self, f: &mut fmt::Formatter<W>) -> fmt::Result {
        let Counts { post, moves, since } = *self;
        write!(f, "post {post}: {moves} goings on, {since} ticks since")
    }
}
