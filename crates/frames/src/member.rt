// The members of a ring by their places, and their names in text. Assumes nothing.
ghost use Rattle.std.specs.Prelude.{◌≡◌, ◌^◌, ◌<◌, Some, SomeIff};
ghost use Rattle.frames.specs.MemberNames.{name_of, place_of};

use std::fmt;

// A member of the ring, by the number of its post: the post, the frame on its line, or the line's end.
#[derive(Clone, Copy, PartialEq, Eq, Debug)]
pub enum Member {
    Post(usize),
    Frame(usize),
    End(usize),
}

// The member at a place in the ring. `place` is the way back.
impl From<usize> for Member {
    ghost from_gives = { λ place m. place_of m ≡ place };

    fn from(place: usize) -> Member {
        let post = place / 3;
        match place % 3 {
            0 => Member::Post(post),
            1 => Member::Frame(post),
            _ => Member::End(post),
        }
    }
}

impl Member {
    // Its place in the ring; `None` where that is past the largest `usize`, as of no member that was made from a place.
    pub fn place(self) -> Option<usize>
        ensures { SomeIff result (place_of self < 2 ^ 64) (place_of self) }
    {
        let (post, part) = match self {
            Member::Post(post) => (post, 0),
            Member::Frame(post) => (post, 1),
            Member::End(post) => (post, 2),
        };
        post.checked_mul(3)?.checked_add(part)
    }
}

impl fmt::Display for Member {
    ghost output = { λ m. Some (name_of (place_of m)) };

    fn fmt<W: fmt::Write>(&self, f: &mut fmt::Formatter<W>) -> fmt::Result {
        match self {
            Member::Post(post) => write!(f, "post {post}"),
            Member::Frame(post) => write!(f, "frame {post}"),
            Member::End(post) => write!(f, "end {post}"),
        }
    }
}
