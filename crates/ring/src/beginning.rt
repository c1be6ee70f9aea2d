// A ring to which nothing has happened: all memories are zero and all buttons up, and each line holds the frame that its post sends with
// number 0. Assumes nothing.
ghost use Rattle.std.specs.Prelude.{◌≡◌, IfOk, map};
ghost use Rattle.std.specs.List.{range_with_len};
ghost use Rattle.ring.specs.Beginning.{line_at_first, post_at_first};

use crate::Line;
use frames::{Settings, write_frame};
use posts::{Memory, Post};
use std::alloc::{AllocError, Global};

pub fn first_posts(heap: Global, settings: &Settings) -> Result<Vec<Post>, AllocError>
    ensures { IfOk result (λ v. v.items ≡ map post_at_first (range_with_len 0 settings.now.posts)) }
{
    let zero = Memory::from_bytes([0; 16]);
    (0..settings.posts)
        .map(|place| match Post::new(place, zero, settings) {
            Ok(post) => post,
            Err(_) => unreachable(),
        })
        .collect(heap)
}

pub fn first_lines(heap: Global, settings: &Settings) -> Result<Vec<Line>, AllocError>
    ensures { IfOk result (λ v. v.items ≡ map line_at_first (range_with_len 0 settings.now.posts)) }
{
    (0..settings.posts)
        .map(|post| Line {
            frame: write_frame(post, 0),
            lost: false,
        })
        .collect(heap)
}
