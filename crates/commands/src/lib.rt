// Units of bytes: orders to the posts of a ring, and what the program of one post reads. Assumes nothing.
#![tactic(auto)]

mod order;
mod post;

pub use order::{Command, Order, read_order};
pub use post::{PostOrder, read_place, read_post_order};
