// One post of the ring: its memory, what it is told, and what it does. Assumes nothing.
#![tactic(auto)]

mod act;
mod counts;
mod deeds;
mod memory;
mod post;
mod rule;
mod seat;
mod told;

pub use act::Act;
pub use counts::Counts;
pub use deeds::Deeds;
pub use memory::Memory;
pub use post::Post;
pub use rule::in_range;
pub use told::Told;
