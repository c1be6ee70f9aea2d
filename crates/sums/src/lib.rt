// The checksum of bytes, and the damage that it finds. Assumes nothing.
#![tactic(auto)]

mod sum;

pub use sum::{checksum, shift};
