// The time to speak of a post that has the token. Assumes nothing.
#![tactic(auto)]

mod turn;

pub use turn::Turn;
