// A ring of members by Dijkstra's K-state rule: functions over a lent slice with the number of each member, member 0 first.
// The caller keeps the numbers, in any slice, and K beside them, so no struct holds the two together.
// Bad arguments are refused by the answer, with nothing changed.
#![tactic(auto)]

mod checks;
mod guard;
mod holders;
mod potential;
mod refusal;
mod token;

pub use guard::{guard_holds, make_move, may_move, next_number, number_taken};
pub use holders::Holders;
pub use potential::{most_moves, most_moves_of, potential_of};
pub use refusal::Refusal;
pub use token::{has_token, how_many_may, member_after, moves_until, who_may};
