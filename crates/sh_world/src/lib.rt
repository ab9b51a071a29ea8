//! Many clients over one pool as plain data, turn by turn.
//!
//! A world has a word memory, a log of the puts and deletes that were made, and a seat with a client for each number of
//! the setting. A seat is given calls, and serves them one after another, one turn at a time: an event on one word, or a
//! call on its compute server's ticket line of a lock. Whatever the order of the seats' turns, one lawful book answers
//! the calls that have ended.
#![tactic(auto)]

mod calls;
mod columns;
mod laid;
mod laws;
mod lines;
mod points;
mod rows;
mod seats;
mod state;
mod turn;
mod world;

pub use calls::Calls;
pub use sh_client::Tally;
pub use state::{GivenCall, World};
pub(crate) use state::{Line, Seat};
pub use turn::Turn;

#[cfg(test)]
mod call_tests;
#[cfg(test)]
mod tests;
