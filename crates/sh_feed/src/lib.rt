//! A feed of calls that are bound to no seat: one giver puts them in, in order, and takers take them out.
#![tactic(auto)]

mod desk;
mod feed;
mod job;
mod laws;
mod rule;
mod state;
#[cfg(test)]
mod tests;
mod token;
mod view;

pub use desk::Desk;
pub use feed::Feed;
pub use job::Job;
pub use laws::{books_of_a_feed, kept_at_each_moment};
pub use token::{Giver, Taker};
pub use view::{Setup, View};
