//! The client: a machine that wants one turn after another, and is fed what each turn found.
#![tactic(auto)]

mod bodies;
mod cached;
mod client;
mod feeds;
mod giving;
mod laws;
mod ranges;
mod splits;
mod state;
mod steps;
mod tally;
mod verbs;
mod wants;
mod words;

pub use laws::{
    cached_nodes_lead_to_leaves, hands_over_within_the_bound, senseless_words_lead_back,
    turns_keep_the_call, updates_store_their_words,
};
pub use state::{
    Client, Edge, Filling, Giving, Need, Origin, Phase, Step, Tally, Then, Want, Write,
};
pub use words::Words;

#[cfg(test)]
mod tests;
