//! The running pool: clients in threads of their callers, over one table of words.
#![tactic(auto)]

mod events;
mod gathering;
mod laying;
mod local;
mod note;
mod noting;
mod pass;
mod pool;
mod right;
mod serving;
mod state;
mod stepping;

pub use note::Note;
pub use pool::{LaidPool, Pool};
pub use right::{Knower, Right};
pub use state::{Pass, Step};

#[cfg(test)]
mod tests;
