//! The words with which a pool begins.
#![tactic(auto)]

mod laid;
mod node;

pub use laid::laid_words;
