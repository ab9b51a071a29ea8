//! The words of the programs, and what they ask for.
#![tactic(auto)]

mod args;
mod laws;
mod names;
mod order;
mod parsing;
mod told;

pub use args::{behind_name, words_given};
pub use laws::{known_orders, known_uses};
pub use order::{Order, WordFault, read_words, setting_parts};
pub use told::{is_used, number, tell};

#[cfg(test)]
mod tests;
