//! The judge of printed replays: whether the lines of a replay are those of one ordered map under each seat's order.
#![tactic(auto)]

mod call;
mod cut;
mod finding;
mod found;
mod judge;
mod last;
mod laws;
mod number;
mod places;
mod read;
mod status;
mod top;
mod words;

pub use finding::Finding;
pub use judge::judge_text;
pub use laws::{judge_laws, judge_sure};
pub use status::JudgeStatus;
pub use top::judge_top;

#[cfg(test)]
mod tests;
