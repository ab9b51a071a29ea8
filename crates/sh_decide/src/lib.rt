//! What a client decides by the image of a node, on its way to the node that it's after and under that node's lock.
#![tactic(auto)]

mod aims;
mod deciding;
mod leaves;
mod state;
mod ways;

pub use aims::{aim_of, call_key, end_of, is_update, node_in, written_key, written_value};
pub use deciding::decision;
pub use leaves::answer;
pub use state::{Aim, Decision, Posting, Way};
pub use ways::{leads_right, way};
