//! What each seat at a pool's table of words knows, and the rule that the table keeps.
#![tactic(auto)]

mod laws;
mod rule;
mod view;

pub use laws::pools_say;
pub use rule::{
    Entering, Fed, Learning, Making, Noting, Parting, PoolRule, Stored, TakingIn, TakingUp,
    Telling, TurnOf,
};
pub use view::{Card, LockRight, Member, PassView, Past, Player, Tiding};
