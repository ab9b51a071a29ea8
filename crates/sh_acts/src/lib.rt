//! Each thing that can happen to the tree while it changes, as a law: what it leaves of the tree's state to the others.
#![tactic(auto)]

mod fresh_nodes;
mod locks;
mod writes;

pub use fresh_nodes::{laid_pool, own_nodes};
pub use locks::{locks_change_hands, posts_and_roots, writes_go_on};
pub use writes::{
    entries_change, inner_writes_end, leaf_writes_end, orders_that_break, writes_rise,
};
