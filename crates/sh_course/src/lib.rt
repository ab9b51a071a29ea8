//! What the turns of a call show, whatever words they found: why it was answered so, what it stored, and what was counted.
#![tactic(auto)]

mod causes;
mod counters;
mod lives;
mod stores;

pub use causes::{calls_free_their_locks, causes_refuse, ranges_end_by_rows, refusals_have_causes};
pub use counters::{reads_are_counted, skips_have_causes, turns_are_counted};
pub use lives::lives_have_courses;
pub use stores::updates_store_what_they_owe;
