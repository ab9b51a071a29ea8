//! Inner nodes that a seat keeps, so that it reads them seldom.
#![tactic(auto)]

mod cache;
mod laws;
mod places;
#[cfg(test)]
mod tests;

pub use cache::Cache;
pub use laws::{rows_are_exact, rows_stay, rows_were_kept, what_is_found_was_kept};
