//! The routes that one compute server shares: a keeper puts them on a shelf, and lookers find them there without a lock.
#![tactic(auto)]

mod book;
mod keeper;
mod kept;
mod laws;
mod looker;
mod open;
mod rack;
mod route;
mod rule;
#[cfg(test)]
mod tests;

pub use keeper::Keeper;
pub use laws::shelf_is_exact;
pub use looker::{Looker, Told};
pub use open::Shelf;
pub use route::Route;
