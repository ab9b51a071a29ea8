//! A sorted list of rows becomes the memory of a pool with one tree, built at once by workers side by side.
#![tactic(auto)]

mod building;
mod checked;
mod fault;
mod front;
mod gather;
mod hold;
mod inner;
mod laws;
mod leaves;
mod order;
mod shape;
mod status;
mod top;
mod workers;

pub use building::{Words, build};
pub use fault::BulkFault;
pub use hold::{Hold, NoHold};
pub use laws::buildings_are_complete;
pub use order::BulkOrder;
pub use status::BulkStatus;
pub use top::{MOST_BULK_ROWS, bulk_top};

#[cfg(test)]
mod tests;
