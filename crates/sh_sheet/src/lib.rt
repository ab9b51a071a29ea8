//! The rows of a sheet, what they ask for, and how a run ends.
#![tactic(auto)]

mod deed;
mod found;
mod gate;
mod item;
mod laws;
mod made;
mod number;
mod records;
mod rows;
mod sheet;
mod status;
mod totals;

pub use gate::{Free, Gate};
pub use item::{Item, Mode, SheetFault};
pub use laws::known_rows;
pub use made::generate;
pub use number::parse_number;
pub use records::known_sheets;
pub use rows::{field, parse_value};
pub use sheet::{Sheet, read_sheet};
pub use status::{RowCause, Status, StatusText};
pub use totals::{MOST_CALLS, MOST_ROWS, MOST_TURNS};

#[cfg(test)]
mod tests;
