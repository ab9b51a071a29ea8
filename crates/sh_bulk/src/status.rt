// How a building ended, as a code and as a text.
ghost use Rattle.std.specs.{Prelude.{◌≡◌, ◌++◌, codes, Some}, Fmt.{decimal}};
ghost use Rattle.sh_bulk.specs.Top.{bulk_code, bulk_text};

use itoa::Buffer;
use sh_sheet::{Status, StatusText};
use std::fmt;

/// How a building ended.
#[derive(Clone, Copy, Debug, PartialEq, Eq)]
pub enum BulkStatus {
    /// As other programs end.
    Served(Status),
    /// The row's key isn't above that of the row before it. Rows are numbered from 1.
    NotRising { row: u64 },
    /// The tree needs more nodes than the pool has.
    NoRoom { need: u64, nodes: u64 },
}

// The text of a row whose key doesn't rise.
fn still_text(row: u64) -> StatusText
    ensures { result.bytes ≡ (codes "row " ++ decimal row) ++ codes " not rising" }
{
    let mut digits = Buffer::new();
    let mut text = StatusText::new();
    text.push_str("row ");
    text.push_str(digits.format(row));
    text.push_str(" not rising");
    text
}

// The text of a pool that is too small.
fn no_room_text() -> StatusText
    ensures { result.bytes ≡ codes "no room" }
{
    let mut text = StatusText::new();
    text.push_str("no room");
    text
}

impl BulkStatus {
    /// The code that a program ends with: that of the status, 12 for `NotRising`, and 13 for `NoRoom`.
    pub fn code(&self) -> u8
        ensures { result ≡ bulk_code self.now }
    {
        match *self {
            BulkStatus::Served(status) => status.code(),
            BulkStatus::NotRising { .. } => 12,
            BulkStatus::NoRoom { .. } => 13,
        }
    }

    /// The text that tells it: that of the status, `row R not rising` with the row's number, or `no room`.
    pub fn text(&self) -> StatusText
        ensures { result.bytes ≡ bulk_text self.now }
    {
        match *self {
            BulkStatus::Served(status) => status.text(),
            BulkStatus::NotRising { row } => still_text(row),
            BulkStatus::NoRoom { .. } => no_room_text(),
        }
    }
}

impl fmt::Display for BulkStatus {
    ghost output = { λ status. Some (bulk_text status) };

    fn fmt<W: fmt::Write>(&self, f: &mut fmt::Formatter<W>) -> fmt::Result {
        f.write_str(self.text().as_str())
    }
}
