// The items of a sheet.
ghost use Rattle.std.specs.Prelude.{ℕ, List, ◌≡◌, ◌≤◌, ◌<◌, ◌∷◌, ◌↔◌, All, IfOk, IfErr, IsErrOf, IsOk, OnOk, IsTrue, MatchResult, length};
ghost use Rattle.csv.specs.Records.{fields_of};
ghost use Rattle.sh_base.specs.Parts.{parts_of};
ghost use Rattle.sh_sheet.specs.{Row.{item_in}, Sheet.{Items, marks_in, row_of, sheet_of, AreFew, AreMarksLawful, IsFault, IsLawfulItem}, Reader.{rows_behind, HasMarks}};

use crate::found::Found;
use crate::rows::{is_heading, item_in};
use crate::totals::are_few;
use crate::{Item, Mode, SheetFault};
use csv::{ByteRecord, ReaderBuilder};
use sh_base::Config;
use std::alloc::Global;
use std::collections::BTreeSet;
use std::marker::Model;

/// A sheet, seen as its items and whether its first row is a heading. The row of item i, from 0 on, is row i + 1, or
/// i + 2 behind a heading.
#[derive(Debug, Drop)]
pub struct Sheet {
    pub(crate) headed: bool,
    pub(crate) items: Vec<Item>,
}

impl Model for Sheet {
    ghost use Rattle.sh_sheet.specs.Sheet.{Contents};

    ghost Value = { Contents };

    ghost view = { λ s. record { headed = s.headed; items = s.items.items } };
}

impl Sheet {
    /// The items, in the order of their rows.
    pub fn as_slice(&self) -> &[Item]
        ensures { result.now ≡ self.now.items }
    {
        &self.items
    }

    /// Whether the first row is a heading.
    pub fn has_heading(&self) -> bool
        ensures { result ≡ self.now.headed }
    {
        self.headed
    }

    /// The number of the row of an item. Condition: there is such an item.
    pub fn row_of(&self, item: usize) -> u64
        requires { item < length self.now.items }
        ensures { result ≡ row_of self.now.headed item }
    {
        let before = if self.headed { 2 } else { 1 };
        item as u64 + before
    }
}

// Takes the next row. Memory may be wanting only for the item of a row that passed all tests.
fn take_row(found: &mut Found, cfg: &Config, mode: Mode, row: &ByteRecord) -> Result<(), SheetFault>
    requires { HasMarks found.old.marks found.old.items.items }
    ensures marks { OnOk result (HasMarks found.new.marks found.new.items.items) }
    ensures taken { OnOk result ((rest : List (List (List ℕ))) → rows_behind (parts_of cfg.now) mode found.old.headed found.old.items.items (fields_of row.now ∷ rest) ≡ rows_behind (parts_of cfg.now) mode found.new.headed found.new.items.items rest) }
    ensures memory { IsErrOf result SheetFault.NoMemory → IsOk (item_in (parts_of cfg.now) mode (marks_in found.old.items.items) (fields_of row.now)) }
    ensures refused { IfErr result (λ e. (rest : List (List (List ℕ))) → IsFault (parts_of cfg.now) (rows_behind (parts_of cfg.now) mode found.old.headed found.old.items.items (fields_of row.now ∷ rest)) e) }
{
    if found.is_start() && is_heading(row) {
        found.headed = true;
        return Ok(());
    }
    match item_in(cfg, mode, found, row) {
        Ok(item) => found.add(item),
        Err(cause) => {
            let before = if found.headed { 2 } else { 1 };
            Err(SheetFault::Row {
                row: found.items.len() as u64 + before,
                cause,
            })
        }
    }
}

// The items of all rows, read one record after another.
fn read_rows(alloc: Global, bytes: &[u8], mode: Mode, cfg: &Config) -> Result<Sheet, SheetFault>
    ensures { MatchResult result (λ s. sheet_of (parts_of cfg.now) mode bytes.now ≡ Items s.headed s.items) (λ e. IsFault (parts_of cfg.now) (sheet_of (parts_of cfg.now) mode bytes.now) e) }
{
    let reader = ReaderBuilder::new()
        .has_headers(false)
        .flexible(true)
        .from_reader(alloc, bytes);
    let mut found = Found {
        headed: false,
        items: Vec::new(alloc),
        marks: BTreeSet::new(alloc),
    };
    for read in reader.into_byte_records() {
        match read {
            Ok(row) => take_row(&mut found, cfg, mode, &row)?,
            Err(_) => return Err(SheetFault::NoMemory),
        }
    }
    let Found { headed, items, .. } = found;
    Ok(Sheet { headed, items })
}

/// The items of a sheet's bytes. Records are read as CSV: comma, no header treatment, any number of fields, no
/// trimming; a byte order mark at the very start is dropped, and an empty line is no record. Rows are numbered from 1
/// and every record counts; a first row with exactly the fields `op`, `seat`, `a`, `b` is a heading and is skipped.
///
/// Each other row is tested in this order, and the first row that fails is refused with the first test that it fails:
/// it has four fields (else `FieldCount`); the first is one of `put`, `get`, `del`, `range`, `mark`, `after`, `turn`
/// (`BadOp`); a `turn` stands in a replay alone (`TurnNotHere`); seat and a are numbers, and b is the value of a put,
/// as the setting's number of words joined by colons, the high of a range, and else empty (`BadNumber`); the seat is
/// one of the setting's (`BadSeat`); the key, or the low of a range, is 1 to 2^64-2 (`BadKey`); the high of a range
/// isn't below its low (`BadBounds`); the number of a `mark` is new, and that of an `after` is an earlier mark's
/// (`BadMark`). A number is 1 to 20 digits with a value below 2^64.
///
/// For a feed the operations are the first four alone (else `BadOp`), and the seat's field is empty (else `BadNumber`); the
/// seat of its calls is 0 and means nothing.
///
/// `TooMany` comes exactly where every row is lawful and there are more than [`MOST_CALLS`](crate::MOST_CALLS) calls,
/// more than [`MOST_TURNS`](crate::MOST_TURNS) turns, or more than [`MOST_ROWS`](crate::MOST_ROWS) rows in the ranges'
/// answers, where a range counts as the lesser of `rows` and `high - low`. `NoMemory` is free.
pub fn read_sheet(
    alloc: Global,
    bytes: &[u8],
    mode: Mode,
    cfg: &Config,
) -> Result<Sheet, SheetFault>
    ensures reads { MatchResult result (λ s. sheet_of (parts_of cfg.now) mode bytes.now ≡ Items s.headed s.items) (λ e. IsFault (parts_of cfg.now) (sheet_of (parts_of cfg.now) mode bytes.now) e) }
    ensures lawful { IfOk result (λ s. All (IsLawfulItem (parts_of cfg.now)) s.items) }
    ensures marks { IfOk result (λ s. AreMarksLawful s.items) }
    ensures few { IfOk result (λ s. AreFew (parts_of cfg.now) s.items) }
{
    let sheet = read_rows(alloc, bytes, mode, cfg)?;
    if !are_few(cfg, &sheet.items) {
        return Err(SheetFault::TooMany);
    }
    Ok(sheet)
}
