// The rows of a sheet.
ghost use Rattle.std.specs.Prelude.{◌≡◌, ◌∷◌, ◌<◌, ◌≢◌, ℕ, List, IfOk, IfErr, OnOk, MatchResult, [], length};
ghost use Rattle.csv.specs.Records.{fields_of};
ghost use Rattle.sh_base.specs.Parts.{parts_of};
ghost use Rattle.sh_bulk.specs.{Fault.{AreGood, key_before}, Nodes.{HaveValues}, Sheet.{row_in, rows_from, rows_of, Good, IsRowsFault}};

use crate::checked::is_key;
use crate::leaves::key_at;
use csv::{ByteRecord, ReaderBuilder};
use sh_base::Config;
use sh_map::Row;
use sh_sheet::{RowCause, field, parse_number, parse_value};
use std::alloc::Global;

/// Why a sheet gives no rows. Rows are numbered from 1.
#[derive(Clone, Copy, Debug, PartialEq, Eq)]
pub enum RowsFault {
    /// The row is refused, by the first test that it fails.
    Row { row: u64, cause: RowCause },
    /// The row's key isn't above that of the row before it.
    NotRising { row: u64 },
    /// Memory is wanting.
    NoMemory,
}

// The row of two fields, or the first test that they fail.
fn row_of(cfg: &Config, key: &[u8], value: &[u8]) -> Result<Row, RowCause>
    ensures { result ≡ row_in (parts_of cfg.now) (key.now ∷ value.now ∷ []) }
{
    let key = parse_number(key).ok_or(RowCause::BadNumber)?;
    let words = cfg.value_words() as usize;
    let value = parse_value(value, words).ok_or(RowCause::BadNumber)?;
    if !is_key(key) {
        return Err(RowCause::BadKey);
    }
    Ok(Row { key, value })
}

// What a row says.
#[tactic(auto, using(crate::proofs::SheetLemmas::two, crate::proofs::SheetLemmas::not_two))]
fn row_in(cfg: &Config, row: &ByteRecord) -> Result<Row, RowCause>
    ensures { result ≡ row_in (parts_of cfg.now) (fields_of row.now) }
{
    if row.len() != 2 {
        return Err(RowCause::FieldCount);
    }
    row_of(cfg, field(row, 0), field(row, 1))
}

// Takes the next row.
fn take_row(found: &mut Vec<Row>, cfg: &Config, row: &ByteRecord) -> Result<(), RowsFault>
    requires good { AreGood found.old.items }
    requires values { HaveValues (parts_of cfg.now) found.old.items }
    ensures good { OnOk result (AreGood found.new.items) }
    ensures values { OnOk result (HaveValues (parts_of cfg.now) found.new.items) }
    ensures taken { OnOk result ((rest : List (List (List ℕ))) → rows_from (parts_of cfg.now) found.old.items (fields_of row.now ∷ rest) ≡ rows_from (parts_of cfg.now) found.new.items rest) }
    ensures refused { IfErr result (λ e. (rest : List (List (List ℕ))) → IsRowsFault (rows_from (parts_of cfg.now) found.old.items (fields_of row.now ∷ rest)) e) }
{
    let next = match row_in(cfg, row) {
        Ok(next) => next,
        Err(cause) => {
            return Err(RowsFault::Row {
                row: found.len() as u64 + 1,
                cause,
            });
        }
    };
    if next.key <= last_key(found) {
        return Err(RowsFault::NotRising {
            row: found.len() as u64 + 1,
        });
    }
    match found.push(next) {
        Ok(()) => Ok(()),
        Err(_) => Err(RowsFault::NoMemory),
    }
}

// The key of the last row, or 0 where there is none.
fn last_key(found: &[Row]) -> u64
    ensures { result ≡ key_before found.now (length found.now) }
{
    if found.is_empty() {
        0
    } else {
        key_at(found, found.len() - 1)
    }
}

/// The rows of a sheet's bytes: each record has two fields, a key and a value of the setting's words, and keys rise. The first
/// row that fails is told with the first test that it fails: it has two fields (`FieldCount`), the key is a number and the
/// value as many numbers as the setting says, joined by colons (`BadNumber`), the key is 1 to 2^64-2 (`BadKey`), and it is
/// above the key before (`NotRising`). Records are read as those of every sheet; no first row is skipped.
pub(crate) fn gather_rows(alloc: Global, bytes: &[u8], cfg: &Config) -> Result<Vec<Row>, RowsFault>
    ensures reads { MatchResult result (λ v. rows_of (parts_of cfg.now) bytes.now ≡ Good v.items) (λ e. IsRowsFault (rows_of (parts_of cfg.now) bytes.now) e) }
    ensures good { IfOk result (λ v. AreGood v.items) }
    ensures values { IfOk result (λ v. HaveValues (parts_of cfg.now) v.items) }
{
    let reader = ReaderBuilder::new()
        .has_headers(false)
        .flexible(true)
        .from_reader(alloc, bytes);
    let mut found = Vec::new(alloc);
    for read in reader.into_byte_records() {
        match read {
            Ok(row) => take_row(&mut found, cfg, &row)?,
            Err(_) => return Err(RowsFault::NoMemory),
        }
    }
    Ok(found)
}
