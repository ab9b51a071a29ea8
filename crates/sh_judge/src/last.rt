// The map that a log makes, as rows.
ghost use Rattle.std.specs.Prelude.{◌≡◌, ◌^◌, ◌≤◌, ◌*◌, ◌↔◌, IfOk, IsTrue, MatchOption, OnOk, sum};
ghost use Rattle.sh_map.specs.Log.{changed, map_of};
ghost use Rattle.sh_text.specs.Text.{sum_of};
ghost use Rattle.sh_judge.specs.{Finding.{AreUnlikeAt, log_rows}, Trees.{tree_map, map_rows}};

use sh_base::Value;
use sh_map::{Change, Entry, Row};
use sh_text::sum_of_value;
use std::alloc::{AllocError, Global};
use std::collections::BTreeMap;

// Makes a change.
fn apply(tree: &mut BTreeMap<u64, Value>, change: &Change) -> Result<(), AllocError>
    ensures { OnOk result (tree_map tree.new ≡ changed (tree_map tree.old) change.now) }
{
    match *change {
        Change::Put { key, value } => {
            tree.insert(key, value)?;
        }
        Change::Del { key } => {
            tree.remove(&key);
        }
    }
    Ok(())
}

// The map of a log.
fn tree_of(alloc: Global, log: &[Entry]) -> Result<BTreeMap<u64, Value>, AllocError>
    ensures { IfOk result (λ tree. tree_map tree ≡ map_of log.now) }
{
    let mut tree = BTreeMap::new(alloc);
    for entry in log {
        apply(&mut tree, &entry.change)?;
    }
    Ok(tree)
}

// The rows of a map, by rising keys.
fn rows_in(alloc: Global, tree: &BTreeMap<u64, Value>) -> Result<Vec<Row>, AllocError>
    ensures { IfOk result (λ rows. rows.items ≡ map_rows (tree_map tree.now)) }
{
    let mut rows = Vec::new(alloc);
    for (key, value) in tree.iter() {
        rows.push(Row {
            key: *key,
            value: *value,
        })?;
    }
    Ok(rows)
}

/// The rows of the map of a log, by rising keys.
pub(crate) fn last_rows(alloc: Global, log: &[Entry]) -> Result<Vec<Row>, AllocError>
    ensures { IfOk result (λ rows. rows.items ≡ log_rows log.now) }
{
    let tree = tree_of(alloc, log)?;
    rows_in(alloc, &tree)
}

// Whether two rows are the same.
fn are_same(a: &Row, b: &Row) -> bool
    ensures { IsTrue result ↔ (a.now ≡ b.now) }
{
    a.key == b.key && a.value.words() == b.value.words()
}

/// The least place at which two lists of rows are unlike.
pub(crate) fn first_unlike(maps: &[Row], rows: &[Row]) -> Option<usize>
    ensures { MatchOption result (maps.now ≡ rows.now) (λ at. AreUnlikeAt maps.now rows.now at) }
{
    let end = maps.len().min(rows.len());
    for at in 0..end {
        if !are_same(&maps[at], &rows[at]) {
            return Some(at);
        }
    }
    if maps.len() == rows.len() {
        None
    } else {
        Some(end)
    }
}

/// The sum of all words of the rows' values, where it is below 2^128.
pub(crate) fn sum_of(rows: &[Row]) -> Option<u128>
    ensures { MatchOption result (2 ^ 128 ≤ sum_of rows.now) (λ total. total ≡ sum_of rows.now) }
{
    let mut total = 0u128;
    for row in rows {
        total = total.checked_add(sum_of_value(&row.value))?;
    }
    Some(total)
}
