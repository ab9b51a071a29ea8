// Whether the rows of a range answer it.
ghost use Rattle.std.specs.Prelude.{ℕ, IsTrue, ◌↔◌, ◌≡◌, ◌<◌, ◌≤◌, length, All, AllPairs, IfOk};
ghost use Rattle.sh_map.specs.{Log.{map_at}, Book.{AnswersRange}, Judge.{RowsAnswer}, Rows.{RowHasPoint, IsRising}, Tables.{AreMet, IsGivenValue}};

use crate::entries::same;
use crate::plain_map::value_in;
use crate::tree_map::TreeMap;
use crate::{Call, Done, Entry, Reply, Row};
use std::alloc::{AllocError, Global};
use std::collections::BTreeSet;

// Whether the rows' keys rise.
fn are_rising(rows: &[Row]) -> bool
    ensures { IsTrue result ↔ AllPairs (λ x y. x.key < y.key) rows.now }
{
    for (at, row) in rows.iter().enumerate() {
        if at > 0 && row.key <= rows[at - 1].key {
            return false;
        }
    }
    true
}

// Whether the rows' keys lie in low..upto.
fn are_within(rows: &[Row], low: u64, upto: u64) -> bool
    ensures { IsTrue result ↔ All (λ x. (low ≤ x.key) × (x.key < upto)) rows.now }
{
    rows.iter().all(|row| low <= row.key && row.key < upto)
}

// The keys that some entry leaves as the rows give them.
fn keys_met(alloc: Global, entries: &[Entry], rows: &[Row]) -> Result<BTreeSet<u64>, AllocError>
    requires { IsRising rows.now }
    ensures { IfOk result (λ met. AreMet entries.now rows.now met) }
{
    let mut met = BTreeSet::new(alloc);
    for entry in entries {
        let key = entry.change.key();
        if same(&entry.change.left(), &value_in(rows, key)) {
            met.insert(key)?;
        }
    }
    Ok(met)
}

// Whether a key has what the rows give it, in the map or among those met.
fn is_given(before: &TreeMap, met: &BTreeSet<u64>, rows: &[Row], key: u64) -> bool
    requires { IsRising rows.now }
    ensures { IsTrue result ↔ IsGivenValue before.now met.now rows.now key }
{
    same(&before.get(key), &value_in(rows, key)) || met.contains(&key)
}

// Whether each of these keys is given so.
fn are_given(before: &TreeMap, met: &BTreeSet<u64>, rows: &[Row], keys: &[u64]) -> bool
    requires { IsRising rows.now }
    ensures { IsTrue result ↔ All (λ key. IsGivenValue before.now met.now rows.now key) keys.now }
{
    keys.iter().all(|key| is_given(before, met, rows, *key))
}

// Whether each row's key is given so.
fn are_rows_given(before: &TreeMap, met: &BTreeSet<u64>, rows: &[Row]) -> bool
    requires { IsRising rows.now }
    ensures { IsTrue result ↔ All (λ r. IsGivenValue before.now met.now rows.now r.key) rows.now }
{
    rows.iter().all(|row| is_given(before, met, rows, row.key))
}

// Whether each row's key and each of these keys is given so.
fn are_all_given(before: &TreeMap, met: &BTreeSet<u64>, rows: &[Row], keys: &[u64]) -> bool
    requires { IsRising rows.now }
    ensures { IsTrue result ↔ (All (λ r. IsGivenValue before.now met.now rows.now r.key) rows.now
        × All (λ key. IsGivenValue before.now met.now rows.now key) keys.now) }
{
    are_rows_given(before, met, rows) && are_given(before, met, rows, keys)
}

// Whether each key of low..upto has, at some point of the entries from this map on, what the rows give it. Only keys
// with a row, and those that stand in the map, need a look.
fn have_points(
    alloc: Global,
    before: &TreeMap,
    during: &[Entry],
    rows: &[Row],
    low: u64,
    upto: u64,
) -> Result<bool, AllocError>
    requires rising { IsRising rows.now }
    requires within { All (λ x. (low ≤ x.key) × (x.key < upto)) rows.now }
    requires bounds { low ≤ upto }
    ensures { IfOk result (λ yes. IsTrue yes
        ↔ ((key : ℕ) → RowHasPoint before.now during.now rows.now low upto key)) }
{
    if before.has_rows(rows, low, upto) {
        return Ok(true);
    }
    let met = keys_met(alloc, during, rows)?;
    let standing = before.keys_in(alloc, low, upto)?;
    Ok(are_all_given(before, &met, rows, &standing))
}

// Whether a range that ends here is answered by its rows.
fn answers_rows(
    alloc: Global,
    before: &TreeMap,
    log: &[Entry],
    done: &Done,
    low: u64,
    upto: u64,
) -> Result<bool, AllocError>
    requires { done.now.first ≤ length log.now → before.now ≡ map_at log.now done.now.first }
    ensures { IfOk result (λ yes. IsTrue yes
        ↔ ((done.now.point ≤ length log.now)
        × AnswersRange log.now done.now.first done.now.point low upto done.now.rows)) }
{
    let rows = done.rows.as_slice();
    if done.point > log.len() as u64 || !are_rising(rows) || !are_within(rows, low, upto) {
        return Ok(false);
    }
    if upto <= low {
        return Ok(true);
    }
    if done.point < done.first {
        return Ok(false);
    }
    let (first, point) = (done.first as usize, done.point as usize);
    have_points(alloc, before, &log[first..point], rows, low, upto)
}

/// Whether the rows of a range answer it. Other calls have none. The map is that of `first`, where the log has that.
pub(crate) fn do_rows_answer(
    alloc: Global,
    before: &TreeMap,
    log: &[Entry],
    done: &Done,
) -> Result<bool, AllocError>
    requires { done.now.first ≤ length log.now → before.now ≡ map_at log.now done.now.first }
    ensures { IfOk result (λ yes. IsTrue yes ↔ RowsAnswer log.now done.now done.now.call done.now.reply) }
{
    match (done.call, done.reply) {
        (Call::Range { low, .. }, Reply::Rows { upto }) => {
            answers_rows(alloc, before, log, done, low, upto)
        }
        _ => Ok(true),
    }
}
