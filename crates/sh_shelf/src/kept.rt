// Rows of routes, the oldest first.
ghost use Rattle.std.specs.{Prelude.{◌≡◌, ◌≤◌, length, IfOk, MatchOption}, Vec.{vec_capacity}};
ghost use Rattle.sh_lanes.specs.Scans.{IsFirst, LacksWord};
ghost use Rattle.sh_cache.specs.{Cached.{added, better, found, kept}, Columns.{lows_of}};
ghost use Rattle.sh_shelf.specs.Shelf.{AreRising};

use crate::route::Route;
use std::alloc::{AllocError, Global};

/// Of the rows that cover a key the one with the greatest low.
pub(crate) fn find_in(rows: &[Route], key: u64) -> Option<Route>
    ensures { result ≡ found rows.now key }
{
    let mut best = None;
    for row in rows {
        best = better(best, row, key);
    }
    best
}

fn better(best: Option<Route>, row: &Route, key: u64) -> Option<Route>
    ensures { result ≡ better best row.now key }
{
    let covers = row.low <= key && key < row.high;
    let is_above = match best {
        Some(best) => best.low < row.low,
        None => true,
    };
    if covers && is_above { Some(*row) } else { best }
}

/// The row replaces the one with the same low, else it goes last; where more rows stand than there is room for, the
/// first goes.
pub(crate) fn keep(rows: &mut Vec<Route>, room: usize, row: Route)
    requires within { length rows.old.items ≤ room }
    requires reserved { room ≤ vec_capacity rows.old }
    ensures rows { rows.new.items ≡ kept room rows.old.items row }
    ensures capacity { vec_capacity rows.new ≡ vec_capacity rows.old }
{
    match place(rows, row.low) {
        Some(at) => rows[at] = row,
        None => add(rows, room, row),
    }
}

// Where the row with this low stands.
fn place(rows: &[Route], low: u64) -> Option<usize>
    ensures { MatchOption result (LacksWord (lows_of rows.now) low) (λ at. IsFirst (lows_of rows.now) low at) }
{
    for at in 0..rows.len() {
        let row = &rows[at];
        if row.low == low {
            return Some(at);
        }
    }
    None
}

// The row goes last.
fn add(rows: &mut Vec<Route>, room: usize, row: Route)
    requires within { length rows.old.items ≤ room }
    requires reserved { room ≤ vec_capacity rows.old }
    ensures rows { rows.new.items ≡ added room rows.old.items row }
    ensures capacity { vec_capacity rows.new ≡ vec_capacity rows.old }
{
    if room == 0 {
        return;
    }
    if rows.len() == room {
        rows.remove(0);
    }
    rows.push_reserved(row);
}

/// A copy of rows, with so much room.
pub(crate) fn copy_of(alloc: Global, room: usize, rows: &[Route]) -> Result<Vec<Route>, AllocError>
    ensures { IfOk result (λ v. (v.items ≡ rows.now) × (room ≤ vec_capacity v)) }
{
    let mut copy = Vec::with_capacity(alloc, room)?;
    copy.extend_from_slice(rows)?;
    Ok(copy)
}

/// Puts other rows in place of these. Condition: there is room for them.
pub(crate) fn replace(rows: &mut Vec<Route>, from: &[Route])
    requires { length from.now ≤ vec_capacity rows.old }
    ensures rows { rows.new.items ≡ from.now }
    ensures reserved { vec_capacity rows.old ≤ vec_capacity rows.new }
{
    rows.clear();
    let _fits = rows.extend_from_slice(from);
}

/// Puts other rows in place of these, rising by low. Condition: there is room for them.
pub(crate) fn rise(rising: &mut Vec<Route>, rows: &[Route])
    requires { length rows.now ≤ vec_capacity rising.old }
    ensures rows { AreRising rows.now rising.new.items }
    ensures reserved { vec_capacity rising.old ≤ vec_capacity rising.new }
{
    replace(rising, rows);
    rising.sort_unstable_by_key(|row| row.low);
}
