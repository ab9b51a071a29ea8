// A printed replay, judged.
ghost use Rattle.std.specs.Prelude.{◌≡◌, ◌≤◌, ◌↔◌, Some, IfOk, IsTrue, MatchOption, length};
ghost use Rattle.sh_text.specs.Text.{sum_of};
ghost use Rattle.sh_judge.specs.{Finding.{HasMap, IsFinding, IsFoundIn, IsWrongMap, end_for}, Reader.{told_of}};

use crate::Finding;
use crate::found::Found;
use crate::last::{first_unlike, last_rows, sum_of};
use crate::places::{first_unplaced, log_of, updates};
use crate::read::{ReadFault, read_text};
use sh_map::{Row, judge};
use std::alloc::{AllocError, Global};

// Whether this is the sum of all words of the rows' values.
fn is_sum(rows: &[Row], sum: u128) -> bool
    ensures { IsTrue result ↔ (sum ≡ sum_of rows.now) }
{
    match sum_of(rows) {
        Some(total) => sum == total,
        None => false,
    }
}

// Whether a last line's numbers are those of the calls and the map.
fn is_end(found: &Found, rows: &[Row]) -> bool
    ensures { IsTrue result ↔ (found.now.end ≡ Some (end_for (told_of found.now) rows.now)) }
{
    match found.end {
        Some(end) => {
            end.calls == found.dones.len() as u64
                && end.keys == rows.len() as u64
                && is_sum(rows, end.sum)
        }
        None => false,
    }
}

// The number of the first line of the map that isn't the map's, if lines of the map are there.
fn wrong_map(found: &Found, rows: &[Row]) -> Option<u64>
    requires { length found.now.maps.items ≤ found.now.lines }
    ensures { MatchOption result (HasMap (told_of found.now) rows.now) (λ line. IsWrongMap (told_of found.now) rows.now found.now.lines line) }
{
    if found.maps.is_empty() {
        return None;
    }
    match first_unlike(&found.maps, rows) {
        Some(at) => Some(found.lines - found.maps.len() as u64 + at as u64),
        None => None,
    }
}

// What is found of lines that are in their places.
fn judge_found(alloc: Global, found: &Found) -> Result<Finding, AllocError>
    requires { length found.now.maps.items ≤ found.now.lines }
    ensures { IfOk result (λ f. IsFoundIn (told_of found.now) found.now.lines f) }
{
    let count = updates(&found.dones);
    if let Some(at) = first_unplaced(alloc, count, &found.dones)? {
        return Ok(Finding::Place { at: at as u64 });
    }
    let log = log_of(alloc, count, &found.dones)?;
    if let Some(misfit) = judge(alloc, &log, &found.dones)? {
        return Ok(Finding::Misfit(misfit));
    }
    let rows = last_rows(alloc, &log)?;
    if let Some(line) = wrong_map(found, &rows) {
        return Ok(Finding::Map { line });
    }
    if !is_end(found, &rows) {
        return Ok(Finding::End);
    }
    Ok(Finding::Lawful {
        calls: found.dones.len() as u64,
        entries: log.len() as u64,
    })
}

/// What is found of a printed replay whose values have so many words. Condition: 1 to 8 words. The causes stand in this
/// order: the first line that isn't in its place; the least place of the log that isn't the point of just one updating
/// call; the first misfit of the book; the first line of the map that isn't the map's; a last line whose numbers aren't the
/// book's. Where none of them holds it is `Lawful`. The time grows with the number of bytes, and for the book as `judge`
/// of `sh_map` says.
#[tactic(auto, unfolding(crate::specs::Finding::IsFinding))]
pub fn judge_text(alloc: Global, text: &[u8], value_words: u32) -> Result<Finding, AllocError>
    requires low { 1 ≤ value_words }
    requires high { value_words ≤ 8 }
    ensures { IfOk result (λ f. IsFinding value_words text.now f) }
{
    match read_text(alloc, value_words, text) {
        Ok(found) => judge_found(alloc, &found),
        Err(ReadFault::Line { at }) => Ok(Finding::Line { at }),
        Err(ReadFault::NoMemory) => Err(AllocError),
    }
}
