// The lines of a text, each in its place.
ghost use Rattle.std.specs.Prelude.{◌≡◌, ◌≤◌, ◌<◌, ◌+◌, ◌∷◌, [], Some, None, IfOk, IfSome, OnOk, MatchOption, MatchResult, if◌then◌else◌, length, option_map};
ghost use Rattle.sh_judge.specs.Fields.{parts_at, text_parts};
ghost use Rattle.sh_judge.specs.Reading.{AllTold, call_in, end_said, ends_in_range, pair_said, reading_of, reading_from, row_said, row_spelled, says, with_fields, told_with};
ghost use Rattle.sh_judge.specs.{Reader.{HasLeast, IsReadFault, told_of}, declared.read.ReadFault.TheVariants.{NoMemory}};

use crate::call::done;
use crate::cut::{cut, find, seven, three, two};
use crate::found::{End, Found};
use crate::number::{value, wide, word};
use sh_map::{Call, Done, Row};
use std::alloc::{AllocError, Global};

/// Why a text isn't read.
#[derive(Clone, Copy, Debug, PartialEq, Eq)]
pub enum ReadFault {
    /// This is the first line that isn't in its place. Lines are numbered from 1.
    Line { at: u64 },
    /// Memory is wanting.
    NoMemory,
}

impl From<AllocError> for ReadFault {
    ghost from_gives = { λ _ e. e ≡ NoMemory };

    fn from(_: AllocError) -> Self {
        ReadFault::NoMemory
    }
}

// The field says this number.
fn says(text: &[u8], n: u64) -> bool
    ensures { result ≡ says text.now n }
{
    match word(text) {
        Some(m) => m == n,
        None => false,
    }
}

// A key and its value.
fn row(words: u32, key: &[u8], text: &[u8]) -> Option<Row>
    requires low { 1 ≤ words }
    requires high { words ≤ 8 }
    ensures { result ≡ row_spelled words key.now text.now }
{
    let key = word(key)?;
    let value = value(text, words)?;
    Some(Row { key, value })
}

// The last call is a range.
fn ends_in_range(dones: &[Done]) -> bool
    ensures { result ≡ ends_in_range dones.now }
{
    match dones.last() {
        Some(done) => matches!(done.call, Call::Range { .. }),
        None => false,
    }
}

// The call of a line, if it is in its place.
fn call_in(
    alloc: Global,
    words: u32,
    found: &Found,
    number: &[u8],
    rest: Option<&[u8]>,
) -> Option<Done>
    requires low { 1 ≤ words }
    requires high { words ≤ 8 }
    requires least { HasLeast found.now.ends.items found.now.dones.items }
    ensures said { result ≡ call_in words (told_of found.now) number.now (text_parts 44 (option_map (λ b. b.now) rest.entry)) }
    ensures seat { IfSome result (λ d. d.seat ≤ 63) }
{
    let before = found.dones.len();
    if before >= u32::MAX as usize || !found.maps.is_empty() {
        return None;
    }
    if !says(number, before as u64 + 1) {
        return None;
    }
    let fields = seven(rest)?;
    done(alloc, words, before as u32 + 1, found, fields)
}

// The row of a line, if it is in its place.
fn row_in(words: u32, found: &Found, rest: Option<&[u8]>) -> Option<Row>
    requires low { 1 ≤ words }
    requires high { words ≤ 8 }
    ensures { result ≡ row_said words (told_of found.now) (text_parts 44 (option_map (λ b. b.now) rest.entry)) }
{
    if !ends_in_range(&found.dones) || !found.maps.is_empty() {
        return None;
    }
    let fields = three(rest)?;
    if !says(fields.first, found.dones.len() as u64) {
        return None;
    }
    row(words, fields.second, fields.third)
}

// The row of a line of the map.
fn map_in(words: u32, rest: Option<&[u8]>) -> Option<Row>
    requires low { 1 ≤ words }
    requires high { words ≤ 8 }
    ensures { result ≡ pair_said words (text_parts 44 (option_map (λ b. b.now) rest.entry)) }
{
    let fields = two(rest, b',')?;
    row(words, fields.first, fields.second)
}

// The numbers of a last line.
fn end_in(rest: Option<&[u8]>) -> Option<End>
    ensures { result ≡ end_said (text_parts 44 (option_map (λ b. b.now) rest.entry)) }
{
    let fields = three(rest)?;
    let calls = word(fields.first)?;
    let keys = word(fields.second)?;
    let sum = wide(fields.third)?;
    Some(End { calls, keys, sum })
}

// Takes the fields of a line; whether the line is in its place.
fn take_fields(
    alloc: Global,
    words: u32,
    found: &mut Found,
    first: &[u8],
    rest: Option<&[u8]>,
) -> Result<bool, AllocError>
    requires low { 1 ≤ words }
    requires high { words ≤ 8 }
    requires least { HasLeast found.old.ends.items found.old.dones.items }
    ensures least { OnOk result (HasLeast found.new.ends.items found.new.dones.items) }
    ensures maps { OnOk result (length found.new.maps.items ≤ length found.old.maps.items + 1) }
    ensures taken { IfOk result (λ taken. with_fields words (told_of found.old) (first.now ∷ text_parts 44 (option_map (λ b. b.now) rest.entry)) ≡ (if taken then Some (told_of found.new) else None)) }
{
    if first == b"row".as_slice() {
        let Some(row) = row_in(words, found, rest) else {
            return Ok(false);
        };
        found.add_row(row)?;
    } else if first == b"map".as_slice() {
        let Some(row) = map_in(words, rest) else {
            return Ok(false);
        };
        found.maps.push(row)?;
    } else if first == b"end".as_slice() {
        let Some(end) = end_in(rest) else {
            return Ok(false);
        };
        found.end = Some(end);
    } else {
        let Some(done) = call_in(alloc, words, found, first, rest) else {
            return Ok(false);
        };
        found.add(done)?;
    }
    Ok(true)
}

// Takes a line; whether it is in its place.
#[tactic(auto, unfolding(crate::specs::Reading::told_with))]
fn take_line(alloc: Global, words: u32, found: &mut Found, line: &[u8]) -> Result<bool, AllocError>
    requires low { 1 ≤ words }
    requires high { words ≤ 8 }
    requires least { HasLeast found.old.ends.items found.old.dones.items }
    ensures least { OnOk result (HasLeast found.new.ends.items found.new.dones.items) }
    ensures maps { OnOk result (length found.new.maps.items ≤ length found.old.maps.items + 1) }
    ensures taken { IfOk result (λ taken. told_with words (told_of found.old) line.now ≡ (if taken then Some (told_of found.new) else None)) }
{
    if found.end.is_some() {
        return Ok(false);
    }
    let (first, rest) = cut(line, b',');
    take_fields(alloc, words, found, first, rest)
}

// A line, and what stands behind its line feed.
#[derive(Clone, Copy)]
struct Line<'a> {
    line: &'a [u8],
    rest: &'a [u8],
}

// The next line, if there is one with its line feed.
fn next_line(text: &[u8]) -> Option<Line<'_>>
    ensures parts { MatchOption result (parts_at 10 text.entry.now ≡ text.entry.now ∷ []) (λ l. parts_at 10 text.entry.now ≡ l.line.now ∷ parts_at 10 l.rest.now) }
    ensures shorter { IfSome result (λ l. length l.rest.now < length text.entry.now) }
{
    match find(text, b'\n') {
        Some(at) => Some(Line {
            line: &text[..at],
            rest: &text[at + 1..],
        }),
        None => None,
    }
}

/// What the lines of a text say, where each is in its place.
pub(crate) fn read_text(alloc: Global, words: u32, text: &[u8]) -> Result<Found, ReadFault>
    requires low { 1 ≤ words }
    requires high { words ≤ 8 }
    ensures read { MatchResult result (λ f. reading_of words text.now ≡ AllTold (told_of f) f.lines) (λ e. IsReadFault (reading_of words text.now) e) }
    ensures maps { IfOk result (λ f. length f.maps.items ≤ f.lines) }
{
    let mut found = Found::new(alloc)?;
    let mut lines = 0;
    let mut rest = text;
    'lines: while let Some(next) = next_line(rest) {
        if !take_line(alloc, words, &mut found, next.line)? {
            return Err(ReadFault::Line { at: lines + 1 });
        }
        lines += 1;
        rest = next.rest;
    }
    if found.end.is_none() || !rest.is_empty() {
        return Err(ReadFault::Line { at: lines + 1 });
    }
    found.lines = lines;
    Ok(found)
}
