// The lines of a run.
ghost use Rattle.std.specs.{Prelude.{◌≡◌, ◌+◌, ◌<◌, ◌≤◌, ◌*◌, ◌^◌, ℕ, IfOk, MatchResult, OnOk, OnErr, length, replicate, sum, ◌++◌}, List.{flat_map, sum_by}, Io.KnownBytes.{Appends}};
ghost use Rattle.sh_port.specs.Port.{AppendsFront};
ghost use Rattle.sh_sheet.specs.Sheet.{item_calls, item_seat};
ghost use Rattle.sh_text.specs.{Text.{call_line, row_line}, Write.{CauseOf, HasWriteCause}};
ghost use Rattle.sh_text.specs.declared.points.Points.TheVariants as points;
ghost use Rattle.sh_fleet.specs.Output.{item_behind, item_lines, lines_from, number_behind, text_from, told_lines, IsEnough};
ghost use Rattle.sh_fleet.specs.{Sharing.{told_by}, Telling.{at_first, behind, rest_at, rest_by, AreAt, IsAt}};

use crate::answers::Answers;
use crate::cursor::Cursor;
use sh_map::{Call, Row};
use sh_port::Sink;
use sh_sheet::Item;
use sh_text::{Finished, Points, WriteError, write_end_lines, write_finished, write_rows};
use std::alloc::{AllocError, Global};

// Where a seat is behind its next answer.
fn behind(answers: &Answers, at: Cursor) -> Cursor
    requires { IsAt answers.now at }
    ensures { result ≡ behind answers.now at }
{
    match answers.replies.get(at.reply) {
        Some(answer) => Cursor {
            reply: at.reply + 1,
            row: at.row + answer.rows as usize,
        },
        None => at,
    }
}

// Writes the line of a call, and behind it those of its rows.
fn write_answered<K: Sink>(
    alloc: Global,
    sink: &mut K,
    line: &Finished,
    rows: &[Row],
) -> Result<(), WriteError>
    ensures ok { OnOk result (Appends (K.held sink.old) (K.held sink.new) (call_line points.Hidden line.now ++ flat_map (row_line line.now.n) rows.now)) }
    ensures err { OnErr result (AppendsFront (K.held sink.old) (K.held sink.new) (call_line points.Hidden line.now ++ flat_map (row_line line.now.n) rows.now)) }
    ensures cause { HasWriteCause (K.faults sink.old) (K.faults sink.new) result }
{
    match write_finished(alloc, sink, Points::Hidden, line) {
        Ok(()) => write_rows(alloc, sink, line.n, rows),
        Err(error) => Err(error),
    }
}

// Writes the lines of call `n`, which is told the next answer of its seat.
fn write_told<K: Sink>(
    alloc: Global,
    sink: &mut K,
    n: u32,
    seat: u32,
    call: &Call,
    answers: &Answers,
    at: Cursor,
) -> Result<(), WriteError>
    requires { IsAt answers.now at }
    ensures ok { OnOk result (Appends (K.held sink.old) (K.held sink.new) (told_lines n seat call.now (rest_at answers.now at))) }
    ensures err { OnErr result (AppendsFront (K.held sink.old) (K.held sink.new) (told_lines n seat call.now (rest_at answers.now at))) }
    ensures cause { HasWriteCause (K.faults sink.old) (K.faults sink.new) result }
{
    let Some(answer) = answers.replies.get(at.reply) else {
        return Ok(());
    };
    let line = Finished {
        n,
        seat,
        call: *call,
        reply: answer.reply,
        first: 0,
        point: 0,
    };
    let end = at.row + answer.rows as usize;
    write_answered(alloc, sink, &line, &answers.rows[at.row..end])
}

// The number of the call behind an item, where that of the item or of the next call is `n`.
fn number_behind(n: u32, item: &Item) -> u32
    requires { n < 2000000 }
    ensures { result ≡ number_behind n item.now }
{
    match item {
        Item::Ask { .. } => n + 1,
        _ => n,
    }
}

// Writes the lines of an item, and goes on behind its answer. The number of the item's call, or of the next one, is `n`.
fn write_item<K: Sink>(
    alloc: Global,
    sink: &mut K,
    n: u32,
    item: &Item,
    answers: &[Answers],
    cursors: &mut [Cursor],
) -> Result<(), WriteError>
    requires seat { item_seat item.now < length answers.now }
    requires at { AreAt answers.now cursors.old }
    ensures ok { OnOk result (Appends (K.held sink.old) (K.held sink.new) (item_lines n item.now (rest_by answers.now cursors.old))) }
    ensures err { OnErr result (AppendsFront (K.held sink.old) (K.held sink.new) (item_lines n item.now (rest_by answers.now cursors.old))) }
    ensures cause { HasWriteCause (K.faults sink.old) (K.faults sink.new) result }
    ensures at { AreAt answers.now cursors.new }
    ensures rest { (k : ℕ) → rest_by answers.now cursors.new k ≡ item_behind item.now (rest_by answers.now cursors.old) k }
{
    match item {
        Item::Ask { seat, call } => {
            let place = *seat as usize;
            let at = cursors[place];
            cursors[place] = behind(&answers[place], at);
            write_told(alloc, sink, n, *seat, call, &answers[place], at)
        }
        _ => Ok(()),
    }
}

// Writes the lines of all items. It answers how many calls there are.
fn write_items<K: Sink>(
    alloc: Global,
    sink: &mut K,
    items: &[Item],
    answers: &[Answers],
    cursors: &mut [Cursor],
) -> Result<u32, WriteError>
    requires enough { IsEnough items.now answers.now }
    requires at { AreAt answers.now cursors.old }
    ensures ok { OnOk result (Appends (K.held sink.old) (K.held sink.new) (lines_from 1 items.now (rest_by answers.now cursors.old))) }
    ensures err { OnErr result (AppendsFront (K.held sink.old) (K.held sink.new) (lines_from 1 items.now (rest_by answers.now cursors.old))) }
    ensures cause { MatchResult result (λ _. K.faults sink.new ≡ K.faults sink.old) (CauseOf (K.faults sink.old) (K.faults sink.new)) }
    ensures calls { IfOk result (λ calls. calls ≡ sum_by item_calls items.now) }
{
    let mut n = 1;
    for item in items {
        match write_item(alloc, sink, n, item, answers, cursors) {
            Ok(()) => {}
            Err(error) => return Err(error),
        }
        n = number_behind(n, item);
    }
    Ok(n - 1)
}

// Writes the lines of a run, of which nothing was told yet.
#[tactic(auto, unfolding(crate::specs::Output::text_from))]
fn write_told_lines<K: Sink>(
    alloc: Global,
    sink: &mut K,
    asked: bool,
    items: &[Item],
    answers: &[Answers],
    rows: &[Row],
    cursors: &mut [Cursor],
) -> Result<(), WriteError>
    requires enough { IsEnough items.now answers.now }
    requires at { AreAt answers.now cursors.old }
    requires rows { length rows.now ≤ 4294967296 }
    ensures ok { OnOk result (Appends (K.held sink.old) (K.held sink.new) (text_from asked items.now (rest_by answers.now cursors.old) rows.now)) }
    ensures err { OnErr result (AppendsFront (K.held sink.old) (K.held sink.new) (text_from asked items.now (rest_by answers.now cursors.old) rows.now)) }
    ensures cause { HasWriteCause (K.faults sink.old) (K.faults sink.new) result }
{
    match write_items(alloc, sink, items, answers, cursors) {
        Ok(calls) => write_end_lines(alloc, sink, asked, u64::from(calls), rows),
        Err(error) => Err(error),
    }
}

// Cursors of so many seats, before the first answer of each.
fn first_cursors(alloc: Global, seats: usize) -> Result<Vec<Cursor>, AllocError>
    ensures { IfOk result (λ v. v.items ≡ replicate seats at_first) }
{
    let first = Cursor { reply: 0, row: 0 };
    let cursors = vec![in alloc; first; seats]?;
    Ok(cursors)
}

/// Writes the lines of a run: those of each call, in the sheet's order, a range's rows behind its own; then the map where
/// it is asked for, and the last line. Conditions: each seat has as many rows as its answers have, there are at most
/// 1,000,000 calls, and at most 2^32 keys in the map.
pub(crate) fn write_lines<K: Sink>(
    alloc: Global,
    sink: &mut K,
    asked: bool,
    items: &[Item],
    answers: &[Answers],
    rows: &[Row],
) -> Result<(), WriteError>
    requires enough { IsEnough items.now answers.now }
    requires rows { length rows.now ≤ 4294967296 }
    ensures ok { OnOk result (Appends (K.held sink.old) (K.held sink.new) (text_from asked items.now (told_by answers.now) rows.now)) }
    ensures err { OnErr result (AppendsFront (K.held sink.old) (K.held sink.new) (text_from asked items.now (told_by answers.now) rows.now)) }
    ensures cause { HasWriteCause (K.faults sink.old) (K.faults sink.new) result }
{
    let Ok(mut cursors) = first_cursors(alloc, answers.len()) else {
        return Err(WriteError::NoMemory);
    };
    write_told_lines(alloc, sink, asked, items, answers, rows, &mut cursors)
}
