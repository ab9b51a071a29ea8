// Lines written one after another.
ghost use Rattle.std.specs.{Prelude.{◌≡◌, ◌≤◌, ◌^◌, OnOk, OnErr, length}, List.{flat_map}, Io.KnownBytes.{Appends}};
ghost use Rattle.sh_port.specs.Port.{AppendsFront};
ghost use Rattle.sh_text.specs.{Counts.{counts_line}, Text.{call_line, call_text, calls_text, end_line, end_lines, event_line, made_line, map_line, map_lines, pending_line, row_line, unfinished_line}};
ghost use Rattle.sh_text.specs.Write.{HasWriteCause};

use crate::{Counts, Finished, Points, call, counting, line, sum_of};
use sh_base::Event;
use sh_map::{Call, Done, Row};
use sh_port::{Sink, write_all};
use std::alloc::Global;

/// Why lines weren't written. The sink then holds a front of their text more.
#[derive(Clone, Copy, Debug, PartialEq, Eq)]
pub enum WriteError {
    /// A call of the sink failed.
    Fault,
    /// Memory is wanting.
    NoMemory,
}

/// Writes the line of one of the rows of range `n`.
#[tactic(auto, unfolding(crate::specs::Text::row_line))]
pub fn write_row<K: Sink>(alloc: Global, sink: &mut K, n: u32, row: &Row) -> Result<(), WriteError>
    ensures ok { OnOk result (Appends (K.held sink.old) (K.held sink.new) (row_line n row.now)) }
    ensures err { OnErr result (AppendsFront (K.held sink.old) (K.held sink.new) (row_line n row.now)) }
    ensures cause { HasWriteCause (K.faults sink.old) (K.faults sink.new) result }
{
    let Ok(text) = line::row_line(alloc, n, row) else {
        return Err(WriteError::NoMemory);
    };
    match write_all(sink, text.as_bytes()) {
        Ok(()) => Ok(()),
        Err(_) => Err(WriteError::Fault),
    }
}

/// Writes the lines of the rows of range `n`.
pub fn write_rows<K: Sink>(
    alloc: Global,
    sink: &mut K,
    n: u32,
    rows: &[Row],
) -> Result<(), WriteError>
    ensures ok { OnOk result (Appends (K.held sink.old) (K.held sink.new) (flat_map (row_line n) rows.now)) }
    ensures err { OnErr result (AppendsFront (K.held sink.old) (K.held sink.new) (flat_map (row_line n) rows.now)) }
    ensures cause { HasWriteCause (K.faults sink.old) (K.faults sink.new) result }
{
    for row in rows {
        match write_row(alloc, sink, n, row) {
            Ok(()) => {}
            Err(error) => return Err(error),
        }
    }
    Ok(())
}

/// Writes the line of a finished call, without those of its rows.
#[tactic(auto, using(crate::proofs::Fronts::call_unwritten))]
pub fn write_finished<K: Sink>(
    alloc: Global,
    sink: &mut K,
    points: Points,
    call: &Finished,
) -> Result<(), WriteError>
    ensures ok { OnOk result (Appends (K.held sink.old) (K.held sink.new) (call_line points call.now)) }
    ensures err { OnErr result (AppendsFront (K.held sink.old) (K.held sink.new) (call_line points call.now)) }
    ensures cause { HasWriteCause (K.faults sink.old) (K.faults sink.new) result }
{
    let Ok(text) = call::call_line(alloc, points, call) else {
        return Err(WriteError::NoMemory);
    };
    match write_all(sink, text.as_bytes()) {
        Ok(()) => Ok(()),
        Err(_) => Err(WriteError::Fault),
    }
}

/// Writes the line of a finished call, and behind it those of its rows.
pub fn write_call<K: Sink>(
    alloc: Global,
    sink: &mut K,
    points: Points,
    done: &Done,
) -> Result<(), WriteError>
    ensures ok { OnOk result (Appends (K.held sink.old) (K.held sink.new) (call_text points done.now)) }
    ensures err { OnErr result (AppendsFront (K.held sink.old) (K.held sink.new) (call_text points done.now)) }
    ensures cause { HasWriteCause (K.faults sink.old) (K.faults sink.new) result }
{
    let line = Finished {
        n: done.n,
        seat: done.seat,
        call: done.call,
        reply: done.reply,
        first: done.first,
        point: done.point,
    };
    match write_finished(alloc, sink, points, &line) {
        Ok(()) => write_rows(alloc, sink, done.n, done.rows.as_slice()),
        Err(error) => Err(error),
    }
}

/// Writes the lines of these finished calls, one after another, each with those of its rows behind it.
pub fn write_calls<K: Sink>(
    alloc: Global,
    sink: &mut K,
    points: Points,
    dones: &[Done],
) -> Result<(), WriteError>
    ensures ok { OnOk result (Appends (K.held sink.old) (K.held sink.new) (calls_text points dones.now)) }
    ensures err { OnErr result (AppendsFront (K.held sink.old) (K.held sink.new) (calls_text points dones.now)) }
    ensures cause { HasWriteCause (K.faults sink.old) (K.faults sink.new) result }
{
    for done in dones {
        match write_call(alloc, sink, points, done) {
            Ok(()) => {}
            Err(error) => return Err(error),
        }
    }
    Ok(())
}

/// Writes the line of a call that hasn't ended.
#[tactic(auto, using(crate::proofs::Fronts::pending_unwritten))]
pub fn write_pending<K: Sink>(
    alloc: Global,
    sink: &mut K,
    points: Points,
    n: u32,
    seat: u32,
    call: &Call,
) -> Result<(), WriteError>
    ensures ok { OnOk result (Appends (K.held sink.old) (K.held sink.new) (pending_line points n seat call.now)) }
    ensures err { OnErr result (AppendsFront (K.held sink.old) (K.held sink.new) (pending_line points n seat call.now)) }
    ensures cause { HasWriteCause (K.faults sink.old) (K.faults sink.new) result }
{
    let Ok(text) = call::pending_line(alloc, points, n, seat, call) else {
        return Err(WriteError::NoMemory);
    };
    match write_all(sink, text.as_bytes()) {
        Ok(()) => Ok(()),
        Err(_) => Err(WriteError::Fault),
    }
}

/// Writes the lines of these keys and their values, one after another.
pub fn write_map<K: Sink>(alloc: Global, sink: &mut K, rows: &[Row]) -> Result<(), WriteError>
    ensures ok { OnOk result (Appends (K.held sink.old) (K.held sink.new) (flat_map map_line rows.now)) }
    ensures err { OnErr result (AppendsFront (K.held sink.old) (K.held sink.new) (flat_map map_line rows.now)) }
    ensures cause { HasWriteCause (K.faults sink.old) (K.faults sink.new) result }
{
    for row in rows {
        let Ok(text) = line::map_line(alloc, row) else {
            return Err(WriteError::NoMemory);
        };
        match write_all(sink, text.as_bytes()) {
            Ok(()) => {}
            Err(_) => return Err(WriteError::Fault),
        }
    }
    Ok(())
}

/// Writes the last line of a run whose calls have all ended: how many calls there were, how many keys there are, and the
/// sum of all words of their values.
#[tactic(auto, unfolding(crate::specs::Text::end_line))]
pub fn write_end<K: Sink>(
    alloc: Global,
    sink: &mut K,
    calls: u64,
    keys: u64,
    sum: u128,
) -> Result<(), WriteError>
    ensures ok { OnOk result (Appends (K.held sink.old) (K.held sink.new) (end_line calls keys sum)) }
    ensures err { OnErr result (AppendsFront (K.held sink.old) (K.held sink.new) (end_line calls keys sum)) }
    ensures cause { HasWriteCause (K.faults sink.old) (K.faults sink.new) result }
{
    let Ok(text) = line::end_line(alloc, calls, keys, sum) else {
        return Err(WriteError::NoMemory);
    };
    match write_all(sink, text.as_bytes()) {
        Ok(()) => Ok(()),
        Err(_) => Err(WriteError::Fault),
    }
}

/// Writes the map, where it is asked for.
pub fn write_map_lines<K: Sink>(
    alloc: Global,
    sink: &mut K,
    asked: bool,
    rows: &[Row],
) -> Result<(), WriteError>
    ensures ok { OnOk result (Appends (K.held sink.old) (K.held sink.new) (map_lines asked rows.now)) }
    ensures err { OnErr result (AppendsFront (K.held sink.old) (K.held sink.new) (map_lines asked rows.now)) }
    ensures cause { HasWriteCause (K.faults sink.old) (K.faults sink.new) result }
{
    if asked {
        write_map(alloc, sink, rows)
    } else {
        Ok(())
    }
}

/// Writes the lines behind the calls' lines where every call has ended: the map where it is asked for, and the last line.
/// Condition: there are at most 2^57 rows.
pub fn write_end_lines<K: Sink>(
    alloc: Global,
    sink: &mut K,
    asked: bool,
    calls: u64,
    rows: &[Row],
) -> Result<(), WriteError>
    requires { length rows.now ≤ 2 ^ 57 }
    ensures ok { OnOk result (Appends (K.held sink.old) (K.held sink.new) (end_lines asked calls rows.now)) }
    ensures err { OnErr result (AppendsFront (K.held sink.old) (K.held sink.new) (end_lines asked calls rows.now)) }
    ensures cause { HasWriteCause (K.faults sink.old) (K.faults sink.new) result }
{
    match write_map_lines(alloc, sink, asked, rows) {
        Ok(()) => write_end(alloc, sink, calls, rows.len() as u64, sum_of(rows)),
        Err(error) => Err(error),
    }
}

/// Writes the last line of a run that was given up: how many calls there were, and how many of them have ended.
#[tactic(auto, unfolding(crate::specs::Text::unfinished_line))]
pub fn write_unfinished<K: Sink>(
    alloc: Global,
    sink: &mut K,
    calls: u64,
    done: u64,
) -> Result<(), WriteError>
    ensures ok { OnOk result (Appends (K.held sink.old) (K.held sink.new) (unfinished_line calls done)) }
    ensures err { OnErr result (AppendsFront (K.held sink.old) (K.held sink.new) (unfinished_line calls done)) }
    ensures cause { HasWriteCause (K.faults sink.old) (K.faults sink.new) result }
{
    let Ok(text) = line::unfinished_line(alloc, calls, done) else {
        return Err(WriteError::NoMemory);
    };
    match write_all(sink, text.as_bytes()) {
        Ok(()) => Ok(()),
        Err(_) => Err(WriteError::Fault),
    }
}

/// Writes the line of a seat's event and the word that it found.
#[tactic(auto, unfolding(crate::specs::Text::event_line))]
pub fn write_event<K: Sink>(
    alloc: Global,
    sink: &mut K,
    seat: u32,
    event: &Event,
    found: u64,
) -> Result<(), WriteError>
    ensures ok { OnOk result (Appends (K.held sink.old) (K.held sink.new) (event_line seat event.now found)) }
    ensures err { OnErr result (AppendsFront (K.held sink.old) (K.held sink.new) (event_line seat event.now found)) }
    ensures cause { HasWriteCause (K.faults sink.old) (K.faults sink.new) result }
{
    let Ok(text) = line::event_line(alloc, seat, event, found) else {
        return Err(WriteError::NoMemory);
    };
    match write_all(sink, text.as_bytes()) {
        Ok(()) => Ok(()),
        Err(_) => Err(WriteError::Fault),
    }
}

/// Writes the line of made calls: how many, and their seed.
#[tactic(auto, unfolding(crate::specs::Text::made_line))]
pub fn write_made<K: Sink>(alloc: Global, sink: &mut K, n: u64, seed: u64) -> Result<(), WriteError>
    ensures ok { OnOk result (Appends (K.held sink.old) (K.held sink.new) (made_line n seed)) }
    ensures err { OnErr result (AppendsFront (K.held sink.old) (K.held sink.new) (made_line n seed)) }
    ensures cause { HasWriteCause (K.faults sink.old) (K.faults sink.new) result }
{
    let Ok(text) = line::made_line(alloc, n, seed) else {
        return Err(WriteError::NoMemory);
    };
    match write_all(sink, text.as_bytes()) {
        Ok(()) => Ok(()),
        Err(_) => Err(WriteError::Fault),
    }
}

/// Writes the line of counts.
#[tactic(auto, unfolding(crate::specs::Counts::counts_line))]
pub fn write_counts<K: Sink>(alloc: Global, sink: &mut K, counts: &Counts) -> Result<(), WriteError>
    ensures ok { OnOk result (Appends (K.held sink.old) (K.held sink.new) (counts_line counts.now)) }
    ensures err { OnErr result (AppendsFront (K.held sink.old) (K.held sink.new) (counts_line counts.now)) }
    ensures cause { HasWriteCause (K.faults sink.old) (K.faults sink.new) result }
{
    let Ok(text) = counting::counts_line(alloc, counts) else {
        return Err(WriteError::NoMemory);
    };
    match write_all(sink, text.as_bytes()) {
        Ok(()) => Ok(()),
        Err(_) => Err(WriteError::Fault),
    }
}
