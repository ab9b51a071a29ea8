// The lines of a replay.
ghost use Rattle.std.specs.Prelude.{Some, ◌≡◌, ◌<◌, ◌≤◌, ◌*◌, ◌^◌, if◌then◌else◌, is_some, length, sum, OnOk, OnErr};
ghost use Rattle.std.specs.{List.{flat_map, sum_by}, Io.KnownBytes.{Appends}};
ghost use Rattle.sh_port.specs.Port.{AppendsFront};
ghost use Rattle.sh_options.specs.Order.{asked_of};
ghost use Rattle.sh_text.specs.{Counts.{counts_of}, Text.{row_line, end_lines, map_lines, sum_of}, Write.{HasWriteCause}};
ghost use Rattle.sh_world.specs.States.{dones_of, rows_at, with_rows};
ghost use Rattle.sh_replay.specs.Output.{calls_lines, count_ended, counted, last_lines, lines_from, lines_behind, text_with, total};

use crate::turns::have_ended;
use sh_map::Row;
use sh_options::Order;
use sh_port::Sink;
use sh_text::{
    Counts, Finished, Points, WriteError, add_answer, write_counts, write_end_lines,
    write_finished, write_made, write_pending, write_row, write_unfinished,
};
use sh_world::{Calls, GivenCall};
use std::alloc::Global;

// Writes the lines of the rows of call `n`, which is at this place.
fn write_given_rows<K: Sink>(
    alloc: Global,
    sink: &mut K,
    n: u32,
    calls: &Calls,
    place: usize,
) -> Result<(), WriteError>
    requires { place < length calls.now.calls }
    ensures ok { OnOk result (Appends (K.held sink.old) (K.held sink.new) (flat_map (row_line n) (rows_at calls.now.calls place))) }
    ensures err { OnErr result (AppendsFront (K.held sink.old) (K.held sink.new) (flat_map (row_line n) (rows_at calls.now.calls place))) }
    ensures cause { HasWriteCause (K.faults sink.old) (K.faults sink.new) result }
{
    for row in 0..calls.rows(place) {
        match write_row(alloc, sink, n, &calls.row(place, row)) {
            Ok(()) => {}
            Err(error) => return Err(error),
        }
    }
    Ok(())
}

// Writes the lines of call `n`, which is at this place.
fn write_given<K: Sink>(
    alloc: Global,
    sink: &mut K,
    n: u32,
    given: &GivenCall,
    calls: &Calls,
    place: usize,
) -> Result<(), WriteError>
    requires { place < length calls.now.calls }
    ensures ok { OnOk result (Appends (K.held sink.old) (K.held sink.new) (text_with n (with_rows given.now (rows_at calls.now.calls place)) given.now.reply)) }
    ensures err { OnErr result (AppendsFront (K.held sink.old) (K.held sink.new) (text_with n (with_rows given.now (rows_at calls.now.calls place)) given.now.reply)) }
    ensures cause { HasWriteCause (K.faults sink.old) (K.faults sink.new) result }
{
    let Some(reply) = given.reply else {
        return write_pending(alloc, sink, Points::Shown, n, given.seat, &given.call);
    };
    let call = Finished {
        n,
        seat: given.seat,
        call: given.call,
        reply,
        first: u64::from(given.first),
        point: u64::from(given.point),
    };
    match write_finished(alloc, sink, Points::Shown, &call) {
        Ok(()) => write_given_rows(alloc, sink, n, calls, place),
        Err(error) => Err(error),
    }
}

// Writes the lines of these calls.
fn write_given_calls<K: Sink>(alloc: Global, sink: &mut K, calls: &Calls) -> Result<(), WriteError>
    requires { length calls.now.calls ≤ 1000000 }
    ensures ok { OnOk result (Appends (K.held sink.old) (K.held sink.new) (lines_from 1 calls.now.calls)) }
    ensures err { OnErr result (AppendsFront (K.held sink.old) (K.held sink.new) (lines_from 1 calls.now.calls)) }
    ensures cause { HasWriteCause (K.faults sink.old) (K.faults sink.new) result }
{
    for i in 0..calls.len() {
        match write_given(alloc, sink, i as u32 + 1, &calls.get(i), calls, i) {
            Ok(()) => {}
            Err(error) => return Err(error),
        }
    }
    Ok(())
}

// Whether a call has ended, as a number.
fn ended_by(given: &GivenCall) -> u64
    ensures { result ≡ (if is_some given.now.reply then 1 else 0) }
{
    if given.reply.is_some() { 1 } else { 0 }
}

// How many of the calls have ended.
fn count_ended(calls: &Calls) -> u64
    requires { length calls.now.calls ≤ 1000000 }
    ensures { result ≡ count_ended calls.now.calls }
{
    let mut count = 0;
    for i in 0..calls.len() {
        count += ended_by(&calls.get(i));
    }
    count
}

// Writes the lines behind the calls' lines.
fn write_last_lines<K: Sink>(
    alloc: Global,
    sink: &mut K,
    asked: bool,
    calls: &Calls,
    rows: &[Row],
) -> Result<(), WriteError>
    requires calls { length calls.now.calls ≤ 1000000 }
    requires rows { length rows.now ≤ 4294967296 }
    ensures ok { OnOk result (Appends (K.held sink.old) (K.held sink.new) (last_lines asked calls.now.calls rows.now)) }
    ensures err { OnErr result (AppendsFront (K.held sink.old) (K.held sink.new) (last_lines asked calls.now.calls rows.now)) }
    ensures cause { HasWriteCause (K.faults sink.old) (K.faults sink.new) result }
{
    if have_ended(calls) {
        write_end_lines(alloc, sink, asked, calls.len() as u64, rows)
    } else {
        write_unfinished(alloc, sink, calls.len() as u64, count_ended(calls))
    }
}

// Counts one call more, where it has ended.
fn count_answer(counts: &mut Counts, given: &GivenCall)
    requires { total counts.old ≤ 1000000 }
    ensures { counts.new ≡ counted counts.old given.now.call given.now.reply }
{
    if let Some(reply) = &given.reply {
        add_answer(counts, &given.call, reply);
    }
}

// How many of the calls were answered in which way.
fn counts(calls: &Calls) -> Counts
    requires { length calls.now.calls ≤ 1000000 }
    ensures { result ≡ counts_of (dones_of calls.now.calls) }
{
    let mut counts = Counts::none_yet();
    for i in 0..calls.len() {
        count_answer(&mut counts, &calls.get(i));
    }
    counts
}

// Writes how many calls were made of which seed, and how many were answered in which way.
fn write_made_calls<K: Sink>(
    alloc: Global,
    sink: &mut K,
    n: u64,
    seed: u64,
    calls: &Calls,
) -> Result<(), WriteError>
    requires { length calls.now.calls ≤ 1000000 }
    ensures ok { OnOk result (Appends (K.held sink.old) (K.held sink.new) (calls_lines (Some n) seed calls.now.calls)) }
    ensures err { OnErr result (AppendsFront (K.held sink.old) (K.held sink.new) (calls_lines (Some n) seed calls.now.calls)) }
    ensures cause { HasWriteCause (K.faults sink.old) (K.faults sink.new) result }
{
    match write_made(alloc, sink, n, seed) {
        Ok(()) => write_counts(alloc, sink, &counts(calls)),
        Err(error) => Err(error),
    }
}

// Writes what an order tells of the calls.
fn write_calls_lines<K: Sink>(
    alloc: Global,
    sink: &mut K,
    make: Option<u64>,
    seed: u64,
    calls: &Calls,
) -> Result<(), WriteError>
    requires { length calls.now.calls ≤ 1000000 }
    ensures ok { OnOk result (Appends (K.held sink.old) (K.held sink.new) (calls_lines make seed calls.now.calls)) }
    ensures err { OnErr result (AppendsFront (K.held sink.old) (K.held sink.new) (calls_lines make seed calls.now.calls)) }
    ensures cause { HasWriteCause (K.faults sink.old) (K.faults sink.new) result }
{
    match make {
        Some(n) => write_made_calls(alloc, sink, n, seed, calls),
        None => write_given_calls(alloc, sink, calls),
    }
}

/// Writes the lines of a replay behind those of its events: those of each call, in the order in which they were given, a range's rows behind its own,
/// or of made calls their number and seed, and how many were answered in which way; then, where every call has ended, the
/// map where it is asked for and the last line, and else the line of a run that was given up. Conditions: at most 1,000,000
/// calls, and at most 2^32 keys in the map.
#[tactic(auto, unfolding(crate::specs::Output::lines_behind))]
pub fn write_lines<K: Sink>(
    alloc: Global,
    sink: &mut K,
    order: &Order,
    calls: &Calls,
    rows: &[Row],
) -> Result<(), WriteError>
    requires calls { length calls.now.calls ≤ 1000000 }
    requires rows { length rows.now ≤ 4294967296 }
    ensures ok { OnOk result (Appends (K.held sink.old) (K.held sink.new) (lines_behind (asked_of order.now) calls.now.calls rows.now)) }
    ensures err { OnErr result (AppendsFront (K.held sink.old) (K.held sink.new) (lines_behind (asked_of order.now) calls.now.calls rows.now)) }
    ensures cause { HasWriteCause (K.faults sink.old) (K.faults sink.new) result }
{
    match write_calls_lines(alloc, sink, order.make, order.seed, calls) {
        Ok(()) => write_last_lines(alloc, sink, order.map, calls, rows),
        Err(error) => Err(error),
    }
}
