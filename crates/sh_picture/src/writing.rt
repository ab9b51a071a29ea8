// The lines of a verdict, written.
ghost use Rattle.std.specs.{Prelude.{◌≡◌, ◌≤◌, ◌^◌, ◌++◌, length, OnOk, OnErr}, Io.KnownBytes.{Appends}};
ghost use Rattle.sh_port.specs.Port.{AppendsFront};
ghost use Rattle.sh_text.specs.{Text.{map_lines, sum_of}, Write.{HasWriteCause}};
ghost use Rattle.sh_picture.specs.Text.{lawful_line, place_line, verdict_text};

use crate::lines::{lawful_line, place_line};
use crate::{FirstPlace, Verdict};
use sh_map::Row;
use sh_port::{Sink, write_all};
use sh_text::{WriteError, sum_of, write_map_lines};
use std::alloc::Global;

// Writes the line of a place.
#[tactic(auto, using(crate::proofs::TopLemmas::place_unwritten))]
fn write_place<K: Sink>(alloc: Global, sink: &mut K, place: &FirstPlace) -> Result<(), WriteError>
    ensures ok { OnOk result (Appends (K.held sink.old) (K.held sink.new) (place_line place.now)) }
    ensures err { OnErr result (AppendsFront (K.held sink.old) (K.held sink.new) (place_line place.now)) }
    ensures cause { HasWriteCause (K.faults sink.old) (K.faults sink.new) result }
{
    let Ok(text) = place_line(alloc, place) else {
        return Err(WriteError::NoMemory);
    };
    match write_all(sink, text.as_bytes()) {
        Ok(()) => Ok(()),
        Err(_) => Err(WriteError::Fault),
    }
}

// Writes the line of a lawful picture.
#[tactic(auto, unfolding(crate::specs::Text::lawful_line))]
fn write_total<K: Sink>(
    alloc: Global,
    sink: &mut K,
    keys: u64,
    total: u128,
) -> Result<(), WriteError>
    ensures ok { OnOk result (Appends (K.held sink.old) (K.held sink.new) (lawful_line keys total)) }
    ensures err { OnErr result (AppendsFront (K.held sink.old) (K.held sink.new) (lawful_line keys total)) }
    ensures cause { HasWriteCause (K.faults sink.old) (K.faults sink.new) result }
{
    let Ok(text) = lawful_line(alloc, keys, total) else {
        return Err(WriteError::NoMemory);
    };
    match write_all(sink, text.as_bytes()) {
        Ok(()) => Ok(()),
        Err(_) => Err(WriteError::Fault),
    }
}

// Writes the lines of a lawful picture.
pub(crate) fn write_lawful<K: Sink>(
    alloc: Global,
    sink: &mut K,
    asked: bool,
    rows: &[Row],
) -> Result<(), WriteError>
    requires { length rows.now ≤ 2 ^ 57 }
    ensures ok { OnOk result (Appends (K.held sink.old) (K.held sink.new) (map_lines asked rows.now ++ lawful_line (length rows.now) (sum_of rows.now))) }
    ensures err { OnErr result (AppendsFront (K.held sink.old) (K.held sink.new) (map_lines asked rows.now ++ lawful_line (length rows.now) (sum_of rows.now))) }
    ensures cause { HasWriteCause (K.faults sink.old) (K.faults sink.new) result }
{
    match write_map_lines(alloc, sink, asked, rows) {
        Ok(()) => write_total(alloc, sink, rows.len() as u64, sum_of(rows)),
        Err(error) => Err(error),
    }
}

// Writes the lines of a verdict.
pub(crate) fn write_verdict<K: Sink>(
    alloc: Global,
    sink: &mut K,
    asked: bool,
    verdict: &Verdict,
) -> Result<(), WriteError>
    ensures ok { OnOk result (Appends (K.held sink.old) (K.held sink.new) (verdict_text asked verdict.now)) }
    ensures err { OnErr result (AppendsFront (K.held sink.old) (K.held sink.new) (verdict_text asked verdict.now)) }
    ensures cause { HasWriteCause (K.faults sink.old) (K.faults sink.new) result }
{
    match verdict {
        Verdict::Lawful { pairs, .. } => write_lawful(alloc, sink, asked, pairs.as_slice()),
        Verdict::Refused(place) => write_place(alloc, sink, place),
    }
}
