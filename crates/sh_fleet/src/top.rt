// From the bytes in to the bytes out.
ghost use Rattle.std.specs.{Prelude.{◌≡◌, map, All, IfOk, MatchResult}};
ghost use Rattle.sh_base.specs.Parts.{parts_of};
ghost use Rattle.sh_sheet.specs.Sheet.{IsLawfulItem};
ghost use Rattle.sh_options.specs.Order.{asked_of};
ghost use Rattle.sh_pool.specs.Pools.{IsBlankPool};
ghost use Rattle.sh_fleet.specs.Headline.{accepted, unwritten, AreRead, HasNoItems, Headline, Ran};

use crate::output::write_lines;
use crate::serve::serve;
use sh_options::{Order, WordFault, read_words};
use sh_pool::Pool;
use sh_port::{Intake, Sink, Source, read_all};
use sh_sheet::{Gate, Mode, Sheet, SheetFault, Status, read_sheet};
use sh_text::WriteError;
use std::alloc::Global;
use std::sync::Wait;
use std::thread::Threads;

// The status of a run whose lines weren't all written.
fn unwritten(error: WriteError) -> Status
    ensures { result ≡ unwritten error }
{
    match error {
        WriteError::Fault => Status::WriteFault,
        WriteError::NoMemory => Status::NoMemory,
    }
}

// The sheet that the source's bytes say.
fn read_items<S: Source>(alloc: Global, order: &Order, source: &mut S) -> Result<Sheet, Status>
    ensures are { MatchResult result (λ s. AreRead (parts_of order.now.cfg) (S.left source.old) (S.left source.new) (S.faults source.old) (S.faults source.new) s.items) (HasNoItems (parts_of order.now.cfg) (S.left source.old) (S.left source.new) (S.faults source.old) (S.faults source.new)) }
    ensures lawful { IfOk result (λ s. All (IsLawfulItem (parts_of order.now.cfg)) s.items) }
{
    let bytes = match read_all(alloc, source) {
        Ok(bytes) => bytes,
        Err(Intake::Fault) => return Err(Status::ReadFault),
        Err(Intake::TooLong) => return Err(Status::TooLong),
        Err(Intake::NoMemory) => return Err(Status::NoMemory),
    };
    match read_sheet(alloc, &bytes, Mode::Run, &order.cfg) {
        Ok(sheet) => Ok(sheet),
        Err(SheetFault::Row { row, cause }) => Err(Status::BadRow { row, cause }),
        Err(SheetFault::TooMany) => Err(Status::TooMany),
        Err(SheetFault::NoMemory) => Err(Status::NoMemory),
    }
}

// Runs the order: serves its sheet and writes the lines.
fn run<R: Threads + Wait + Sync, S: Source, K: Sink, G: Gate + Sync>(
    rt: &R,
    alloc: Global,
    order: &Order,
    pool: &mut Pool,
    source: &mut S,
    sink: &mut K,
    gate: &G,
) -> Status
    requires { IsBlankPool pool.old }
    ensures { Ran (asked_of order.now) pool.old pool.new (S.left source.old) (S.left source.new) (S.faults source.old) (S.faults source.new) (K.held sink.old) (K.held sink.new) (K.faults sink.old) (K.faults sink.new) result }
{
    let sheet = match read_items(alloc, order, source) {
        Ok(sheet) => sheet,
        Err(status) => return status,
    };
    let Ok((answers, rows)) = serve(rt, alloc, &order.cfg, pool, sheet.as_slice(), gate) else {
        return Status::NoMemory;
    };
    match write_lines(
        alloc,
        sink,
        order.map,
        sheet.as_slice(),
        &answers,
        rows.as_slice(),
    ) {
        Ok(()) => Status::Ok,
        Err(error) => unwritten(error),
    }
}

/// Runs a sheet as the words ask for it: reads it from the source; lays a pool; serves each seat that has items in a thread
/// of its own, in the sheet's order; gathers the pool; and writes a line for each call to the sink, in the sheet's order,
/// then the map where it is asked for, and a last line with the number of calls, the keys that the pool's words hold, and
/// the sum of their values. A seat waits at an `after` until its mark has been passed, and learns what had been seen there. A
/// seat whose thread can't be made is run by the caller. All memory of the seats' work is taken
/// before the first thread starts. The gate is told of each call before it begins and when it has ended. Condition: the pool
/// is blank. It may wait; what is said holds if it returns.
///
/// `Usage` comes exactly where the words are refused; then nothing is read. `ReadFault` comes only where the source's count
/// of faults rose, `TooLong` exactly where 16,777,217 bytes were taken, `BadRow` exactly where a row is refused, with the
/// first such row and its cause, and `TooMany` exactly where the rows ask for too many calls or rows of ranges. Up to there
/// nothing is written and the pool is blank. `WriteFault` comes only where the sink's count rose; what was written is a front
/// of the output, and the pool is gathered. `NoMemory` is free: nothing was written, and the pool is blank, laid or gathered;
/// or it is gathered and a front of the output was written.
pub fn run_top<R: Threads + Wait + Sync, S: Source, K: Sink, G: Gate + Sync>(
    rt: &R,
    alloc: Global,
    words: &[&str],
    pool: &mut Pool,
    source: &mut S,
    sink: &mut K,
    gate: &G,
) -> Status
    requires { IsBlankPool pool.old }
    ensures { Headline (accepted (map (λ w. w.now) words.now)) pool.old pool.new (S.left source.old) (S.left source.new) (S.faults source.old) (S.faults source.new) (K.held sink.old) (K.held sink.new) (K.faults sink.old) (K.faults sink.new) result }
{
    match read_words(alloc, words, Mode::Run) {
        Ok(order) => run(rt, alloc, &order, pool, source, sink, gate),
        Err(WordFault::Usage) => Status::Usage,
        Err(WordFault::NoMemory) => Status::NoMemory,
    }
}
