// From the bytes in to the picture or the line out.
ghost use Rattle.std.specs.{Prelude.{◌≡◌, ◌≤◌, ◌^◌, IfOk, IsErrOf, OnOk, OnErr, length, map, string_bytes}, Io.KnownBytes.{Appends}};
ghost use Rattle.sh_base.specs.{Parts.{parts_of}, Setting.{pool_words}};
ghost use Rattle.sh_port.specs.Port.{AppendsFront};
ghost use Rattle.sh_text.specs.Write.{HasWriteCause};
ghost use Rattle.sh_bulk.specs.{Shape.{need_of}, Words.{bulk_words}, Order.{asked_of, order_of}, Top.{built_line, built_text, unbuilt, unread, unwritten, Built, Headline}};

use crate::building::build_good;
use crate::gather::{RowsFault, gather_rows};
use crate::order::read_order;
use crate::shape::shape_of;
use crate::{BulkFault, BulkOrder, BulkStatus, Hold};
use sh_base::Config;
use sh_map::Row;
use sh_options::WordFault;
use sh_picture::paint;
use sh_port::{Intake, Sink, Source, read_all, write_all};
use sh_sheet::Status;
use sh_text::WriteError;
use std::alloc::{AllocError, Global};
use std::fmt::Write;
use std::thread::Threads;

/// The most rows of a building.
pub const MOST_BULK_ROWS: usize = 1_000_000;

// The line of what was built.
#[tactic(auto, unfolding(crate::specs::Top::built_line))]
fn built_line(alloc: Global, need: u64, rows: u64) -> Result<String, AllocError>
    ensures { IfOk result (λ s. string_bytes s ≡ built_line need rows) }
{
    let mut text = String::new(alloc);
    write!(text, "built,")?;
    write!(text, "{need},")?;
    write!(text, "{rows}\n")?;
    Ok(text)
}

// Writes the line of what was built.
#[tactic(auto, unfolding(crate::specs::Top::built_line))]
fn write_line<K: Sink>(
    alloc: Global,
    cfg: &Config,
    rows: usize,
    sink: &mut K,
) -> Result<(), WriteError>
    requires { rows ≤ 2 ^ 57 }
    ensures ok { OnOk result (Appends (K.held sink.old) (K.held sink.new) (built_line (need_of (parts_of cfg.now) rows) rows)) }
    ensures err { OnErr result (AppendsFront (K.held sink.old) (K.held sink.new) (built_line (need_of (parts_of cfg.now) rows) rows)) }
    ensures none { IsErrOf result WriteError.NoMemory → K.held sink.new ≡ K.held sink.old }
    ensures cause { HasWriteCause (K.faults sink.old) (K.faults sink.new) result }
{
    let need = shape_of(cfg, rows).need as u64;
    let Ok(text) = built_line(alloc, need, rows as u64) else {
        return Err(WriteError::NoMemory);
    };
    match write_all(sink, text.as_bytes()) {
        Ok(()) => Ok(()),
        Err(_) => Err(WriteError::Fault),
    }
}

// Writes what was built: the picture, which takes no memory, or the line.
fn write_built<K: Sink>(
    alloc: Global,
    order: &BulkOrder,
    rows: &[Row],
    words: &[u64],
    sink: &mut K,
) -> Result<(), WriteError>
    requires few { length rows.now ≤ 2 ^ 57 }
    requires words { words.now ≡ bulk_words (parts_of order.now.cfg) rows.now }
    requires long { length words.now ≡ pool_words (parts_of order.now.cfg) }
    ensures ok { OnOk result (Appends (K.held sink.old) (K.held sink.new) (built_text (asked_of order.now) rows.now)) }
    ensures err { OnErr result (AppendsFront (K.held sink.old) (K.held sink.new) (built_text (asked_of order.now) rows.now)) }
    ensures none { IsErrOf result WriteError.NoMemory → K.held sink.new ≡ K.held sink.old }
    ensures cause { HasWriteCause (K.faults sink.old) (K.faults sink.new) result }
{
    if order.picture {
        match paint(&order.cfg, words, sink) {
            Ok(()) => Ok(()),
            Err(_) => Err(WriteError::Fault),
        }
    } else {
        write_line(alloc, &order.cfg, rows.len(), sink)
    }
}

// The status of a sheet that gives no rows.
fn unread(fault: RowsFault) -> BulkStatus
    ensures { result ≡ unread fault }
{
    match fault {
        RowsFault::Row { row, cause } => BulkStatus::Served(Status::BadRow { row, cause }),
        RowsFault::NotRising { row } => BulkStatus::NotRising { row },
        RowsFault::NoMemory => BulkStatus::Served(Status::NoMemory),
    }
}

// The status of rows that give no pool.
fn unbuilt(fault: BulkFault) -> BulkStatus
    ensures { result ≡ unbuilt fault }
{
    match fault {
        BulkFault::NoRoom { need, nodes } => BulkStatus::NoRoom { need, nodes },
        _ => BulkStatus::Served(Status::NoMemory),
    }
}

// The status of a pool that wasn't written whole.
fn unwritten(error: WriteError) -> BulkStatus
    ensures { result ≡ unwritten error }
{
    match error {
        WriteError::Fault => BulkStatus::Served(Status::WriteFault),
        WriteError::NoMemory => BulkStatus::Served(Status::NoMemory),
    }
}

// Builds the pool of the source's rows, and writes it.
fn build_input<R: Threads + Sync, S: Source, K: Sink, H: Hold + Sync>(
    rt: &R,
    alloc: Global,
    order: &BulkOrder,
    source: &mut S,
    sink: &mut K,
    hold: &H,
) -> BulkStatus
    requires { 1 ≤ order.now.workers }
    ensures { Built (asked_of order.now) (S.left source.old) (S.left source.new) (S.faults source.old) (S.faults source.new) (K.held sink.old) (K.held sink.new) (K.faults sink.old) (K.faults sink.new) result }
{
    let bytes = match read_all(alloc, source) {
        Ok(bytes) => bytes,
        Err(Intake::Fault) => return BulkStatus::Served(Status::ReadFault),
        Err(Intake::TooLong) => return BulkStatus::Served(Status::TooLong),
        Err(Intake::NoMemory) => return BulkStatus::Served(Status::NoMemory),
    };
    let rows = match gather_rows(alloc, &bytes, &order.cfg) {
        Ok(rows) => rows,
        Err(fault) => return unread(fault),
    };
    if rows.len() > MOST_BULK_ROWS {
        return BulkStatus::Served(Status::TooMany);
    }
    let words = match build_good(rt, alloc, &order.cfg, &rows, order.workers, hold) {
        Ok(words) => words,
        Err(fault) => return unbuilt(fault),
    };
    match write_built(alloc, order, &rows, &words, sink) {
        Ok(()) => BulkStatus::Served(Status::Ok),
        Err(error) => unwritten(error),
    }
}

/// Builds a pool of the rows that the source holds: reads it to its end, and writes to the sink, where the words ask for it
/// by `--picture`, the picture of the pool that `build` makes of the rows, and else one line with the number of its nodes and
/// of its rows. The words are those of a setting, `--workers n` (1 to 64, by default 4) and `--picture`; the number of workers
/// changes nothing of what is written.
///
/// In this order: `Usage` comes exactly where the words are refused; then nothing is read. `ReadFault` comes only where the
/// source's count of faults rose, `TooLong` exactly where 16,777,217 bytes were taken. `BadRow` and `NotRising` come exactly at
/// the first row that fails, by the first test that it fails: two fields, numbers, a key, and last that the key is above the
/// one before. `TooMany` comes exactly where all rows are good and there are more than [`MOST_BULK_ROWS`], and `NoRoom`
/// exactly where they aren't too many and the tree needs more nodes than the pool has. `Ok` comes where all was written;
/// `WriteFault` only where the sink's count rose, and a front was written. `NoMemory` is free. With every status but `Ok` and
/// `WriteFault` nothing is written.
pub fn bulk_top<R: Threads + Sync, S: Source, K: Sink, H: Hold + Sync>(
    rt: &R,
    alloc: Global,
    words: &[&str],
    source: &mut S,
    sink: &mut K,
    hold: &H,
) -> BulkStatus
    ensures { Headline (order_of (map (λ w. w.now) words.now)) (S.left source.old) (S.left source.new) (S.faults source.old) (S.faults source.new) (K.held sink.old) (K.held sink.new) (K.faults sink.old) (K.faults sink.new) result }
{
    match read_order(alloc, words) {
        Ok(order) => build_input(rt, alloc, &order, source, sink, hold),
        Err(WordFault::Usage) => BulkStatus::Served(Status::Usage),
        Err(WordFault::NoMemory) => BulkStatus::Served(Status::NoMemory),
    }
}
