// Whole runs, from the words and bytes in to the bytes out.
use super::*;
use sh_port::{ListSink, ListSource};
use sh_sheet::{RowCause, Status};
use std::alloc::{AllocError, Global};
use std::marker::Sync;
use std::sync::Wait;
use std::test::Fail;
use std::thread::Threads;

const SHEET: &str = "put,0,5,50\nget,0,5,\nrange,0,1,9\nput,5,70,7\n";

const LINES: &str =
    "1,0,put,5,50,none,\n2,0,get,5,,some,50\n3,0,range,1,9,rows,9\nrow,3,5,50\n4,5,put,70,7,none,\nmap,5,50\nmap,70,7\nend,4,2,57\n";

// How a run ended, and what it wrote.
#[derive(Debug, Drop)]
struct Ended {
    status: Status,
    written: Vec<u8>,
    words: usize,
}

// A run of these words and bytes. Reads and writes move pieces of so many bytes, and the calls with these numbers fail; a
// number of 0 fails none.
fn run_in_pieces<R: Threads + Wait + Sync>(
    rt: &R,
    alloc: Global,
    words: &[&str],
    input: &str,
    piece: usize,
    failing_read: u64,
    failing_write: u64,
) -> Result<Ended, AllocError> {
    let piece = piece.max(1);
    let input = input.as_bytes().to_vec(alloc)?;
    let mut source = ListSource::new(input, piece, vec![in alloc; failing_read]?);
    let mut sink = ListSink::new(alloc, 1_048_576, piece, vec![in alloc; failing_write]?)?;
    let mut pool = Pool::blank(alloc);
    let status = run_top(rt, alloc, words, &mut pool, &mut source, &mut sink, &Free);
    let written = sink.bytes().to_vec(alloc)?;
    let words = pool.words().len();
    Ok(Ended {
        status,
        written,
        words,
    })
}

// Whether such a run is refused with this status, with nothing written and nothing laid.
fn refuses<R: Threads + Wait + Sync>(
    rt: &R,
    alloc: Global,
    words: &[&str],
    input: &str,
    status: Status,
) -> Result<bool, AllocError> {
    let ended = run_in_pieces(rt, alloc, words, input, 4096, 0, 0)?;
    Ok(ended.status == status && ended.written.is_empty() && ended.words == 0)
}

fn bad(row: u64, cause: RowCause) -> Status {
    Status::BadRow { row, cause }
}

#[test]
fn words_and_rows_that_are_refused(rt: HostRuntime) -> Result<(), Fail> {
    let alloc = rt.alloc();
    let none: &[&str] = &[];
    assert!(rt; refuses(&rt, alloc, &["--seed", "3"], SHEET, Status::Usage)?);
    assert!(rt; refuses(&rt, alloc, none, "turn,0,1,", bad(1, RowCause::TurnNotHere))?);
    assert!(rt;
        refuses(
            &rt,
            alloc,
            none,
            "put,0,5,50\nput,0,6",
            bad(2, RowCause::FieldCount)
        )?
    );
    assert!(rt;
        refuses(
            &rt,
            alloc,
            none,
            "mark,0,1,\nafter,0,2,",
            bad(2, RowCause::BadMark)
        )?
    );
    Ok(())
}

#[test]
fn a_source_that_fails_at_each_read(rt: HostRuntime) -> Result<(), Fail> {
    let alloc = rt.alloc();
    for call in 1..4 {
        let ended = run_in_pieces(&rt, alloc, &["--map"], SHEET, 20, call, 0)?;
        assert!(rt; ended.status == Status::ReadFault && ended.written.is_empty());
    }
    Ok(())
}

#[test]
fn a_run_without_calls(rt: HostRuntime) -> Result<(), Fail> {
    let ended = run_in_pieces(&rt, rt.alloc(), &["--map"], "", 4096, 0, 0)?;
    assert!(rt;
        ended.status == Status::Ok && ended.written.as_slice() == b"end,0,0,0\n".as_slice()
    );
    Ok(())
}

#[test]
fn lines_in_the_sheets_order(rt: HostRuntime) -> Result<(), Fail> {
    let ended = run_in_pieces(&rt, rt.alloc(), &["--map"], SHEET, 3, 0, 0)?;
    assert!(rt; ended.status == Status::Ok && ended.written.as_slice() == LINES.as_bytes());
    Ok(())
}

#[test]
fn a_sink_that_fails_at_each_write(rt: HostRuntime) -> Result<(), Fail> {
    let alloc = rt.alloc();
    for call in 1..9 {
        let ended = run_in_pieces(&rt, alloc, &["--map"], SHEET, 4096, 0, call)?;
        let front = LINES.as_bytes().starts_with(ended.written.as_slice());
        assert!(rt; ended.status == Status::WriteFault && front && ended.words > 0);
    }
    Ok(())
}

#[test]
fn a_call_behind_an_after_sees_what_came_before_its_mark(rt: HostRuntime) -> Result<(), Fail> {
    let sheet = "put,0,5,50\nmark,0,1,\nafter,1,1,\nget,1,5,\n";
    let lines = "1,0,put,5,50,none,\n2,1,get,5,,some,50\nend,2,1,50\n";
    let ended = run_in_pieces(&rt, rt.alloc(), &[], sheet, 4096, 0, 0)?;
    assert!(rt; ended.status == Status::Ok && ended.written.as_slice() == lines.as_bytes());
    Ok(())
}

#[test]
fn seats_that_wait_for_one_mark_and_pass_it_on(rt: HostRuntime) -> Result<(), Fail> {
    let sheet =
        "put,7,5,50\nmark,7,1,\nafter,0,1,\nget,0,5,\nafter,1,1,\nput,1,6,60\nmark,1,2,\nafter,2,2,\nget,2,5,\nget,2,6,\n";
    let lines =
        "1,7,put,5,50,none,\n2,0,get,5,,some,50\n3,1,put,6,60,none,\n4,2,get,5,,some,50\n5,2,get,6,,some,60\nend,5,2,110\n";
    let ended = run_in_pieces(&rt, rt.alloc(), &[], sheet, 4096, 0, 0)?;
    assert!(rt; ended.status == Status::Ok && ended.written.as_slice() == lines.as_bytes());
    Ok(())
}
