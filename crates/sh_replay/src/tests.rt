// Whole replays, from the words and bytes in to the bytes out.
use super::*;
use sh_base::{Config, ConfigParts};
use sh_map::judge;
use sh_options::Order;
use sh_port::{ListSink, ListSource, SureSink, SureSource};
use sh_sheet::{Mode, RowCause, Status, read_sheet};
use sh_tree::unposted;
use std::alloc::{AllocError, Global};
use std::fmt::Write;
use std::test::Fail;

const SHEET: &str = "put,0,5,50\nget,0,5,\ndel,0,5,\nget,0,5,\n";

const LINES: &str =
    "1,0,put,5,50,none,,0\n2,0,get,5,,some,50,1\n3,0,del,5,,some,50,1\n4,0,get,5,,none,,2\nend,4,0,0\n";

// How a replay ended, what it wrote, and its world.
#[derive(Debug, Drop)]
struct Ended {
    status: Status,
    written: Vec<u8>,
    world: World,
}

// A replay of these words and bytes. Reads and writes move pieces of so many bytes, and the calls with these numbers
// fail; a number of 0 fails none.
fn replay_in_pieces(
    alloc: Global,
    words: &[&str],
    input: Vec<u8>,
    piece: usize,
    failing_read: u64,
    failing_write: u64,
) -> Result<Ended, AllocError> {
    let piece = piece.max(1);
    let mut source = ListSource::new(input, piece, vec![in alloc; failing_read]?);
    let mut sink = ListSink::new(alloc, 1_048_576, piece, vec![in alloc; failing_write]?)?;
    let mut world = World::blank(alloc);
    let status = replay_top(alloc, words, &mut world, &mut source, &mut sink);
    let written = sink.bytes().to_vec(alloc)?;
    Ok(Ended {
        status,
        written,
        world,
    })
}

// The same in one piece, and nothing fails.
fn replay(alloc: Global, words: &[&str], input: &str) -> Result<Ended, AllocError> {
    replay_in_pieces(alloc, words, input.as_bytes().to_vec(alloc)?, 4096, 0, 0)
}

// Whether the replay was refused with this status and left nothing.
fn left_nothing(ended: &Ended, status: Status) -> bool {
    let world = &ended.world;
    let blank = world.words().is_empty() && world.log().is_empty() && world.calls().len() == 0;
    ended.status == status && ended.written.is_empty() && blank
}

fn refuses(alloc: Global, words: &[&str], input: &str, status: Status) -> Result<bool, AllocError> {
    Ok(left_nothing(&replay(alloc, words, input)?, status))
}

// Whether the replay came to its end with a lawful book.
fn is_lawful(alloc: Global, ended: &Ended) -> Result<bool, AllocError> {
    let book = ended.world.book(alloc)?;
    let lawful = judge(alloc, &book.log, &book.dones)?.is_none();
    Ok(ended.status == Status::Ok && lawful)
}

// Whether it wrote this output, too.
fn has_answered(alloc: Global, ended: &Ended, output: &str) -> Result<bool, AllocError> {
    Ok(ended.written.as_slice() == output.as_bytes() && is_lawful(alloc, ended)?)
}

fn answers(alloc: Global, words: &[&str], input: &str, output: &str) -> Result<bool, AllocError> {
    has_answered(alloc, &replay(alloc, words, input)?, output)
}

#[test]
fn sheets_are_answered_line_by_line(rt: HostRuntime) -> Result<(), Fail> {
    let alloc = rt.alloc();
    for (input, output) in [
        (SHEET, LINES),
        ("", "end,0,0,0\n"),
        (
            "put,0,5,50\nput,0,5,51\n",
            "1,0,put,5,50,none,,0\n2,0,put,5,51,some,50,1\nend,2,1,51\n",
        ),
        (
            "op,seat,a,b\r\nput,0,1,7\r\nput,0,18446744073709551614,8\r\nget,0,1,\r\nget,0,18446744073709551614,",
            "1,0,put,1,7,none,,0\n2,0,put,18446744073709551614,8,none,,1\n3,0,get,1,,some,7,2\n4,0,get,18446744073709551614,,some,8,2\nend,4,2,15\n",
        ),
        // turns of an idle seat are left out
        ("turn,0,50000000,\n", "end,0,0,0\n"),
        (
            "put,0,5,50\nturn,0,49999999,\nturn,7,1,\n",
            "1,0,put,5,50,none,,0\nend,1,1,50\n",
        ),
    ] {
        assert!(rt; answers(alloc, &[], input, output)?, "{input}");
    }
    Ok(())
}

#[test]
fn words_set_the_values_and_the_map(rt: HostRuntime) -> Result<(), Fail> {
    let alloc = rt.alloc();
    for (words, input, output) in [
        (
            ["--value-words", "2", "--map"].as_slice(),
            "put,0,5,50:7\nget,0,5,\nput,0,4,1:2\n",
            "1,0,put,5,50:7,none,,0\n2,0,get,5,,some,50:7,1\n3,0,put,4,1:2,none,,1\nmap,4,1:2\nmap,5,50:7\nend,3,2,60\n",
        ),
        (
            &["--value-words=2"],
            "put,0,5,50:7\nget,0,5,\n",
            "1,0,put,5,50:7,none,,0\n2,0,get,5,,some,50:7,1\nend,2,1,57\n",
        ),
        (
            &["--value-words=8", "--leaf=4"],
            "put,0,5,10:2:3:4:5:6:7:18446744073709551615\nget,0,5,\nput,0,5,18446744073709551615:2:3:4:5:6:7:18446744073709551615\ndel,0,5,\nget,0,5,\n",
            "1,0,put,5,10:2:3:4:5:6:7:18446744073709551615,none,,0\n2,0,get,5,,some,10:2:3:4:5:6:7:18446744073709551615,1\n3,0,put,5,18446744073709551615:2:3:4:5:6:7:18446744073709551615,some,10:2:3:4:5:6:7:18446744073709551615,1\n4,0,del,5,,some,18446744073709551615:2:3:4:5:6:7:18446744073709551615,2\n5,0,get,5,,none,,3\nend,5,0,0\n",
        ),
    ] {
        assert!(rt; answers(alloc, words, input, output)?, "{input}");
    }
    Ok(())
}

#[test]
fn refused_words_leave_nothing(rt: HostRuntime) -> Result<(), Fail> {
    for words in [
        ["--leaf", "3"].as_slice(),
        &["--leaf", "4", "--leaf", "4"],
        &["--"],
        &["--seed", "3"],
        &["--bits", "+8"],
        &["--pages", "3"],
        &["--value-words", "9"],
        &["-h"],
        &[""],
        &["--map=1"],
        &["--events=1"],
        &["--events", "--events"],
        &["--make", "0"],
        &["--make", "1000001"],
        &["--make=1", "--seed"],
        &["--make=1", "--make=1"],
        &["--chunks", "4096", "--leaf", "64"],
    ] {
        assert!(rt; refuses(rt.alloc(), words, SHEET, Status::Usage)?);
    }
    Ok(())
}

#[test]
fn seats_wait_for_marks(rt: HostRuntime) -> Result<(), Fail> {
    let alloc = rt.alloc();
    for (name, input, output) in [
        (
            "a get waits for another seat's put",
            "put,0,5,50\nmark,0,1,\nafter,1,1,\nget,1,5,\n",
            "1,0,put,5,50,none,,0\n2,1,get,5,,some,50,1\nend,2,1,50\n",
        ),
        (
            "turns of a seat that is held back are left out",
            "put,0,5,50\nmark,0,1,\nafter,1,1,\nget,1,5,\nturn,1,50000000,\n",
            "1,0,put,5,50,none,,0\n2,1,get,5,,some,50,1\nend,2,1,50\n",
        ),
        (
            "three seats wait in a circle, in a lawful order",
            "put,0,5,50\nmark,0,1,\nafter,1,1,\nput,1,5,51\nmark,1,2,\nafter,2,2,\nget,2,5,\nmark,2,3,\nafter,0,3,\nput,0,5,52\n",
            "1,0,put,5,50,none,,0\n2,1,put,5,51,some,50,1\n3,2,get,5,,some,51,2\n4,0,put,5,52,some,51,2\nend,4,1,52\n",
        ),
        (
            "a mark behind an after is passed with no turn of its seat",
            "put,0,5,50\nmark,0,1,\nafter,1,1,\nmark,1,2,\nafter,2,2,\nget,2,5,\nput,1,5,60\nturn,0,1000,\nturn,2,1000,\nturn,1,1000,\n",
            "1,0,put,5,50,none,,0\n2,2,get,5,,some,50,1\n3,1,put,5,60,some,50,1\nend,3,1,60\n",
        ),
        (
            "a mark behind an after isn't passed before the after's mark",
            "put,0,5,50\nmark,0,1,\nafter,1,1,\nmark,1,2,\nafter,2,2,\nget,2,5,\nturn,2,1000,\nturn,1,1000,\n",
            "1,0,put,5,50,none,,0\n2,2,get,5,,some,50,1\nend,2,1,50\n",
        ),
        (
            "a seat's calls before its after go on",
            "put,1,6,60\nget,0,6,\nmark,0,1,\nafter,1,1,\nput,1,6,61\nturn,1,1000,\nturn,0,1000,\n",
            "1,1,put,6,60,none,,0\n2,0,get,6,,some,60,1\n3,1,put,6,61,some,60,1\nend,3,1,61\n",
        ),
        (
            "an after behind the last call holds nothing back",
            "put,0,5,50\nmark,0,1,\nafter,1,1,\n",
            "1,0,put,5,50,none,,0\nend,1,1,50\n",
        ),
    ] {
        assert!(rt; answers(alloc, &SMALL, input, output)?, "{name}");
    }
    Ok(())
}

// The sheet that stands in the input is never read.
// The words of a small setting that tell its events.
const TELLING: [&str; 15] = [
    "--servers",
    "1",
    "--chunks",
    "4",
    "--chunk-nodes",
    "8",
    "--leaf",
    "4",
    "--computes",
    "1",
    "--seats",
    "3",
    "--cached",
    "0",
    "--events",
];

// A get's events over a fresh pool, and its lines.
const TOLD: &str =
    "event,0,load,1,1\nevent,0,load,89,0\nevent,0,load,88,0\nevent,0,load,87,0\nevent,0,load,86,0\n\
event,0,load,85,0\nevent,0,load,84,0\nevent,0,load,83,0\nevent,0,load,82,0\nevent,0,load,81,0\nevent,0,load,80,0\n\
event,0,load,79,0\nevent,0,load,78,0\nevent,0,load,77,0\nevent,0,load,76,0\nevent,0,load,75,0\nevent,0,load,74,0\n\
event,0,load,73,0\nevent,0,load,72,0\nevent,0,load,71,0\nevent,0,load,70,18446744073709551615\nevent,0,load,69,0\n\
event,0,load,68,0\nevent,0,load,67,0\n1,0,get,5,,none,,0\nend,1,0,0\n";

#[test]
fn events_are_told(rt: HostRuntime) -> Result<(), Fail> {
    let alloc = rt.alloc();
    assert!(rt; answers(alloc, &TELLING, "get,0,5,\n", TOLD)?);
    Ok(())
}

// Whether a run whose write of this number fails is told so, and leaves a front of what is written where none fails. Behind
// the last event's line its call has ended.
fn stops_at(alloc: Global, write: u64) -> Result<bool, AllocError> {
    let input = b"get,0,5,\n".to_vec(alloc)?;
    let ended = replay_in_pieces(alloc, &TELLING, input, 4096, 0, write)?;
    let front = TOLD.as_bytes().starts_with(ended.written.as_slice());
    let over = turns::have_ended(ended.world.calls());
    Ok(ended.status == Status::WriteFault && front && over == (write >= 24))
}

#[test]
fn a_run_stops_at_the_line_of_an_event(rt: HostRuntime) -> Result<(), Fail> {
    for write in 0..26 {
        assert!(rt; stops_at(rt.alloc(), write + 1)?);
    }
    Ok(())
}

#[test]
fn made_calls_are_counted(rt: HostRuntime) -> Result<(), Fail> {
    let alloc = rt.alloc();
    for (words, output) in [
        (
            ["--make", "1", "--seed", "7"].as_slice(),
            "made,1,7\ncounts,0,1,0,0,0,0\nend,1,1,1\n",
        ),
        (
            &[
                "--make=5",
                "--seed=8",
                "--computes=1",
                "--seats=2",
                "--value-words=2",
                "--map",
            ],
            "made,5,8\ncounts,1,3,1,0,0,0\nmap,3,4:5\nend,5,1,9\n",
        ),
    ] {
        assert!(rt; answers(alloc, words, "push,0,5,5\n", output)?, "{output}");
    }
    Ok(())
}

// Whether the line of counts, which is the second, tells of no full and no worn.
fn refused_none(written: &[u8]) -> bool {
    let Some(first) = written.iter().position(|byte| *byte == b'\n') else {
        return false;
    };
    let rest = &written[first + 1..];
    let Some(second) = rest.iter().position(|byte| *byte == b'\n') else {
        return false;
    };
    rest[..second].ends_with(b",0,0")
}

#[test]
fn made_calls_end_alike_at_each_run(rt: HostRuntime) -> Result<(), Fail> {
    let alloc = rt.alloc();
    let words = ["--make=1500", "--seed=7", "--chunks=64"];
    let first = replay(alloc, &words, "")?;
    assert!(rt; is_lawful(alloc, &first)? && refused_none(&first.written));
    let second = replay(alloc, &words, "")?;
    assert!(rt; second.written.as_slice() == first.written.as_slice());
    Ok(())
}

#[test]
fn refused_rows_leave_nothing(rt: HostRuntime) -> Result<(), Fail> {
    for (input, row, cause) in [
        ("put,0,5,50\nput,0,6", 2, RowCause::FieldCount),
        ("push,0,5,5\n", 1, RowCause::BadOp),
        ("put,0,5,-1\n", 1, RowCause::BadNumber),
        ("put,0,5,50:51\n", 1, RowCause::BadNumber),
        ("put,8,5,5\n", 1, RowCause::BadSeat),
        ("get,0,0,\n", 1, RowCause::BadKey),
        ("range,0,8,7\n", 1, RowCause::BadBounds),
        ("mark,0,1,\nmark,1,1,\n", 2, RowCause::BadMark),
        ("turn,0,1,\nput,0,5\n", 2, RowCause::FieldCount),
        ("after,0,1,\n", 1, RowCause::BadMark),
        ("after,0,1,\nmark,0,1,\n", 1, RowCause::BadMark),
    ] {
        let refused = Status::BadRow { row, cause };
        assert!(rt; refuses(rt.alloc(), &[], input, refused)?, "{input}");
    }
    for input in ["turn,0,50000001,\n", "turn,0,50000000,\nturn,1,1,\n"] {
        assert!(rt;
            refuses(rt.alloc(), &[], input, Status::TooMany)?,
            "{input}"
        );
    }
    Ok(())
}

// A replay of the sheet above, in pieces.
fn in_pieces(alloc: Global, piece: usize, read: u64, write: u64) -> Result<Ended, AllocError> {
    replay_in_pieces(
        alloc,
        &[],
        SHEET.as_bytes().to_vec(alloc)?,
        piece,
        read,
        write,
    )
}

// Whether a write failed behind so many bytes of the lines.
fn has_failed(ended: &Ended, written: u64) -> bool {
    ended.status == Status::WriteFault
        && ended.written.len() as u64 == written
        && LINES.as_bytes().starts_with(ended.written.as_slice())
}

#[test]
fn a_fault_is_told_and_leaves_a_front(rt: HostRuntime) -> Result<(), Fail> {
    let alloc = rt.alloc();
    for k in 1..40 {
        assert!(rt; left_nothing(&in_pieces(alloc, 1, k, 0)?, Status::ReadFault));
    }
    assert!(rt; has_answered(alloc, &in_pieces(alloc, 1, 40, 0)?, LINES)?);
    for k in 1..93u64 {
        assert!(rt; has_failed(&in_pieces(alloc, 1, 0, k)?, k - 1));
    }
    assert!(rt; has_answered(alloc, &in_pieces(alloc, 1, 0, 93)?, LINES)?);
    assert!(rt; left_nothing(&in_pieces(alloc, 4, 2, 0)?, Status::ReadFault));
    assert!(rt; has_failed(&in_pieces(alloc, 4, 0, 3)?, 8));
    Ok(())
}

// How a replay of so many letters is refused.
fn letters(alloc: Global, count: usize, status: Status) -> Result<bool, AllocError> {
    let letters = vec![in alloc; b'a'; count]?;
    Ok(left_nothing(&replay_in_pieces(alloc, &[], letters, 4096, 0, 0)?, status))
}

#[test]
fn one_byte_more_is_too_long(rt: HostRuntime) -> Result<(), Fail> {
    let refused = Status::BadRow {
        row: 1,
        cause: RowCause::FieldCount,
    };
    assert!(rt; letters(rt.alloc(), 16_777_216, refused)?);
    assert!(rt; letters(rt.alloc(), 16_777_217, Status::TooLong)?);
    Ok(())
}

#[test]
fn a_sure_source_and_sink_end_well(rt: HostRuntime) -> Result<(), Fail> {
    let alloc = rt.alloc();
    let mut source = SureSource::new(SHEET.as_bytes().to_vec(alloc)?);
    let mut sink = SureSink::new();
    let mut world = World::blank(alloc);
    let status = replay_sure(alloc, &[], &mut world, &mut source, &mut sink);
    assert_eq!(rt; status, Status::Ok);
    Ok(())
}

const SMALL: [&str; 7] = [
    "--servers=1",
    "--chunks=4",
    "--chunk-nodes=8",
    "--leaf=4",
    "--computes=1",
    "--seats=3",
    "--cached=0",
];

// The small setting with another number of chunks, and with one word more.
fn small(chunks: &'static str, more: &'static str) -> [&'static str; 8] {
    [
        SMALL[0], chunks, SMALL[2], SMALL[3], SMALL[4], SMALL[5], SMALL[6], more,
    ]
}

// The small setting with so many cached nodes, and with one word more.
fn caching(cached: &'static str, more: &'static str) -> [&'static str; 8] {
    [
        SMALL[0], SMALL[1], SMALL[2], SMALL[3], SMALL[4], SMALL[5], cached, more,
    ]
}

// Whether the setting of these words answers these rows behind four puts by seat 2, of the keys 10, 20, 30 and 40.
fn answers_behind_four(
    alloc: Global,
    words: &[&str],
    rest: &str,
    more: &str,
) -> Result<bool, AllocError> {
    let mut input = String::new(alloc);
    write!(
        input,
        "put,2,10,1\nput,2,20,2\nput,2,30,3\nput,2,40,4\n{rest}"
    )?;
    let mut output = String::new(alloc);
    write!(
        output,
        "1,2,put,10,1,none,,0\n2,2,put,20,2,none,,1\n3,2,put,30,3,none,,2\n4,2,put,40,4,none,,3\n{more}"
    )?;
    answers(alloc, words, input.as_str(), output.as_str())
}

#[test]
fn schedules_are_replayed(rt: HostRuntime) -> Result<(), Fail> {
    let alloc = rt.alloc();
    for (name, input, output) in [
        (
            "a get meets a torn entry and reads again",
            "put,2,5,50\nget,0,5,\nput,1,5,51\nturn,2,1000,\nturn,0,16,\nturn,1,1000,\n",
            "1,2,put,5,50,none,,0\n2,0,get,5,,some,51,2\n3,1,put,5,51,some,50,1\nend,3,1,51\n",
        ),
        (
            "two puts race",
            "put,0,5,50\nput,1,5,51\nturn,0,25,\nturn,1,30,\n",
            "1,0,put,5,50,none,,0\n2,1,put,5,51,some,50,1\nend,2,1,51\n",
        ),
        (
            "a key is deleted and put behind the reader",
            "put,2,10,1\nput,2,20,2\nput,2,30,3\nget,0,20,\ndel,1,20,\nput,1,15,4\nput,1,20,5\nturn,2,1000,\nturn,0,6,\nturn,1,1000,\n",
            "1,2,put,10,1,none,,0\n2,2,put,20,2,none,,1\n3,2,put,30,3,none,,2\n4,0,get,20,,none,,4\n5,1,del,20,,some,2,3\n6,1,put,15,4,none,,4\n7,1,put,20,5,none,,5\nend,7,4,13\n",
        ),
    ] {
        assert!(rt; answers(alloc, &SMALL, input, output)?, "{name}");
    }
    for (name, rest, more) in [
        (
            "a key is seen in two entries",
            "del,2,20,\nget,0,40,\ndel,1,40,\nput,1,40,5\nturn,2,1000,\nturn,0,6,\nturn,1,1000,\n",
            "5,2,del,20,,some,2,4\n6,0,get,40,,some,5,7\n7,1,del,40,,some,4,5\n8,1,put,40,5,none,,6\nend,8,3,9\n",
        ),
        (
            "a leaf splits under a get",
            "get,0,40,\nput,1,50,5\nturn,2,1000,\nturn,0,2,\nturn,1,1000,\n",
            "5,0,get,40,,some,4,4\n6,1,put,50,5,none,,4\nend,6,5,15\n",
        ),
        (
            "a put waits while another splits",
            "put,0,50,5\nput,1,60,6\nturn,2,1000,\nturn,0,50,\nturn,1,100,\n",
            "5,0,put,50,5,none,,4\n6,1,put,60,6,none,,5\nend,6,6,21\n",
        ),
        (
            "two race for the root",
            "put,0,50,5\nput,1,60,6\nput,1,70,7\nturn,2,1000,\nturn,0,148,\nturn,1,1000,\n",
            "5,0,put,50,5,none,,4\n6,1,put,60,6,none,,5\n7,1,put,70,7,none,,6\nend,7,7,28\n",
        ),
    ] {
        assert!(rt; answers_behind_four(alloc, &SMALL, rest, more)?, "{name}");
    }
    Ok(())
}

#[test]
fn ranges_gather_rows_leaf_by_leaf(rt: HostRuntime) -> Result<(), Fail> {
    let alloc = rt.alloc();
    for (name, rest, more) in [
        (
            "a leaf splits behind the root's READ",
            "range,0,1,100\nput,1,50,5\nturn,2,1000,\nturn,0,2,\nturn,1,1000,\n",
            "5,0,range,1,100,rows,100,4:5\nrow,5,10,1\nrow,5,20,2\nrow,5,30,3\nrow,5,40,4\nrow,5,50,5\n6,1,put,50,5,none,,4\nend,6,5,15\n",
        ),
        (
            "a leaf splits twice while it is READ",
            "range,0,1,100\nput,1,50,5\nput,1,11,6\nput,1,12,7\nput,1,13,8\nturn,2,1000,\nturn,0,2,\nturn,1,1000,\n",
            "5,0,range,1,100,rows,100,4:8\nrow,5,10,1\nrow,5,11,6\nrow,5,12,7\nrow,5,13,8\nrow,5,20,2\nrow,5,30,3\nrow,5,40,4\nrow,5,50,5\n6,1,put,50,5,none,,4\n7,1,put,11,6,none,,5\n8,1,put,12,7,none,,6\n9,1,put,13,8,none,,7\nend,9,8,36\n",
        ),
        (
            "the leaf to the right splits before it is READ",
            "put,2,50,5\nrange,0,1,100\nput,1,60,6\nput,1,70,7\nturn,2,1000,\nturn,0,47,\nturn,1,1000,\n",
            "5,2,put,50,5,none,,4\n6,0,range,1,100,rows,100,5:7\nrow,6,10,1\nrow,6,20,2\nrow,6,30,3\nrow,6,40,4\nrow,6,50,5\nrow,6,60,6\nrow,6,70,7\n7,1,put,60,6,none,,5\n8,1,put,70,7,none,,6\nend,8,7,28\n",
        ),
        (
            "a key moves to another entry while the leaf is READ",
            "del,2,20,\nrange,0,1,100\ndel,1,40,\nput,1,40,5\nturn,2,1000,\nturn,0,6,\nturn,1,1000,\n",
            "5,2,del,20,,some,2,4\n6,0,range,1,100,rows,100,5:7\nrow,6,10,1\nrow,6,30,3\nrow,6,40,5\n7,1,del,40,,some,4,5\n8,1,put,40,5,none,,6\nend,8,3,9\n",
        ),
    ] {
        assert!(rt; answers_behind_four(alloc, &SMALL, rest, more)?, "{name}");
    }
    Ok(())
}

#[test]
fn a_range_ends_where_its_buffer_is_full(rt: HostRuntime) -> Result<(), Fail> {
    let alloc = rt.alloc();
    let one = caching("--cached=0", "--rows=1");
    assert!(rt;
        answers_behind_four(
            alloc,
            &one,
            "range,2,1,100\nrange,2,11,100\nrange,2,40,41\nrange,2,41,100\nrange,2,7,7\nrange,2,10,10\n",
            "5,2,range,1,100,part,11,4:4\nrow,5,10,1\n6,2,range,11,100,part,21,4:4\nrow,6,20,2\n7,2,range,40,41,rows,41,4:4\nrow,7,40,4\n8,2,range,41,100,rows,100,4:4\n9,2,range,7,7,rows,7,4:4\n10,2,range,10,10,rows,10,4:4\nend,10,4,10\n",
        )?
    );
    let three = caching("--cached=0", "--rows=3");
    assert!(rt;
        answers_behind_four(
            alloc,
            &three,
            "put,2,50,5\nput,2,60,6\nrange,2,1,100\nrange,2,31,100\nrange,2,31,61\nrange,2,7,7\n",
            "5,2,put,50,5,none,,4\n6,2,put,60,6,none,,5\n7,2,range,1,100,part,31,6:6\nrow,7,10,1\nrow,7,20,2\nrow,7,30,3\n8,2,range,31,100,part,61,6:6\nrow,8,40,4\nrow,8,50,5\nrow,8,60,6\n9,2,range,31,61,rows,61,6:6\nrow,9,40,4\nrow,9,50,5\nrow,9,60,6\n10,2,range,7,7,rows,7,6:6\nend,10,6,21\n",
        )?
    );
    Ok(())
}

#[test]
fn a_stale_cached_node_leads_left_of_the_key(rt: HostRuntime) -> Result<(), Fail> {
    let alloc = rt.alloc();
    for (call, line) in [
        ("get,0,70,", "9,0,get,70,,some,7,7\nend,9,7,28\n"),
        ("put,0,75,8", "9,0,put,75,8,none,,7\nend,9,8,36\n"),
        ("del,0,70,", "9,0,del,70,,some,7,7\nend,9,6,21\n"),
        (
            "range,0,55,100",
            "9,0,range,55,100,rows,100,7:7\nrow,9,60,6\nrow,9,70,7\nend,9,7,28\n",
        ),
    ] {
        let mut rest = String::new(alloc);
        write!(
            rest,
            "put,0,50,5\nget,0,40,\nput,1,60,6\nput,1,70,7\n{call}\nturn,2,1000,\nturn,0,196,\nturn,1,1000,\n"
        )?;
        let mut more = String::new(alloc);
        write!(
            more,
            "5,0,put,50,5,none,,4\n6,0,get,40,,some,4,5\n7,1,put,60,6,none,,5\n8,1,put,70,7,none,,6\n{line}"
        )?;
        let words = caching("--cached=4", "--rows=4");
        assert!(rt;
            answers_behind_four(alloc, &words, rest.as_str(), more.as_str())?,
            "{call}"
        );
    }
    Ok(())
}

// Rows of so many puts by seat 0, of keys that rise by `step`; put i has the value i.
fn rising_puts(alloc: Global, count: u64, step: u64) -> Result<String, AllocError> {
    let mut text = String::new(alloc);
    for earlier in 0..count {
        let i = earlier.wrapping_add(1);
        write!(text, "put,0,{},{i}\n", i.wrapping_mul(step))?;
    }
    Ok(text)
}

// Whether so many puts of rising keys, and then this row, are answered at the end with these lines; how many nodes of
// the world's tree aren't posted.
fn rises(
    alloc: Global,
    words: &[&str],
    puts: &str,
    row: &str,
    lines: &str,
    left: u32,
) -> Result<bool, AllocError> {
    let mut input = String::new(alloc);
    write!(input, "{puts}{row}")?;
    let ended = replay(alloc, words, input.as_str())?;
    let cfg = ended.world.setting();
    let told = ended.world.words().len() == cfg.words() as usize
        && unposted(alloc, cfg, ended.world.words())? == left;
    Ok(told && ended.written.as_slice().ends_with(lines.as_bytes()) && is_lawful(alloc, &ended)?)
}

#[test]
fn rising_keys_split_leaves_and_grow_the_tree(rt: HostRuntime) -> Result<(), Fail> {
    let alloc = rt.alloc();
    let five = rising_puts(alloc, 5, 10)?;
    assert!(rt;
        rises(
            alloc,
            &small("--chunks=4", "--map"),
            five.as_str(),
            "",
            "1,0,put,10,1,none,,0\n2,0,put,20,2,none,,1\n3,0,put,30,3,none,,2\n4,0,put,40,4,none,,3\n5,0,put,50,5,none,,4\nmap,10,1\nmap,20,2\nmap,30,3\nmap,40,4\nmap,50,5\nend,5,5,15\n",
            0
        )?
    );
    assert!(rt;
        rises(
            alloc,
            &small("--chunks=1", "--bound=4"),
            five.as_str(),
            "put,0,10,9\n",
            "1,0,put,10,1,none,,0\n2,0,put,20,2,none,,1\n3,0,put,30,3,none,,2\n4,0,put,40,4,none,,3\n5,0,put,50,5,full,,\n6,0,put,10,9,some,1,4\nend,6,4,18\n",
            0
        )?
    );
    let mut narrow = SMALL;
    narrow[1] = "--chunks=2";
    narrow[2] = "--chunk-nodes=1";
    let lines = "6,0,get,40,,some,4,5\nend,6,5,15\n";
    assert!(rt; rises(alloc, &narrow, five.as_str(), "get,0,40,\n", lines, 1)?);
    let hundred = rising_puts(alloc, 100, 1)?;
    let words = small("--chunks=64", "--bound=4");
    let lines = "100,0,put,100,100,none,,99\nend,100,100,5050\n";
    assert!(rt; rises(alloc, &words, hundred.as_str(), "", lines, 0)?);
    Ok(())
}

#[test]
fn a_leaf_is_worn_at_the_last_version(rt: HostRuntime) -> Result<(), Fail> {
    let alloc = rt.alloc();
    let mut input = String::new(alloc);
    let mut output = String::new(alloc);
    write!(input, "put,0,5,1\n")?;
    write!(output, "1,0,put,5,1,none,,0\n")?;
    for before in 1..255u64 {
        let i = before + 1;
        write!(input, "put,0,5,{i}\n")?;
        write!(output, "{i},0,put,5,{i},some,{before},{before}\n")?;
    }
    write!(input, "put,0,5,256\nget,0,5,\n")?;
    write!(
        output,
        "256,0,put,5,256,worn,15,\n257,0,get,5,,some,255,255\nend,257,1,255\n"
    )?;
    let words = small("--chunks=4", "--bits=4");
    assert!(rt; answers(alloc, &words, input.as_str(), output.as_str())?);
    Ok(())
}

#[test]
fn six_puts_are_handed_over_by_turns(rt: HostRuntime) -> Result<(), Fail> {
    let alloc = rt.alloc();
    let words = [
        "--servers=1",
        "--chunks=4",
        "--chunk-nodes=8",
        "--leaf=8",
        "--computes=2",
        "--seats=3",
        "--bound=1",
        "--cached=0",
    ];
    let input = "put,0,10,1\nput,1,11,2\nput,2,12,3\nput,3,13,4\nput,4,14,5\nput,5,15,6\n";
    let output =
        "1,0,put,10,1,none,,0\n2,1,put,11,2,none,,1\n3,2,put,12,3,none,,4\n4,3,put,13,4,none,,2\n5,4,put,14,5,none,,3\n6,5,put,15,6,none,,5\nend,6,6,21\n";
    assert!(rt; answers(alloc, &words, input, output)?);
    let output = "1,0,put,10,1,none,,0\n2,1,put,11,2,none,,1\n3,3,put,13,3,none,,2\nend,3,3,6\n";
    for k in 0..46u64 {
        let mut input = String::new(alloc);
        write!(
            input,
            "put,0,10,1\nput,1,11,2\nput,3,13,3\nturn,0,43,\nturn,1,43,\nturn,0,{k},\nturn,3,1000,\n"
        )?;
        assert!(rt; answers(alloc, &words, input.as_str(), output)?, "{k}");
    }
    Ok(())
}

#[test]
fn two_puts_meet_at_every_turn(rt: HostRuntime) -> Result<(), Fail> {
    let alloc = rt.alloc();
    for k in 0..58u64 {
        let mut input = String::new(alloc);
        write!(input, "put,0,5,50\nput,1,5,51\nturn,0,{k},\nturn,1,1000,\n")?;
        let output = if k < 25 {
            "1,0,put,5,50,some,51,1\n2,1,put,5,51,none,,0\nend,2,1,50\n"
        } else {
            "1,0,put,5,50,none,,0\n2,1,put,5,51,some,50,1\nend,2,1,51\n"
        };
        assert!(rt; answers(alloc, &SMALL, input.as_str(), output)?, "{k}");
    }
    Ok(())
}

#[test]
fn a_get_meets_a_split_at_every_turn(rt: HostRuntime) -> Result<(), Fail> {
    let alloc = rt.alloc();
    for k in 0..150u64 {
        let mut rest = String::new(alloc);
        write!(
            rest,
            "put,0,50,5\nget,1,40,\nturn,2,1000,\nturn,0,{k},\nturn,1,1000,\n"
        )?;
        let more = if k < 99 {
            "5,0,put,50,5,none,,4\n6,1,get,40,,some,4,4\nend,6,5,15\n"
        } else {
            "5,0,put,50,5,none,,4\n6,1,get,40,,some,4,5\nend,6,5,15\n"
        };
        assert!(rt;
            answers_behind_four(alloc, &SMALL, rest.as_str(), more)?,
            "{k}"
        );
    }
    Ok(())
}

// How the rounds end that make so many turns, over one put and over the small setting, and what is then written.
fn ends_with(alloc: Global, budget: u64) -> Result<Option<(Finish, Vec<u8>)>, AllocError> {
    let parts = ConfigParts {
        servers: 1,
        chunks: 4,
        chunk_nodes: 8,
        leaf: 4,
        computes: 1,
        seats: 3,
        cached: 0,
        ..ConfigParts::default()
    };
    let Ok(cfg) = Config::new(parts) else {
        return Ok(None);
    };
    let Ok(sheet) = read_sheet(alloc, b"put,0,5,50\n", Mode::Replay, &cfg) else {
        return Ok(None);
    };
    let mut world = serve::world_of(alloc, &cfg, &sheet)?;
    let end = finish(alloc, &mut world, sheet, budget)?;
    let mut sink = ListSink::new(alloc, 1024, 64, Vec::new(alloc))?;
    let order = Order {
        cfg,
        map: false,
        events: false,
        make: None,
        seed: 1,
    };
    if world.calls().len() > 9
        || output::write_lines(alloc, &mut sink, &order, world.calls(), &[]).is_err()
    {
        return Ok(None);
    }
    Ok(Some((end, sink.bytes().to_vec(alloc)?)))
}

fn is_end(found: &Option<(Finish, Vec<u8>)>, end: &Finish, lines: &[u8]) -> bool {
    match found {
        Some(found) => found.0 == *end && found.1.as_slice() == lines,
        None => false,
    }
}

#[test]
fn rounds_end_where_every_call_has_ended_or_the_turns_are_spent(
    rt: HostRuntime,
) -> Result<(), Fail> {
    let alloc = rt.alloc();
    for (budget, end, lines) in [
        (
            0,
            Finish::Spent(0),
            b"1,0,put,5,50,pending,,\nunfinished,1,0\n".as_slice(),
        ),
        (
            10,
            Finish::Spent(10),
            b"1,0,put,5,50,pending,,\nunfinished,1,0\n",
        ),
        (
            56,
            Finish::Spent(56),
            b"1,0,put,5,50,pending,,\nunfinished,1,0\n",
        ),
        (57, Finish::Done(57), b"1,0,put,5,50,none,,0\nend,1,0,0\n"),
        (1000, Finish::Done(57), b"1,0,put,5,50,none,,0\nend,1,0,0\n"),
    ] {
        let found = ends_with(alloc, budget)?;
        assert!(rt; is_end(&found, &end, lines), "{budget}");
    }
    Ok(())
}

// The number behind this one, of a generator by multiplication.
fn next_number(x: u64) -> u64 {
    x.wrapping_mul(6_364_136_223_846_793_005)
        .wrapping_add(1_442_695_040_888_963_407)
}

#[test]
fn random_schedules_are_lawful(rt: HostRuntime) -> Result<(), Fail> {
    let alloc = rt.alloc();
    let mut x = 7u64;
    for schedule in 0..48u64 {
        let mut input = String::new(alloc);
        for i in 0..60u64 {
            x = next_number(x);
            let (seat, key) = ((x >> 50) % 3, (x >> 33) % 12 + 1);
            match x >> 61 {
                0..4 => write!(input, "put,{seat},{key},{i}\n")?,
                4 => write!(input, "get,{seat},{key},\n")?,
                5 => write!(input, "range,{seat},{key},{}\n", key + x % 9)?,
                _ => write!(input, "del,{seat},{key},\n")?,
            }
            write!(input, "turn,{},{},\n", (x >> 10) % 3, (x >> 20) % 90)?;
        }
        let words = match schedule % 4 {
            0 => caching("--cached=0", "--rows=1"),
            1 => caching("--cached=1", "--rows=2"),
            2 => caching("--cached=2", "--rows=5"),
            _ => caching("--cached=16", "--rows=256"),
        };
        let ended = replay(alloc, &words, input.as_str())?;
        assert!(rt; is_lawful(alloc, &ended)?, "{schedule}");
    }
    Ok(())
}
