// Rows that are built, from the words and bytes in to the picture or the line.
use super::*;
use sh_picture::check_top;
use sh_port::{ListSink, ListSource};
use std::alloc::{AllocError, Global};
use std::fmt::Write;
use std::sync::atomic::{AtomicU64, Ordering};
use std::test::*;
use std::thread::{Threads, yield_now};

const SMALL: &str =
    "--servers=1 --chunks=4 --chunk-nodes=8 --leaf=4 --computes=1 --seats=3 --cached=0";

const EIGHT: &str = "--value-words=8 --leaf=4 --servers=1 --chunks=1 --chunk-nodes=1 --picture";

// Cases, one a line: what it shows, the words, the rows with `;` for their line feeds, the code, and what is written.
const ENDS: &str = "equal keys|--servers=1 --leaf=4 --computes=1 --picture|5,1;5,2;|12|
four rows and one node|--servers 1 --leaf 4 --computes 1 --chunks 1 --chunk-nodes 1|1,1;2,2;3,3;4,4;|13|
three rows and one node|--servers 1 --leaf 4 --computes 1 --chunks 1 --chunk-nodes 1|1,1;2,2;3,3;|0|built,1,3;
a row of one field||1,1;2;|6|
a value that is no number||1,1;2,x;|6|
the key 0||0,1;|6|
a worker too many|--workers 65||2|
an option of another program|--map||2|
two rows||10,1;20,2;|0|built,1,2;
no row|||0|built,1,0;
quoted fields||\"10\",\"1\";20,2;|0|built,1,2;
a quoted field that is no two rows||10,\"1;20,2\";|6|
values of two words|--value-words 2 --leaf 4|1,1:2;2,3:4;|0|built,1,2;
a value of a word too few|--value-words 2 --leaf 4|1,1;|6|
a value of eight words|--value-words=8 --leaf=4 --servers=1 --chunks=1 --chunk-nodes=1|1,1:2:3:4:5:6:7:8;|0|built,1,1;";

// The words of a text.
fn words_in(alloc: Global, text: &str) -> Result<Vec<&str>, AllocError> {
    let mut words = Vec::new(alloc);
    for word in text.split(' ') {
        if !word.is_empty() {
            words.push(word)?;
        }
    }
    Ok(words)
}

// The bytes of a text that has `;` for its line feeds.
fn lines_in(alloc: Global, text: &str) -> Result<Vec<u8>, AllocError> {
    let mut lines = Vec::new(alloc);
    for byte in text.as_bytes() {
        lines.push(if *byte == b';' { b'\n' } else { *byte })?;
    }
    Ok(lines)
}

// The bytes that are written, and the status.
fn run<R: Threads + Sync, H: Hold + Sync>(
    rt: &R,
    alloc: Global,
    words: &str,
    rows: &str,
    hold: &H,
) -> Result<(Vec<u8>, BulkStatus), AllocError> {
    let words = words_in(alloc, words)?;
    let mut source = ListSource::new(lines_in(alloc, rows)?, 1_000, Vec::new(alloc));
    let mut sink = ListSink::new(alloc, 10_000, 5_000, Vec::new(alloc))?;
    let status = bulk_top(rt, alloc, &words, &mut source, &mut sink, hold);
    Ok((sink.bytes().to_vec(alloc)?, status))
}

// Whether a case ends as it says.
fn ends<R: Threads + Sync>(rt: &R, alloc: Global, case: &str) -> Result<bool, AllocError> {
    let mut parts = case.split('|').skip(1);
    let words = parts.next().unwrap_or("");
    let rows = parts.next().unwrap_or("");
    let code = parts.next().unwrap_or("");
    let text = lines_in(alloc, parts.next().unwrap_or(""))?;
    let (written, status) = run(rt, alloc, words, rows, &NoHold)?;
    let ended = status.code();
    Ok(written == text && format!(in alloc; "{ended}")?.as_str() == code)
}

#[test]
fn each_case_ends_as_it_says(rt: HostRuntime) -> Result<(), Fail> {
    let mut cases = 0u32;
    for case in ENDS.split('\n') {
        assert!(rt; ends(&rt, rt.alloc(), case)?, "{case}");
        cases = cases.saturating_add(1);
    }
    assert_eq!(rt; cases, 15);
    Ok(())
}

// Rows with the keys 10, 20 and so on, and the values 1, 2 and so on.
fn tens(alloc: Global, count: u64) -> Result<String, AllocError> {
    let mut text = String::new(alloc);
    for i in 0..count.min(1_000) {
        write!(text, "{},{};", 10 * (i + 1), i + 1)?;
    }
    Ok(text)
}

// The small pool's picture, by so many workers.
fn picture_by<R: Threads + Sync>(
    rt: &R,
    alloc: Global,
    rows: &str,
    workers: u32,
) -> Result<Vec<u8>, AllocError> {
    let words = format!(in alloc; "{SMALL} --picture --workers={workers}")?;
    Ok(run(rt, alloc, words.as_str(), rows, &NoHold)?.0)
}

// Whether a picture is lawful, and the check with these words writes this.
fn is_lawful(
    alloc: Global,
    words: &[&str],
    picture: Vec<u8>,
    text: &[u8],
) -> Result<bool, AllocError> {
    let mut source = ListSource::new(picture, 4_000, Vec::new(alloc));
    let mut sink = ListSink::new(alloc, 1_000, 100, Vec::new(alloc))?;
    let status = check_top(alloc, words, &mut source, &mut sink);
    Ok(status.code() == 0 && sink.bytes() == text)
}

// The word at a place of a picture of the small setting.
fn word(bytes: &[u8], at: usize) -> u64 {
    let mut word = 0u64;
    for byte in bytes.iter().skip(56 + 8 * at.min(1_000)).take(8) {
        word = word.wrapping_mul(256).wrapping_add(u64::from(*byte));
    }
    word
}

#[test]
fn ten_keys_make_four_leaves_under_a_root(rt: HostRuntime) -> Result<(), Fail> {
    let alloc = rt.alloc();
    let bytes = picture_by(&rt, alloc, tens(alloc, 10)?.as_str(), 4)?;
    assert_eq!(rt;
        [word(&bytes, 1), word(&bytes, 2), bytes.len() as u64],
        [5, 1, 6_480]
    );
    assert!(rt; is_lawful(alloc, &[], bytes, b"lawful,10,55\n")?);
    Ok(())
}

#[test]
fn refusals_have_their_numbers(rt: HostRuntime) -> Result<(), Fail> {
    let alloc = rt.alloc();
    let (_, status) = run(&rt, alloc, SMALL, "5,1;5,2;", &NoHold)?;
    assert_eq!(rt; status, BulkStatus::NotRising { row: 2 });
    let one = "--servers=1 --chunks=1 --chunk-nodes=1 --leaf=4";
    let (_, status) = run(&rt, alloc, one, "1,1;2,2;3,3;4,4;", &NoHold)?;
    assert_eq!(rt; status, BulkStatus::NoRoom { need: 3, nodes: 1 });
    Ok(())
}

// Whether any number of workers writes the same bytes.
fn all_same<R: Threads + Sync>(rt: &R, alloc: Global, rows: &str) -> Result<bool, AllocError> {
    let one = picture_by(rt, alloc, rows, 1)?;
    let two = picture_by(rt, alloc, rows, 2)?;
    let three = picture_by(rt, alloc, rows, 3)?;
    let most = picture_by(rt, alloc, rows, 64)?;
    Ok(one.len() == 6_480 && one == two && one == three && one == most)
}

#[test]
fn any_number_of_workers_writes_the_same(rt: HostRuntime) -> Result<(), Fail> {
    for count in [0, 1, 3, 4, 17, 18, 19, 78] {
        let rows = tens(rt.alloc(), count)?;
        assert!(rt; all_same(&rt, rt.alloc(), rows.as_str())?, "{count}");
    }
    Ok(())
}

#[test]
fn a_picture_of_eight_words_a_value_is_lawful(rt: HostRuntime) -> Result<(), Fail> {
    let alloc = rt.alloc();
    let (bytes, _) = run(&rt, alloc, EIGHT, "1,1:2:3:4:5:6:7:8;", &NoHold)?;
    let text = b"map,1,1:2:3:4:5:6:7:8\nlawful,1,36\n";
    assert!(rt; is_lawful(alloc, &["--map"], bytes, text)?);
    Ok(())
}

// Each of two workers waits, before its stretch is begun, until the other one has come as far.
#[derive(Drop)]
struct Meeting {
    came: [AtomicU64; 2],
    missed: AtomicU64,
}

impl Hold for Meeting {
    fn before(&self, worker: u32) {
        if worker > 1 {
            return;
        }
        let me = worker as usize;
        self.came[me].store(1, Ordering::SeqCst);
        for _ in 0..10_000_000 {
            if self.came[1 - me].load(Ordering::SeqCst) == 1 {
                return;
            }
            yield_now();
        }
        self.missed.fetch_add(1, Ordering::SeqCst);
    }

    fn after(&self, _worker: u32) {}
}

#[test]
fn two_workers_run_beside_each_other(rt: HostRuntime) -> Result<(), Fail> {
    let hold = Meeting {
        came: [AtomicU64::new(0), AtomicU64::new(0)],
        missed: AtomicU64::new(0),
    };
    let rows = tens(rt.alloc(), 10)?;
    let words = format!(in rt.alloc(); "{SMALL} --picture --workers=2")?;
    let (bytes, status) = run(&rt, rt.alloc(), words.as_str(), rows.as_str(), &hold)?;
    assert_eq!(rt; (bytes.len(), status.code()), (6_480, 0));
    assert_eq!(rt; hold.came[0].load(Ordering::SeqCst), 1);
    assert_eq!(rt; hold.came[1].load(Ordering::SeqCst), 1);
    assert_eq!(rt; hold.missed.load(Ordering::SeqCst), 0);
    Ok(())
}

#[test]
fn laws_are_called() {
    buildings_are_complete();
}
