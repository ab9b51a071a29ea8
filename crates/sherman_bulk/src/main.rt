//! Builds a pool of the rows on standard input, and writes its picture, or one line, to standard output.
#![tactic(auto)]

use sh_bulk::{BulkStatus, NoHold, bulk_top};
use sh_options::{WordFault, behind_name, words_given};
use sh_port::{StdSink, StdSource, write_line};
use std::io;
use std::process::ExitCode;
use std::thread::Threads;

fn main(rt: HostRuntime) -> ExitCode {
    let status = match build(&rt, &rt) {
        Ok(status) => status,
        Err(fault) => BulkStatus::Served(fault.status()),
    };
    // A fault of the text is of no account: the code tells the status too.
    let _ = write_line(&mut StdSink::new(io::writer(&rt)), status.text().as_str());
    ExitCode::from(status.code())
}

// Builds of what standard input holds, as the program's words ask for it, by workers in threads.
fn build<T: Threads + Sync>(rt: &HostRuntime, threads: &T) -> Result<BulkStatus, WordFault> {
    let alloc = rt.alloc();
    let given = words_given(alloc, std::env::args(rt))?;
    let words = behind_name(alloc, &given)?;
    let mut source = StdSource::new(rt.reader());
    let mut sink = StdSink::new(io::writer(rt));
    Ok(bulk_top(threads, alloc, &words, &mut source, &mut sink, &NoHold))
}
