//! Runs a sheet of calls in threads: reads it from standard input, and writes a line for each call to standard output.
#![tactic(auto)]

use sh_fleet::{Free, Pool, run_top};
use sh_options::{WordFault, behind_name, words_given};
use sh_port::{StdSink, StdSource, write_line};
use sh_sheet::Status;
use std::io;
use std::process::ExitCode;
use std::sync::Wait;
use std::thread::Threads;

fn main(rt: HostRuntime) -> ExitCode {
    let status = match run(&rt, &rt) {
        Ok(status) => status,
        Err(fault) => fault.status(),
    };
    // A fault of the text is of no account: the code tells the status too.
    let _ = write_line(&mut StdSink::new(io::writer(&rt)), status.text().as_str());
    ExitCode::from(status.code())
}

// Runs what standard input holds, as the program's words ask for it, each seat in a thread of its own.
fn run<R: Threads + Wait + Sync>(rt: &HostRuntime, threads: &R) -> Result<Status, WordFault> {
    let alloc = rt.alloc();
    let given = words_given(alloc, std::env::args(rt))?;
    let words = behind_name(alloc, &given)?;
    let mut pool = Pool::blank(alloc);
    let mut source = StdSource::new(rt.reader());
    let mut sink = StdSink::new(io::writer(rt));
    Ok(run_top(
        threads,
        alloc,
        &words,
        &mut pool,
        &mut source,
        &mut sink,
        &Free,
    ))
}
