//! Replays a sheet of calls: reads it from standard input, and writes a line for each call to standard output.
#![tactic(auto)]

use sh_options::{WordFault, behind_name, words_given};
use sh_port::{StdSink, StdSource, write_line};
use sh_replay::{World, replay_top};
use sh_sheet::Status;
use std::io;
use std::process::ExitCode;

fn main(rt: HostRuntime) -> ExitCode {
    let status = match replay(&rt) {
        Ok(status) => status,
        Err(fault) => fault.status(),
    };
    // A fault of the text is of no account: the code tells the status too.
    let _ = write_line(&mut StdSink::new(io::writer(&rt)), status.text().as_str());
    ExitCode::from(status.code())
}

// Replays what standard input holds, as the program's words ask for it.
fn replay(rt: &HostRuntime) -> Result<Status, WordFault> {
    let alloc = rt.alloc();
    let given = words_given(alloc, std::env::args(rt))?;
    let words = behind_name(alloc, &given)?;
    let mut world = World::blank(alloc);
    let mut source = StdSource::new(rt.reader());
    let mut sink = StdSink::new(io::writer(rt));
    Ok(replay_top(alloc, &words, &mut world, &mut source, &mut sink))
}
