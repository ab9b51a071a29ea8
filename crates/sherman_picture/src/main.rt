//! Checks the picture of a pool: reads it from standard input, and writes the verdict to standard output.
#![tactic(auto)]

use sh_options::{WordFault, behind_name, words_given};
use sh_picture::{PictureStatus, check_top};
use sh_port::{StdSink, StdSource, write_line};
use std::io;
use std::process::ExitCode;

fn main(rt: HostRuntime) -> ExitCode {
    let status = match check(&rt) {
        Ok(status) => status,
        Err(fault) => PictureStatus::Served(fault.status()),
    };
    // A fault of the text is of no account: the code tells the status too.
    let _ = write_line(&mut StdSink::new(io::writer(&rt)), status.text().as_str());
    ExitCode::from(status.code())
}

// Checks what standard input holds, as the program's words ask for it.
fn check(rt: &HostRuntime) -> Result<PictureStatus, WordFault> {
    let alloc = rt.alloc();
    let given = words_given(alloc, std::env::args(rt))?;
    let words = behind_name(alloc, &given)?;
    let mut source = StdSource::new(rt.reader());
    let mut sink = StdSink::new(io::writer(rt));
    Ok(check_top(alloc, &words, &mut source, &mut sink))
}
