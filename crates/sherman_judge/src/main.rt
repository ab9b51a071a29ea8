//! Judges a printed replay: reads it from standard input, and writes to standard output whether it is lawful, or why not.
#![tactic(auto)]

use sh_judge::{JudgeStatus, judge_top};
use sh_options::{WordFault, behind_name, words_given};
use sh_port::{StdSink, StdSource, write_line};
use std::io;
use std::process::ExitCode;

fn main(rt: HostRuntime) -> ExitCode {
    let status = match judge(&rt) {
        Ok(status) => status,
        Err(fault) => JudgeStatus::Served(fault.status()),
    };
    // A fault of the text is of no account: the code tells the status too.
    let _ = write_line(&mut StdSink::new(io::writer(&rt)), status.text().as_str());
    ExitCode::from(status.code())
}

// Judges what standard input holds, as the program's words ask for it.
fn judge(rt: &HostRuntime) -> Result<JudgeStatus, WordFault> {
    let alloc = rt.alloc();
    let given = words_given(alloc, std::env::args(rt))?;
    let words = behind_name(alloc, &given)?;
    let mut source = StdSource::new(rt.reader());
    let mut sink = StdSink::new(io::writer(rt));
    Ok(judge_top(alloc, &words, &mut source, &mut sink))
}
