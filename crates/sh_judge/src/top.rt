// From the bytes of a printed replay to the line of what is found.
ghost use Rattle.std.specs.Prelude.{◌≡◌, ◌≤◌, map};
ghost use Rattle.sh_judge.specs.{Judged.{JudgeHeadline, Judged}, Words.{width_of}};

use crate::finding::finding_line;
use crate::status::ended_by;
use crate::words::read_width;
use crate::{JudgeStatus, judge_text};
use sh_options::WordFault;
use sh_port::{Intake, Sink, Source, read_all, write_all};
use sh_sheet::Status;
use std::alloc::Global;

// Judges values of so many words.
fn judge_width<S: Source, K: Sink>(
    alloc: Global,
    width: u32,
    source: &mut S,
    sink: &mut K,
) -> JudgeStatus
    requires low { 1 ≤ width }
    requires high { width ≤ 8 }
    ensures { Judged width (S.left source.old) (S.left source.new) (S.faults source.old) (S.faults source.new) (K.held sink.old) (K.held sink.new) (K.faults sink.old) (K.faults sink.new) result }
{
    let bytes = match read_all(alloc, source) {
        Ok(bytes) => bytes,
        Err(Intake::Fault) => return JudgeStatus::Served(Status::ReadFault),
        Err(Intake::TooLong) => return JudgeStatus::Served(Status::TooLong),
        Err(Intake::NoMemory) => return JudgeStatus::Served(Status::NoMemory),
    };
    let Ok(found) = judge_text(alloc, &bytes, width) else {
        return JudgeStatus::Served(Status::NoMemory);
    };
    let Ok(line) = finding_line(alloc, &found) else {
        return JudgeStatus::Served(Status::NoMemory);
    };
    match write_all(sink, line.as_bytes()) {
        Ok(()) => ended_by(&found),
        Err(_) => JudgeStatus::Served(Status::WriteFault),
    }
}

/// Judges a printed replay: reads all that the source has left, and writes one line to the sink, that of what is found by
/// `judge_text`. The words are none, or how many words a value has.
///
/// `Usage` comes exactly where the words are refused; then nothing is read. `ReadFault` comes only where the source's count
/// of faults rose, and `TooLong` exactly where 16,777,217 bytes were taken. `Ok` comes exactly where the replay is lawful
/// and the finding's line was written whole, and `NotLawful` exactly where it isn't and the line was written whole.
/// `WriteFault` comes only where the sink's count rose; what was written is a front of the line. `NoMemory` is free; then
/// nothing was written, as with `Usage`, `ReadFault` and `TooLong`.
pub fn judge_top<S: Source, K: Sink>(
    alloc: Global,
    words: &[&str],
    source: &mut S,
    sink: &mut K,
) -> JudgeStatus
    ensures { JudgeHeadline (width_of (map (λ w. w.now) words.now)) (S.left source.old) (S.left source.new) (S.faults source.old) (S.faults source.new) (K.held sink.old) (K.held sink.new) (K.faults sink.old) (K.faults sink.new) result }
{
    match read_width(alloc, words) {
        Ok(width) => judge_width(alloc, width, source, sink),
        Err(WordFault::Usage) => JudgeStatus::Served(Status::Usage),
        Err(WordFault::NoMemory) => JudgeStatus::Served(Status::NoMemory),
    }
}
