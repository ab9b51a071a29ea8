// From the bytes in to the lines out.
ghost use Rattle.std.specs.Prelude.{◌≡◌, map};
ghost use Rattle.sh_picture.specs.Top.{map_asked, told, untold, Checked, Headline};

use crate::checking::check;
use crate::writing::write_verdict;
use crate::{PictureStatus, Verdict};
use sh_port::{Intake, Sink, Source, read_up_to};
use sh_sheet::Status;
use sh_text::WriteError;
use std::alloc::Global;

/// The most bytes of a picture: that of the largest pool.
pub const MOST_BYTES: u64 = 33_554_488;

// Whether the words ask for the map, where they are accepted.
fn asked_of(words: &[&str]) -> Option<bool>
    ensures { result ≡ map_asked (map (λ w. w.now) words.now) }
{
    match words {
        [] => Some(false),
        [word] if *word == "--map" => Some(true),
        _ => None,
    }
}

// The status of a verdict whose lines were all written.
fn told(verdict: &Verdict) -> PictureStatus
    ensures { result ≡ told verdict.now }
{
    match verdict {
        Verdict::Lawful { .. } => PictureStatus::Served(Status::Ok),
        Verdict::Refused(_) => PictureStatus::NotLawful,
    }
}

// The status of a verdict whose lines weren't.
fn untold(error: WriteError) -> PictureStatus
    ensures { result ≡ untold error }
{
    match error {
        WriteError::Fault => PictureStatus::Served(Status::WriteFault),
        WriteError::NoMemory => PictureStatus::Served(Status::NoMemory),
    }
}

// Checks the input, and writes the lines of the verdict.
fn check_input<S: Source, K: Sink>(
    alloc: Global,
    asked: bool,
    source: &mut S,
    sink: &mut K,
) -> PictureStatus
    ensures { Checked asked (S.left source.old) (S.left source.new) (S.faults source.old) (S.faults source.new) (K.held sink.old) (K.held sink.new) (K.faults sink.old) (K.faults sink.new) result }
{
    let bytes = match read_up_to(alloc, source, MOST_BYTES) {
        Ok(bytes) => bytes,
        Err(Intake::Fault) => return PictureStatus::Served(Status::ReadFault),
        Err(Intake::TooLong) => return PictureStatus::Served(Status::TooLong),
        Err(Intake::NoMemory) => return PictureStatus::Served(Status::NoMemory),
    };
    let Ok(verdict) = check(alloc, &bytes) else {
        return PictureStatus::Served(Status::NoMemory);
    };
    match write_verdict(alloc, sink, asked, &verdict) {
        Ok(()) => told(&verdict),
        Err(error) => untold(error),
    }
}

/// Checks the picture that the source holds: reads it to its end, and writes to the sink, where it is the picture of a
/// lawful tree, a line for each key where the words ask for the map, and then `lawful`, the number of keys and the sum
/// of all words of their values; else the line of the first place that says otherwise. The words are none, or `--map`
/// alone.
///
/// `Usage` comes exactly where the words are refused; then nothing is read. `ReadFault` comes only where the source's
/// count of faults rose, and `TooLong` exactly where one byte more than [`MOST_BYTES`] was taken. Up to there nothing is
/// written. `Ok` and `NotLawful` come where all lines of the verdict were written, and `NotLawful` exactly where it is
/// a refusal. `WriteFault` comes only where the sink's count rose; what was written is a front of the lines. `NoMemory`
/// is free: nothing was written, or a front of the lines.
pub fn check_top<S: Source, K: Sink>(
    alloc: Global,
    words: &[&str],
    source: &mut S,
    sink: &mut K,
) -> PictureStatus
    ensures { Headline (map_asked (map (λ w. w.now) words.now)) (S.left source.old) (S.left source.new) (S.faults source.old) (S.faults source.new) (K.held sink.old) (K.held sink.new) (K.faults sink.old) (K.faults sink.new) result }
{
    match asked_of(words) {
        Some(asked) => check_input(alloc, asked, source, sink),
        None => PictureStatus::Served(Status::Usage),
    }
}
