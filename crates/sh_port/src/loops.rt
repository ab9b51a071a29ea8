// A whole input read, and a whole text written.
ghost use Rattle.std.specs.{Prelude.{◌≡◌, ◌≤◌, ◌^◌, OnOk, OnErr, MatchResult}, Io.KnownBytes.{Appends}};
ghost use Rattle.sh_port.specs.{Port.{HasFaultCause, AppendsFront, line_of}, Intake.{TookAll, TookUpTo, StoppedBy, StoppedUpTo}};

use crate::{Failed, Sink, Source};
use std::alloc::Global;

/// The bytes of an input.
pub type Bytes = Vec<u8>;

/// The most bytes of an input: 16 MiB.
pub const MOST_BYTES: usize = 16_777_216;

/// Why an input wasn't read.
#[derive(Clone, Copy, Debug, PartialEq, Eq)]
pub enum Intake {
    /// A call of the source failed.
    Fault,
    /// There are more bytes than may be read.
    TooLong,
    /// Memory is wanting.
    NoMemory,
}

/// All the bytes that are left, where there are at most `most`. `Ok` comes only where the source's last answer was the
/// end, `Fault` only where its count of faults rose, `TooLong` exactly where one byte more than `most` was taken, and
/// `NoMemory` only where no more than `most` were. Condition: `most` is at most 2^32.
pub fn read_up_to<S: Source>(alloc: Global, source: &mut S, most: u64) -> Result<Bytes, Intake>
    requires { most ≤ 2 ^ 32 }
    ensures { MatchResult result (λ v. TookUpTo most (S.left source.old) (S.left source.new) (S.faults source.old) (S.faults source.new) v.items) (λ e. StoppedUpTo most (S.left source.old) (S.left source.new) (S.faults source.old) (S.faults source.new) e) }
{
    let most = most as usize;
    let mut bytes = Vec::new(alloc);
    let mut buffer = [0u8; 4096];
    'reads: loop {
        let room = (most + 1 - bytes.len()).min(4096);
        let n = match source.read(&mut buffer[..room]) {
            Ok(n) => n,
            Err(_) => return Err(Intake::Fault),
        };
        if n == 0 {
            return Ok(bytes);
        }
        if n > most - bytes.len() {
            return Err(Intake::TooLong);
        }
        if bytes.extend_from_slice(&buffer[..n]).is_err() {
            return Err(Intake::NoMemory);
        }
    }
}

/// All the bytes that are left, where there are at most [`MOST_BYTES`], as `read_up_to` reads them.
pub fn read_all<S: Source>(alloc: Global, source: &mut S) -> Result<Bytes, Intake>
    ensures { MatchResult result (λ v. TookAll (S.left source.old) (S.left source.new) (S.faults source.old) (S.faults source.new) v.items) (λ e. StoppedBy (S.left source.old) (S.left source.new) (S.faults source.old) (S.faults source.new) e) }
{
    read_up_to(alloc, source, MOST_BYTES as u64)
}

/// Writes the whole piece. Where a call of the sink fails, the sink holds a front of the piece more.
pub fn write_all<K: Sink>(sink: &mut K, piece: &[u8]) -> Result<(), Failed>
    ensures ok { OnOk result (Appends (K.held sink.old) (K.held sink.new) piece.now) }
    ensures err { OnErr result (AppendsFront (K.held sink.old) (K.held sink.new) piece.now) }
    ensures cause { HasFaultCause (K.faults sink.old) (K.faults sink.new) result }
{
    let mut at = 0;
    'writes: while at < piece.len() {
        at += sink.write(&piece[at..])?;
    }
    Ok(())
}

/// Writes a text and a line feed, and nothing where the text is empty. Where a call of the sink fails, the sink holds a
/// front of that line more.
pub fn write_line<K: Sink>(sink: &mut K, text: &str) -> Result<(), Failed>
    ensures ok { OnOk result (Appends (K.held sink.old) (K.held sink.new) (line_of text.now)) }
    ensures err { OnErr result (AppendsFront (K.held sink.old) (K.held sink.new) (line_of text.now)) }
    ensures cause { HasFaultCause (K.faults sink.old) (K.faults sink.new) result }
{
    if text.is_empty() {
        return Ok(());
    }
    match write_all(sink, text.as_bytes()) {
        Ok(()) => write_all(sink, b"\n"),
        Err(error) => Err(error),
    }
}
