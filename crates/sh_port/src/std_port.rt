// A source and a sink over std's readers and writers.
ghost use Rattle.std.specs.Prelude.{◌≡◌};

use crate::{Failed, Sink, Source};
use std::io::{Read, Write};

/// A source over a reader of std. It counts the calls that failed.
#[derive(Drop)]
pub struct StdSource<R: Read> {
    reader: R,
    faults: u64,
}

impl<R: Read> StdSource<R> {
    /// A source over this reader.
    pub fn new(reader: R) -> Self
        ensures left { ⟦<StdSource<R> as Source>⟧.left result ≡ R.remaining reader }
        ensures faults { ⟦<StdSource<R> as Source>⟧.faults result ≡ 0 }
    {
        StdSource { reader, faults: 0 }
    }
}

impl<R: Read> Source for StdSource<R> {
    ghost left = { λ s. R.remaining s.reader };

    ghost faults = { λ s. s.faults };

    fn read(&mut self, into: &mut [u8]) -> Result<usize, Failed> {
        match self.reader.read(into) {
            Ok(n) => Ok(n),
            Err(_) => {
                self.faults = self.faults.saturating_add(1);
                Err(Failed)
            }
        }
    }
}

/// A sink over a writer of std. It counts the calls that failed, and those that took nothing of a piece that isn't
/// empty, which fail too.
#[derive(Drop)]
pub struct StdSink<W: Write> {
    writer: W,
    faults: u64,
}

impl<W: Write> StdSink<W> {
    /// A sink over this writer.
    pub fn new(writer: W) -> Self
        ensures held { ⟦<StdSink<W> as Sink>⟧.held result ≡ W.contents writer }
        ensures faults { ⟦<StdSink<W> as Sink>⟧.faults result ≡ 0 }
    {
        StdSink { writer, faults: 0 }
    }
}

impl<W: Write> Sink for StdSink<W> {
    ghost held = { λ s. W.contents s.writer };

    ghost faults = { λ s. s.faults };

    fn write(&mut self, piece: &[u8]) -> Result<usize, Failed> {
        match self.writer.write(piece) {
            Ok(n) if n > 0 || piece.is_empty() => Ok(n),
            _ => {
                self.faults = self.faults.saturating_add(1);
                Err(Failed)
            }
        }
    }
}

#[cfg(test)]
mod tests {
    use super::*;
    use crate::{Intake, MOST_BYTES, read_all, write_all, write_line};
    use std::alloc::{AllocError, Global};
    use std::test::Fail;

    // So many bytes, no two neighbours alike.
    fn bytes_of(alloc: Global, length: usize) -> Result<Vec<u8>, AllocError> {
        let mut bytes = Vec::new(alloc);
        for at in 0..length {
            bytes.push((at % 251) as u8)?;
        }
        Ok(bytes)
    }

    // Whether a source over these bytes gives all of them.
    fn is_read(alloc: Global, bytes: &[u8]) -> bool {
        match read_all(alloc, &mut StdSource::new(bytes)) {
            Ok(read) => read.as_slice() == bytes,
            Err(_) => false,
        }
    }

    // Whether a call for at most so many bytes gives the first ones of these.
    fn is_begun(bytes: &[u8], room: usize) -> bool {
        let mut into = [0u8; 301];
        if room == 0 || room > 301 {
            return false;
        }
        match StdSource::new(bytes).read(&mut into[..room]) {
            Ok(n) => n == room && n <= bytes.len() && into[..n] == bytes[..n],
            Err(_) => false,
        }
    }

    // Whether a sink takes this piece whole, once in one call and once more behind itself.
    fn is_taken(alloc: Global, piece: &[u8]) -> Result<bool, AllocError> {
        let mut sink = StdSink::new(Vec::new(alloc));
        let Ok(n) = sink.write(piece) else {
            return Ok(false);
        };
        if write_all(&mut sink, piece).is_err() {
            return Ok(false);
        }
        let mut twice = Vec::from_slice(alloc, piece)?;
        twice.extend_from_slice(piece)?;
        Ok(n == piece.len() && sink.writer.as_slice() == twice.as_slice())
    }

    #[test]
    fn pieces_of_each_length_go_through(rt: HostRuntime) -> Result<(), Fail> {
        let long = bytes_of(rt.alloc(), 302)?;
        for length in 0..301usize {
            let bytes = bytes_of(rt.alloc(), length)?;
            assert!(rt; is_read(rt.alloc(), &bytes), "{length}");
            assert!(rt; is_begun(&long, length + 1), "{length}");
            assert!(rt; is_taken(rt.alloc(), &bytes)?, "{length}");
        }
        Ok(())
    }

    #[test]
    fn an_input_is_too_long_at_its_byte(rt: HostRuntime) -> Result<(), Fail> {
        let mut bytes = vec![in rt.alloc(); b'a'; MOST_BYTES]?;
        assert!(rt; is_read(rt.alloc(), &bytes));
        bytes.push(b'a')?;
        let fault = read_all(rt.alloc(), &mut StdSource::new(bytes.as_slice())).err();
        assert_eq!(rt; fault, Some(Intake::TooLong));
        Ok(())
    }

    // What a sink holds when the line of this text is written.
    fn line(alloc: Global, text: &str) -> Option<Vec<u8>> {
        let mut sink = StdSink::new(Vec::new(alloc));
        write_line(&mut sink, text).ok()?;
        Some(sink.writer)
    }

    #[test]
    fn a_text_has_a_line_and_no_text_none(rt: HostRuntime) {
        for (text, wanted) in [("", b"".as_slice()), ("too long", b"too long\n")] {
            let written = line(rt.alloc(), text).expect(&rt, "a line");
            assert_eq!(rt; written.as_slice(), wanted);
        }
    }
}
