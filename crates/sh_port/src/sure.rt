// A source and a sink that never fail.
ghost use Rattle.std.specs.{Prelude.{◌≡◌, ◌≤◌, ◌<◌, ◌+◌, ◌-◌, ◌^◌, [], drop, length, min, None, Some, IfOk}, Io.KnownBytes.{ReadConsumes, WriteAppends}};
ghost use Rattle.sh_port.specs.Port.{HasFaultCause};

use crate::list::copy_piece;
use crate::{Failed, Sink, Source};
use std::marker::Model;

/// A source in memory that never fails, seen as the bytes that are left.
#[derive(Drop)]
pub struct SureSource {
    bytes: Vec<u8>,
    at: usize,
}

impl Model for SureSource {
    ghost use Rattle.std.specs.Prelude.{ℕ, List, ◌≤◌, drop, vec_len};

    ghost Value = { List ℕ };

    ghost view = { λ s. drop s.at s.bytes.items };

    ghost invariant = { λ s. s.at ≤ vec_len s.bytes };
}

impl SureSource {
    /// A source of these bytes.
    pub fn new(bytes: Vec<u8>) -> Self
        ensures bytes { result ≡ bytes.items }
        ensures left { ⟦<SureSource as Source>⟧.left result ≡ Some bytes.items }
        ensures faults { ⟦<SureSource as Source>⟧.faults result ≡ 0 }
    {
        SureSource { bytes, at: 0 }
    }
}

impl Source for SureSource {
    ghost left = { λ s. Some s };

    ghost faults = { λ _. 0 };

    /// Never fails. It moves as many bytes as it can.
    fn read(&mut self, into: &mut [u8]) -> Result<usize, Failed>
        ensures bound { IfOk result (λ n. n ≤ length into.new) }
        ensures bytes { ReadConsumes (Some self.old) (Some self.new) result into.new }
        ensures cause { HasFaultCause 0 0 result }
        ensures moves { IfOk result (λ n. n ≡ min (length into.old) (length self.old)) }
        ensures moved { IfOk result (λ n. self.new ≡ drop n self.old) }
    {
        let n = copy_piece(&self.bytes[self.at..], into, into.len());
        self.at += n;
        Ok(n)
    }
}

/// A sink that never fails and keeps no bytes, seen as the number of bytes that it took. The number stays at 2^64-1
/// once that is reached.
#[derive(Drop)]
pub struct SureSink {
    taken: u64,
}

impl Model for SureSink {
    ghost use Rattle.std.specs.Prelude.{ℕ};

    ghost Value = { ℕ };

    ghost view = { λ s. s.taken };
}

impl SureSink {
    /// A sink that took nothing yet.
    pub fn new() -> Self
        ensures taken { result ≡ 0 }
        ensures held { ⟦<SureSink as Sink>⟧.held result ≡ None }
        ensures faults { ⟦<SureSink as Sink>⟧.faults result ≡ 0 }
    {
        SureSink { taken: 0 }
    }

    /// How many bytes it took.
    pub fn taken(&self) -> u64
        ensures { result ≡ self.now }
    {
        self.taken
    }
}

impl Sink for SureSink {
    ghost held = { λ _. None };

    ghost faults = { λ _. 0 };

    /// Never fails. It takes the whole piece.
    fn write(&mut self, piece: &[u8]) -> Result<usize, Failed>
        ensures bound { IfOk result (λ n. n ≤ length piece.now) }
        ensures progress { 0 < length piece.now → IfOk result (λ n. 0 < n) }
        ensures bytes { WriteAppends None None result piece.now }
        ensures cause { HasFaultCause 0 0 result }
        ensures whole { IfOk result (λ n. n ≡ length piece.now) }
        ensures taken { self.new ≡ min (self.old + length piece.now) (2 ^ 64 - 1) }
    {
        self.taken = self.taken.saturating_add(piece.len() as u64);
        Ok(piece.len())
    }
}
