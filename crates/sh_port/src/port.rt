// Where bytes come from, and where they go.
ghost use Rattle.std.specs.{Prelude.{ℕ, List, Option, ◌≤◌, ◌<◌, length, IfOk}, Io.KnownBytes.{ReadConsumes, WriteAppends}};
ghost use Rattle.sh_port.specs.Port.{HasFaultCause};

/// A call of a source or of a sink failed.
#[derive(Clone, Copy, Debug, PartialEq, Eq)]
pub struct Failed;

/// Where bytes come from.
pub trait Source {
    /// The bytes that are left, where the source tells them.
    ghost left: { Self → Option (List ℕ) };

    /// How many calls have failed. The count stays at 2^64-1 once that is reached.
    ghost faults: { Self → ℕ };

    /// Takes the next bytes that are left and puts them first into `into`: at most as many as it has, and none only
    /// at the end of the input. A failed call takes none. Condition: `into` isn't empty.
    fn read(&mut self, into: &mut [u8]) -> Result<usize, Failed>
        requires { 0 < length into.old }
        ensures bound { IfOk result (λ n. n ≤ length into.new) }
        ensures bytes { ReadConsumes (left self.old) (left self.new) result into.new }
        ensures cause { HasFaultCause (faults self.old) (faults self.new) result };
}

/// Where bytes go.
pub trait Sink {
    /// The bytes that the sink holds, where it tells them.
    ghost held: { Self → Option (List ℕ) };

    /// How many calls have failed. The count stays at 2^64-1 once that is reached.
    ghost faults: { Self → ℕ };

    /// Takes the first bytes of `piece`, behind those that it holds: at least one, if there is one. A failed call
    /// takes none.
    fn write(&mut self, piece: &[u8]) -> Result<usize, Failed>
        ensures bound { IfOk result (λ n. n ≤ length piece.now) }
        ensures progress { 0 < length piece.now → IfOk result (λ n. 0 < n) }
        ensures bytes { WriteAppends (held self.old) (held self.new) result piece.now }
        ensures cause { HasFaultCause (faults self.old) (faults self.new) result };
}
