// Where bytes go.
ghost use Rattle.std.specs.Prelude.{◌<◌, ◌≤◌, ℕ, List, Option, length, IfOk};
ghost use Rattle.ss_outside.specs.Verdict.{HasCause};
ghost use Rattle.ss_outside.specs.Sink.{Appends};

use crate::Failed;

/// Where bytes go: a file, a terminal, a list in memory.
pub trait Sink {
    /// The bytes held, in order, or `None` at a sink that doesn't tell them, as a terminal.
    ghost held: { Self → Option (List ℕ) };

    /// How many calls have failed, a number of 64 bits that stands still at its greatest.
    ghost faults: { Self → ℕ };

    /// Takes at least one byte from the front of the piece, and answers how many. `Failed` takes none, and a later call
    /// may succeed.
    fn put(&mut self, piece: &[u8]) -> Result<usize, Failed>
        requires { 0 < length piece.now }
        ensures bound { IfOk result (λ k. (0 < k) × (k ≤ length piece.now)) }
        ensures appends { Appends (held self.old) (held self.new) result piece.now }
        ensures cause { HasCause (faults self.old) (faults self.new) result };
}
