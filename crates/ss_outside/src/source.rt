// Where bytes come from.
ghost use Rattle.std.specs.Prelude.{◌<◌, ◌≤◌, ℕ, List, Option, length, IfOk};
ghost use Rattle.ss_outside.specs.Verdict.{HasCause};
ghost use Rattle.ss_outside.specs.Source.{Moves, Takes};

/// A call of a device failed. It carries no reason: which device failed shows in that device's count of faults, which
/// rises.
#[derive(Clone, Copy, Debug, PartialEq, Eq)]
pub struct Failed;

/// Where bytes come from: a file, a terminal, a list in memory.
pub trait Source {
    /// The bytes that are left, in order, or `None` at a source that doesn't tell them, as a terminal.
    ghost left: { Self → Option (List ℕ) };

    /// How many calls have failed, a number of 64 bits that stands still at its greatest.
    ghost faults: { Self → ℕ };

    /// How many bytes its reads have moved, whether it tells them or not, a number of 64 bits that stands still at its
    /// greatest.
    ghost taken: { Self → ℕ };

    /// Moves some of the bytes that are left, in order, to the front of the buffer, and answers how many. 0 says that
    /// none is left. `Failed` moves none, and a later call may succeed. After the bytes that were moved, the buffer
    /// may hold anything.
    fn read(&mut self, into: &mut [u8]) -> Result<usize, Failed>
        requires { 0 < length into.old }
        ensures bound { IfOk result (λ k. k ≤ length into.old) }
        ensures moves { Moves (left self.old) (left self.new) result into.new }
        ensures cause { HasCause (faults self.old) (faults self.new) result }
        ensures takes { Takes (taken self.old) (taken self.new) result };
}
