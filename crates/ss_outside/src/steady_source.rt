// A source in memory that never fails.
use crate::{Failed, Source};
use std::marker::Model;

/// A source over bytes in memory, which gives at most `piece` bytes a read, and never fails.
#[derive(Drop)]
pub struct SteadySource {
    bytes: Vec<u8>,
    // How many of the bytes were given.
    given: usize,
    // The most bytes that a read gives.
    piece: usize,
}

impl Model for SteadySource {
    ghost use Rattle.std.specs.Prelude.{◌<◌, ◌≤◌, drop, length};
    ghost use Rattle.ss_outside.specs.Memory.{SteadySourceState};

    ghost Value = { SteadySourceState };

    ghost view = { λ s. record { left = drop s.given s.bytes.items; taken = s.given; piece = s.piece } };

    ghost invariant = { λ s. (s.given ≤ length s.bytes.items) × (0 < s.piece) };
}

impl SteadySource {
    ghost use Rattle.std.specs.Prelude.{◌≡◌, ◌<◌, ◌≤◌, drop, length, min, take};
    ghost use Rattle.ss_outside.specs.Memory.{advanced};

    /// A source with these bytes left, of which a read gives at most `piece`. Nothing is allocated.
    pub fn new(bytes: Vec<u8>, piece: usize) -> SteadySource
        requires { 0 < piece }
        ensures { result ≡ record { left = bytes.items; taken = 0; piece = piece } }
    {
        SteadySource {
            bytes,
            given: 0,
            piece,
        }
    }

    // Moves as many bytes as the piece, the buffer and what is left allow, and answers how many.
    pub(crate) fn give(&mut self, into: &mut [u8]) -> usize
        ensures count { result ≡ min (min self.old.piece (length self.old.left)) (length into.old) }
        ensures bytes { take result into.new ≡ take result self.old.left }
        ensures rest { drop result into.new ≡ drop result into.old }
        ensures moved { self.new ≡ advanced self.old result }
        ensures piece { 0 < self.old.piece }
    {
        let left = self.bytes.len() - self.given;
        let count = self.piece.min(left).min(into.len());
        let end = self.given + count;
        into[..count].copy_from_slice(&self.bytes[self.given..end]);
        self.given = end;
        count
    }
}

impl Source for SteadySource {
    ghost use Rattle.std.specs.Prelude.{◌≡◌, ◌<◌, ◌≤◌, drop, length, min, Some, IsOk, IfOk};
    ghost use Rattle.ss_outside.specs.Verdict.{HasCause};
    ghost use Rattle.ss_outside.specs.Source.{Moves, Takes};
    ghost use Rattle.ss_outside.specs.Memory.{advanced};

    ghost left = { λ s. Some s.left };

    ghost faults = { λ s. 0 };

    ghost taken = { λ s. s.taken };

    /// Gives as many bytes as the piece, the buffer and what is left allow. Of the buffer only these change.
    fn read(&mut self, into: &mut [u8]) -> Result<usize, Failed>
        requires { 0 < length into.old }
        ensures bound { IfOk result (λ k. k ≤ length into.old) }
        ensures moves { Moves (Some self.old.left) (Some self.new.left) result into.new }
        ensures cause { HasCause 0 0 result }
        ensures takes { Takes self.old.taken self.new.taken result }
        ensures answered { IsOk result }
        ensures count { IfOk result (λ k. k ≡ min (min self.old.piece (length self.old.left)) (length into.old)) }
        ensures rest { IfOk result (λ k. drop k into.new ≡ drop k into.old) }
        ensures moved { IfOk result (λ k. self.new ≡ advanced self.old k) }
    {
        Ok(self.give(into))
    }
}
