// A source in memory.
use crate::{Failed, Source, SteadySource};
use std::alloc::Global;
use std::marker::Model;

/// A source over bytes in memory, which gives at most `piece` bytes a read, and fails at the reads that `fail_at` lists.
#[derive(Drop)]
pub struct MemSource {
    steady: SteadySource,
    // The numbers of the reads that fail.
    failing: Vec<u64>,
    // How many reads were made, and how many of them failed.
    calls: u64,
    faults: u64,
}

impl Model for MemSource {
    ghost use Rattle.ss_outside.specs.Memory.{SourceState};

    ghost Value = { SourceState };

    ghost view = { λ s. record {
      left = s.steady.left;
      taken = s.steady.taken;
      piece = s.steady.piece;
      failing = s.failing.items;
      calls = s.calls;
      faults = s.faults;
    } };
}

impl MemSource {
    ghost use Rattle.std.specs.Prelude.{◌≡◌, ◌<◌, []};

    /// A source with these bytes left, of which a read gives at most `piece`. No read is listed as failing, and nothing
    /// is allocated.
    pub fn new(alloc: Global, bytes: Vec<u8>, piece: usize) -> MemSource
        requires { 0 < piece }
        ensures { result ≡ record { left = bytes.items; taken = 0; piece = piece; failing = []; calls = 0; faults = 0 } }
    {
        MemSource {
            steady: SteadySource::new(bytes, piece),
            failing: Vec::new(alloc),
            calls: 0,
            faults: 0,
        }
    }

    /// Lists the reads that fail, numbered from 0 since the source was made. They take the place of those listed before.
    pub fn fail_at(&mut self, calls: Vec<u64>)
        ensures { self.new ≡ record self.old { failing = calls.items } }
    {
        self.failing = calls;
    }
}

impl Source for MemSource {
    ghost use Rattle.std.specs.Prelude.{◌≡◌, ◌<◌, ◌≤◌, ◌↔◌, drop, length, min, Some, Contains, IsErr, IfOk, OnOk, OnErr};
    ghost use Rattle.ss_outside.specs.Verdict.{HasCause};
    ghost use Rattle.ss_outside.specs.Source.{Moves, Takes};
    ghost use Rattle.ss_outside.specs.Memory.{moved, unmoved};

    ghost left = { λ s. Some s.left };

    ghost faults = { λ s. s.faults };

    ghost taken = { λ s. s.taken };

    /// Fails exactly where the read is listed, and else gives as many bytes as the piece, the buffer and what is left
    /// allow. Of the buffer only the bytes that were moved change.
    fn read(&mut self, into: &mut [u8]) -> Result<usize, Failed>
        requires { 0 < length into.old }
        ensures bound { IfOk result (λ k. k ≤ length into.old) }
        ensures moves { Moves (Some self.old.left) (Some self.new.left) result into.new }
        ensures cause { HasCause self.old.faults self.new.faults result }
        ensures takes { Takes self.old.taken self.new.taken result }
        ensures listed { IsErr result ↔ Contains self.old.failing self.old.calls }
        ensures count { IfOk result (λ k. k ≡ min (min self.old.piece (length self.old.left)) (length into.old)) }
        ensures rest { IfOk result (λ k. drop k into.new ≡ drop k into.old) }
        ensures kept { OnErr result (into.new ≡ into.old) }
        ensures moved { IfOk result (λ k. self.new ≡ moved self.old k) }
        ensures failed { OnErr result (self.new ≡ unmoved self.old) }
    {
        let call = self.calls;
        self.calls = call.saturating_add(1);
        if self.failing.contains(&call) {
            self.faults = self.faults.saturating_add(1);
            return Err(Failed);
        }
        Ok(self.steady.give(into))
    }
}
