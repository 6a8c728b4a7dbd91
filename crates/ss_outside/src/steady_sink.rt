// A sink in memory that fails only where memory runs out.
use crate::{Failed, Sink};
use std::alloc::{AllocError, Global};
use std::marker::Model;

/// A sink that holds its bytes in memory and takes each piece whole. It grows as it is used: a put that finds no memory to
/// grow fails. None does while what `reserve` took ahead is enough for it.
#[derive(Drop)]
pub struct SteadySink {
    bytes: Vec<u8>,
    // For how many more bytes memory was taken ahead.
    spare: usize,
    // How many puts failed.
    short: u64,
}

impl Model for SteadySink {
    ghost use Rattle.std.specs.Prelude.{◌+◌, ◌≤◌, length, vec_capacity};
    ghost use Rattle.ss_outside.specs.Memory.{SteadySinkState};

    ghost Value = { SteadySinkState };

    ghost view = { λ s. record { held = s.bytes.items; spare = s.spare; short = s.short } };

    ghost invariant = { λ s. length s.bytes.items + s.spare ≤ vec_capacity s.bytes };
}

impl SteadySink {
    ghost use Rattle.std.specs.Prelude.{◌≡◌, ◌≤◌, [], IsOk, OnOk, OnErr};
    ghost use Rattle.ss_outside.specs.Memory.{CanBeSpare, steady_roomy};

    /// A sink that holds nothing. Nothing is allocated.
    pub fn new(alloc: Global) -> SteadySink
        ensures { result ≡ record { held = []; spare = 0; short = 0 } }
    {
        SteadySink {
            bytes: Vec::new(alloc),
            spare: 0,
            short: 0,
        }
    }

    /// Takes memory ahead for so many more bytes at least. It finds none only where fewer are spare.
    pub fn reserve(&mut self, bytes: u64) -> Result<(), AllocError>
        requires { CanBeSpare bytes }
        ensures reserved { OnOk result (self.new ≡ steady_roomy self.old bytes) }
        ensures enough { bytes ≤ self.old.spare → IsOk result }
        ensures kept { OnErr result (self.new ≡ self.old) }
    {
        let bytes = bytes as usize;
        self.bytes.reserve(bytes)?;
        self.spare = self.spare.max(bytes);
        Ok(())
    }

    /// The bytes held, in the order in which they were put.
    pub fn held(&self) -> &[u8]
        ensures { result.now ≡ self.now.held }
    {
        self.bytes.as_slice()
    }

    /// How many puts failed because memory ran out, a number of 64 bits that stands still at its greatest.
    pub fn short(&self) -> u64
        ensures { result ≡ self.now.short }
    {
        self.short
    }
}

impl Sink for SteadySink {
    ghost use Rattle.std.specs.Prelude.{◌≡◌, ◌<◌, ◌≤◌, length, Some, IfOk, OnOk, OnErr};
    ghost use Rattle.ss_outside.specs.Verdict.{HasCause};
    ghost use Rattle.ss_outside.specs.Sink.{Appends};
    ghost use Rattle.ss_outside.specs.Memory.{IsBeyond, steady_crowded, steady_taken};

    ghost held = { λ s. Some s.held };

    ghost faults = { λ s. s.short };

    /// Takes the piece whole. Fails only where memory is short, which `short` counts, and the spare isn't enough.
    fn put(&mut self, piece: &[u8]) -> Result<usize, Failed>
        requires { 0 < length piece.now }
        ensures bound { IfOk result (λ k. (0 < k) × (k ≤ length piece.now)) }
        ensures appends { Appends (Some self.old.held) (Some self.new.held) result piece.now }
        ensures cause { HasCause self.old.short self.new.short result }
        ensures whole { IfOk result (λ k. k ≡ length piece.now) }
        ensures taken { OnOk result (self.new ≡ steady_taken self.old piece.now) }
        ensures failed { OnErr result (IsBeyond self.old.spare piece.now × (self.new ≡ steady_crowded self.old)) }
    {
        if self.bytes.extend_from_slice(piece).is_err() {
            self.short = self.short.saturating_add(1);
            return Err(Failed);
        }
        self.spare = self.spare.saturating_sub(piece.len());
        Ok(piece.len())
    }
}
