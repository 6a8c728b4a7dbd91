// A sink in memory.
use crate::{Failed, Sink, SteadySink};
use std::alloc::{AllocError, Global};
use std::marker::Model;

/// A sink that holds its bytes in memory, takes each piece whole, and fails at the puts that `fail_at` lists. It grows
/// as it is used: a put that finds no memory to grow fails too. None does while what `reserve` took ahead is enough for it.
#[derive(Drop)]
pub struct MemSink {
    steady: SteadySink,
    // The numbers of the puts that fail.
    failing: Vec<u64>,
    // How many puts were made, and how many of them failed.
    calls: u64,
    faults: u64,
}

impl Model for MemSink {
    ghost use Rattle.ss_outside.specs.Memory.{SinkState};

    ghost Value = { SinkState };

    ghost view = { λ s. record {
      held = s.steady.held;
      spare = s.steady.spare;
      failing = s.failing.items;
      calls = s.calls;
      faults = s.faults;
      short = s.steady.short;
    } };
}

impl MemSink {
    ghost use Rattle.std.specs.Prelude.{◌≡◌, ◌≤◌, [], IsOk, OnOk, OnErr};
    ghost use Rattle.ss_outside.specs.Memory.{CanBeSpare, roomy};

    /// A sink that holds nothing. No put is listed as failing, and nothing is allocated.
    pub fn new(alloc: Global) -> MemSink
        ensures { result ≡ record { held = []; spare = 0; failing = []; calls = 0; faults = 0; short = 0 } }
    {
        MemSink {
            steady: SteadySink::new(alloc),
            failing: Vec::new(alloc),
            calls: 0,
            faults: 0,
        }
    }

    /// Lists the puts that fail, numbered from 0 since the sink was made. They take the place of those listed before.
    pub fn fail_at(&mut self, calls: Vec<u64>)
        ensures { self.new ≡ record self.old { failing = calls.items } }
    {
        self.failing = calls;
    }

    /// Takes memory ahead for so many more bytes at least. It finds none only where fewer are spare.
    pub fn reserve(&mut self, bytes: u64) -> Result<(), AllocError>
        requires { CanBeSpare bytes }
        ensures reserved { OnOk result (self.new ≡ roomy self.old bytes) }
        ensures enough { bytes ≤ self.old.spare → IsOk result }
        ensures kept { OnErr result (self.new ≡ self.old) }
    {
        self.steady.reserve(bytes)
    }

    /// The bytes held, in the order in which they were put.
    pub fn held(&self) -> &[u8]
        ensures { result.now ≡ self.now.held }
    {
        self.steady.held()
    }

    /// How many puts failed because memory ran out, a number of 64 bits that stands still at its greatest.
    pub fn short(&self) -> u64
        ensures { result ≡ self.now.short }
    {
        self.steady.short()
    }
}

impl Sink for MemSink {
    ghost use Rattle.std.specs.Prelude.{◌≡◌, ◌⊎◌, ◌<◌, ◌≤◌, length, Some, Contains, IsErr, IfOk, OnOk, OnErr};
    ghost use Rattle.ss_outside.specs.Verdict.{HasCause};
    ghost use Rattle.ss_outside.specs.Sink.{Appends};
    ghost use Rattle.ss_outside.specs.Memory.{IsBeyond, crowded, sink_taken, untaken};

    ghost held = { λ s. Some s.held };

    ghost faults = { λ s. s.faults };

    /// Takes the piece whole. Fails where the put is listed, and else only where memory is short, which `short` counts, and
    /// the spare isn't enough.
    fn put(&mut self, piece: &[u8]) -> Result<usize, Failed>
        requires { 0 < length piece.now }
        ensures bound { IfOk result (λ k. (0 < k) × (k ≤ length piece.now)) }
        ensures appends { Appends (Some self.old.held) (Some self.new.held) result piece.now }
        ensures cause { HasCause self.old.faults self.new.faults result }
        ensures whole { IfOk result (λ k. k ≡ length piece.now) }
        ensures listed { Contains self.old.failing self.old.calls → IsErr result }
        ensures taken { OnOk result (self.new ≡ sink_taken self.old piece.now) }
        ensures failed { OnErr result ((Contains self.old.failing self.old.calls × (self.new ≡ untaken self.old))
            ⊎ (¬ Contains self.old.failing self.old.calls × IsBeyond self.old.spare piece.now × (self.new ≡ crowded self.old))) }
    {
        let call = self.calls;
        self.calls = call.saturating_add(1);
        if self.failing.contains(&call) {
            self.faults = self.faults.saturating_add(1);
            return Err(Failed);
        }
        let put = self.steady.put(piece);
        if put.is_err() {
            self.faults = self.faults.saturating_add(1);
        }
        put
    }
}
