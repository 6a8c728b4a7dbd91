// The real source and sink. They tell nothing of their bytes.
ghost use Rattle.std.specs.Prelude.{◌≡◌};

use crate::judge::{judge, require_some};
use ss_outside::{Failed, Sink, Source};
use std::io::{self, Read};

/// Standard input.
#[derive(Drop)]
pub struct StdSource<'a, R> {
    rt: &'a R,
    faults: u64,
    // How many bytes were read, at most the greatest number.
    taken: u64,
    why: Option<io::Error>,
}

impl<'a, R: Input> StdSource<'a, R> {
    pub fn new(rt: &'a R) -> StdSource<'a, R>
        ensures count { (result.faults ≡ 0) × (result.taken ≡ 0) }
    {
        StdSource {
            rt,
            faults: 0,
            taken: 0,
            why: None,
        }
    }

    /// The error of the first read that failed.
    pub fn why(&self) -> Option<io::Error> {
        self.why
    }
}

impl<R: Input> Source for StdSource<'_, R> {
    ghost use Rattle.std.specs.Prelude.{None};

    ghost left = { λ _. None };

    ghost faults = { λ s. s.faults };

    ghost taken = { λ s. s.taken };

    fn read(&mut self, into: &mut [u8]) -> Result<usize, Failed> {
        let answer = judge(self.rt.reader().read(into), &mut self.faults, &mut self.why);
        if let Ok(count) = answer {
            self.taken = self.taken.saturating_add(count as u64);
        }
        answer
    }
}

/// Standard output. A write of 0 bytes is a failure.
#[derive(Drop)]
pub struct StdSink<'a, R> {
    rt: &'a R,
    faults: u64,
    why: Option<io::Error>,
}

impl<'a, R: Print> StdSink<'a, R> {
    pub fn new(rt: &'a R) -> StdSink<'a, R>
        ensures count { result.faults ≡ 0 }
    {
        StdSink {
            rt,
            faults: 0,
            why: None,
        }
    }

    /// The error of the first write that failed.
    pub fn why(&self) -> Option<io::Error> {
        self.why
    }
}

impl<R: Print> Sink for StdSink<'_, R> {
    ghost use Rattle.std.specs.Prelude.{None};

    ghost held = { λ _. None };

    ghost faults = { λ s. s.faults };

    fn put(&mut self, piece: &[u8]) -> Result<usize, Failed> {
        judge(
            require_some(self.rt.write_some(piece)),
            &mut self.faults,
            &mut self.why,
        )
    }
}
