// A disk that tells nothing.
ghost use Rattle.std.specs.Prelude.{◌≡◌, ◌+◌, ◌≤◌, length};
ghost use Rattle.ss_outside.specs.Verdict.{HasCause};

use ss_outside::{Choice, Disk, Failed, LONGEST_DISK, MemDisk};
use std::alloc::AllocError;

/// A disk in memory that tells nothing of its bytes, as a file. A write past its end fails.
#[derive(Drop)]
pub struct Silent {
    inner: MemDisk,
    faults: u64,
}

impl Silent {
    pub fn new(inner: MemDisk) -> Silent {
        Silent { inner, faults: 0 }
    }

    /// How many calls were made, and how many of them were syncs that worked.
    pub fn calls(&self) -> (u64, u64) {
        (self.inner.calls(), self.inner.syncs())
    }

    /// Whether both have the same bytes.
    pub fn is_like(&self, other: &Silent) -> bool {
        self.inner.content() == other.inner.content()
    }

    /// After so many calls more each one fails.
    pub fn stop_after(&mut self, calls: u64) {
        let first = self.inner.calls().saturating_add(calls);
        self.inner.stop_from(first);
    }

    /// What a crash leaves.
    pub fn crash(&self, choice: Choice) -> Result<Silent, AllocError> {
        Ok(Silent::new(self.inner.crash(choice)?))
    }

    /// Overwrites bytes near the beginning, as another program may, and says whether it did.
    pub fn spoil(&mut self, at: u32, bytes: &[u8]) -> bool {
        at < 1_000_000 && bytes.len() <= 128 && self.write_at(u64::from(at), bytes).is_ok()
    }

    // Writes where a disk in memory can.
    fn write(&mut self, at: u64, bytes: &[u8]) -> Result<(), Failed>
        requires { at + length bytes.now ≤ LONGEST_DISK }
        ensures { self.new.faults ≡ self.old.faults }
    {
        if at > self.inner.content().len() as u64 {
            return Err(Failed);
        }
        self.inner.write_at(at, bytes)
    }
}

// What is answered. A fault is counted.
fn count<T: Drop>(answer: Result<T, Failed>, faults: &mut u64) -> Result<T, Failed>
    ensures { HasCause faults.old faults.new result }
{
    if answer.is_err() {
        *faults = faults.saturating_add(1);
    }
    answer
}

impl Disk for Silent {
    ghost use Rattle.std.specs.Prelude.{[], false};
    ghost use Rattle.std.proofs.lemmas.Bool.{false≢true};

    ghost seen = { λ s. record {
      tells = false;
      told = record { content = []; may_leave = λ _. ⊥; moment = 0; left_since = λ _ _. ⊥; syncs = 0 };
      faults = s.faults;
    } };

    ghost knows_now = { λ _ told. absurd (false≢true told) };

    fn len(&mut self) -> Result<u64, Failed> {
        let answer = self.inner.len();
        count(answer, &mut self.faults)
    }

    fn read_at(&mut self, at: u64, into: &mut [u8]) -> Result<(), Failed> {
        let answer = self.inner.read_at(at, into);
        count(answer, &mut self.faults)
    }

    fn write_at(&mut self, at: u64, bytes: &[u8]) -> Result<(), Failed> {
        let answer = self.write(at, bytes);
        count(answer, &mut self.faults)
    }

    fn sync(&mut self) -> Result<(), Failed> {
        let answer = self.inner.sync();
        count(answer, &mut self.faults)
    }
}
