// A disk that counts its calls.
use crate::calls::Calls;
use ss_outside::{Disk, Failed};

/// The inner disk, and the calls that were made of it, also those that failed.
#[derive(Drop)]
pub struct Counted<D> {
    pub inner: D,
    pub calls: Calls,
}

impl<D: Disk> Disk for Counted<D> {
    ghost seen = { λ s. D.seen s.inner };

    ghost knows_now = { λ s. D.knows_now s.inner };

    fn len(&mut self) -> Result<u64, Failed> {
        self.calls.reads = self.calls.reads.saturating_add(1);
        self.inner.len()
    }

    fn read_at(&mut self, at: u64, into: &mut [u8]) -> Result<(), Failed> {
        self.calls.reads = self.calls.reads.saturating_add(1);
        self.inner.read_at(at, into)
    }

    fn write_at(&mut self, at: u64, bytes: &[u8]) -> Result<(), Failed> {
        self.calls.writes = self.calls.writes.saturating_add(1);
        self.calls.bytes = self.calls.bytes.saturating_add(bytes.len() as u64);
        self.inner.write_at(at, bytes)
    }

    fn sync(&mut self) -> Result<(), Failed> {
        self.calls.syncs = self.calls.syncs.saturating_add(1);
        self.inner.sync()
    }
}
