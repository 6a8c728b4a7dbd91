// A disk whose writes are noted until they are synced, so that a crash can leave some of them.
use ss_outside::{Disk, Failed};
use std::alloc::Global;

/// A write that is pending: where it begins, and what was to be written, also by a call that failed.
#[derive(Drop)]
pub struct Piece {
    pub at: u64,
    pub bytes: Vec<u8>,
}

/// A device that passes each call on to the one behind it.
#[derive(Drop)]
pub struct Noted<D> {
    alloc: Global,
    device: D,
    pending: Vec<Piece>,
    // How many calls were made, and the numbers of those that were good syncs.
    calls: u64,
    syncs: Vec<u64>,
}

impl<D> Noted<D> {
    pub fn new(alloc: Global, device: D) -> Noted<D> {
        Noted {
            alloc,
            device,
            pending: Vec::new(alloc),
            calls: 0,
            syncs: Vec::new(alloc),
        }
    }

    pub fn device(&self) -> &D {
        &self.device
    }

    pub fn device_mut(&mut self) -> &mut D {
        &mut self.device
    }

    /// What was written since the last good sync.
    pub fn pending(&self) -> &[Piece] {
        self.pending.as_slice()
    }

    /// The numbers of the calls that were good syncs.
    pub fn syncs(&self) -> &[u64] {
        self.syncs.as_slice()
    }

    /// How many calls were made.
    pub fn calls(&self) -> u64 {
        self.calls
    }
}

// Notes a write. One that finds no memory is left out: a crash then leaves fewer images to look at.
fn note(alloc: Global, pending: &mut Vec<Piece>, at: u64, bytes: &[u8]) {
    if let Ok(bytes) = bytes.to_vec(alloc) {
        let _ = pending.push(Piece { at, bytes });
    }
}

// Notes a good sync.
fn note_sync(pending: &mut Vec<Piece>, syncs: &mut Vec<u64>, call: u64) {
    pending.clear();
    let _ = syncs.push(call);
}

impl<D: Disk> Disk for Noted<D> {
    ghost seen = { λ s. D.seen s.device };

    ghost knows_now = { λ s told. D.knows_now s.device told };

    fn len(&mut self) -> Result<u64, Failed> {
        let answer = self.device.len();
        self.calls = self.calls.saturating_add(1);
        answer
    }

    fn read_at(&mut self, at: u64, into: &mut [u8]) -> Result<(), Failed> {
        let answer = self.device.read_at(at, into);
        self.calls = self.calls.saturating_add(1);
        answer
    }

    fn write_at(&mut self, at: u64, bytes: &[u8]) -> Result<(), Failed> {
        let answer = self.device.write_at(at, bytes);
        note(self.alloc, &mut self.pending, at, bytes);
        self.calls = self.calls.saturating_add(1);
        answer
    }

    fn sync(&mut self) -> Result<(), Failed> {
        let answer = self.device.sync();
        if answer.is_ok() {
            note_sync(&mut self.pending, &mut self.syncs, self.calls);
        }
        self.calls = self.calls.saturating_add(1);
        answer
    }
}
