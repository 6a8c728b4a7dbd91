// The calls of a disk in memory, as data.
use crate::LONGEST_DISK;
use crate::bytes_at::{fill_at, overwrite_at};
use std::alloc::{AllocError, Global};
use std::marker::Model;

// A call that changed something. Its bytes lie in the pool, from `from` on.
#[derive(Clone, Copy)]
enum Change {
    Bytes {
        at: usize,
        from: usize,
        count: usize,
    },
    Torn {
        at: usize,
        count: usize,
    },
    Sync,
}

// What a disk in memory went through since it was made. There is room for so many more calls and for so many more of
// their bytes.
#[derive(Drop)]
pub(crate) struct Past {
    changes: Vec<Change>,
    pool: Vec<u8>,
    spare_calls: usize,
    spare_bytes: usize,
}

impl Model for Past {
    ghost use Rattle.std.specs.Prelude.{◌+◌, ◌≤◌, map, length, All, vec_capacity};
    ghost use Rattle.ss_outside.specs.Past.{PastState, call_of, LiesWithin};

    ghost Value = { PastState };

    ghost view = { λ p. record {
      calls = map (call_of p.pool.items) p.changes.items;
      spare_calls = p.spare_calls;
      spare_bytes = p.spare_bytes;
    } };

    ghost invariant = { λ p. All (LiesWithin (length p.pool.items)) p.changes.items
        × (length p.changes.items + p.spare_calls ≤ vec_capacity p.changes)
        × (length p.pool.items + p.spare_bytes ≤ vec_capacity p.pool) };
}

impl Past {
    ghost use Rattle.std.specs.Prelude.{◌≡◌, ◌+◌, ◌≤◌, [], length, take, drop, IsOk, IfOk, OnOk, OnErr};
    ghost use Rattle.ss_outside.specs.MemDisk.{Wrote, Tore, Synced, fresh, good_syncs, replay};
    ghost use Rattle.ss_outside.specs.Past.{CountsToSync, with_call, with_spare};
    ghost use Rattle.ss_outside.specs.Choice.{IsFilled};

    pub(crate) fn new(alloc: Global) -> Past
        ensures { result ≡ record { calls = []; spare_calls = 0; spare_bytes = 0 } }
    {
        Past {
            changes: Vec::new(alloc),
            pool: Vec::new(alloc),
            spare_calls: 0,
            spare_bytes: 0,
        }
    }

    pub(crate) fn write(&mut self, at: usize, bytes: &[u8]) -> Result<(), AllocError>
        requires { at + length bytes.now ≤ LONGEST_DISK }
        ensures added { OnOk result (self.new ≡ with_call self.old (Wrote at bytes.now)) }
        ensures kept { OnErr result (self.new ≡ self.old) }
        ensures enough { 1 ≤ self.old.spare_calls → length bytes.now ≤ self.old.spare_bytes → IsOk result }
    {
        let from = self.pool.len();
        let count = bytes.len();
        self.changes.reserve(1)?;
        self.pool.extend_from_slice(bytes)?;
        self.changes.push(Change::Bytes { at, from, count })?;
        self.spare_calls = self.spare_calls.saturating_sub(1);
        self.spare_bytes = self.spare_bytes.saturating_sub(count);
        Ok(())
    }

    pub(crate) fn tear(&mut self, at: usize, count: usize) -> Result<(), AllocError>
        requires { at + count ≤ LONGEST_DISK }
        ensures added { OnOk result (self.new ≡ with_call self.old (Tore at count)) }
        ensures kept { OnErr result (self.new ≡ self.old) }
        ensures enough { 1 ≤ self.old.spare_calls → IsOk result }
    {
        self.changes.push(Change::Torn { at, count })?;
        self.spare_calls = self.spare_calls.saturating_sub(1);
        Ok(())
    }

    pub(crate) fn sync(&mut self) -> Result<(), AllocError>
        ensures added { OnOk result (self.new ≡ with_call self.old Synced) }
        ensures kept { OnErr result (self.new ≡ self.old) }
        ensures enough { 1 ≤ self.old.spare_calls → IsOk result }
    {
        self.changes.push(Change::Sync)?;
        self.spare_calls = self.spare_calls.saturating_sub(1);
        Ok(())
    }

    // Takes memory for so many more calls, and for so many more of their bytes.
    pub(crate) fn reserve(&mut self, calls: usize, bytes: usize) -> Result<(), AllocError>
        ensures reserved { OnOk result (self.new ≡ with_spare self.old calls bytes) }
        ensures enough { calls ≤ self.old.spare_calls → bytes ≤ self.old.spare_bytes → IsOk result }
        ensures kept { OnErr result (self.new ≡ self.old) }
    {
        self.changes.reserve(calls)?;
        self.pool.reserve(bytes)?;
        self.spare_calls = self.spare_calls.max(calls);
        self.spare_bytes = self.spare_bytes.max(bytes);
        Ok(())
    }

    // How many of the calls came up to the last good sync.
    pub(crate) fn synced(&self) -> usize
        ensures { CountsToSync result self.now.calls }
    {
        let mut synced = 0;
        for (k, change) in self.changes.iter().enumerate() {
            if let Change::Sync = change {
                synced = k + 1;
            }
        }
        synced
    }

    // How many of the calls were good syncs.
    pub(crate) fn syncs(&self) -> u64
        ensures { result ≡ good_syncs self.now.calls }
    {
        let mut syncs = 0;
        for change in self.changes.iter() {
            if let Change::Sync = change {
                syncs += 1;
            }
        }
        syncs
    }

    // The content after so many of the calls.
    pub(crate) fn content_after(
        &self,
        alloc: Global,
        start: &[u8],
        calls: usize,
    ) -> Result<Vec<u8>, AllocError>
        requires { calls ≤ length self.now.calls }
        ensures { IfOk result (λ v. v.items ≡ (replay (fresh start.now) (take calls self.now.calls)).content) }
    {
        let mut content = start.to_vec(alloc)?;
        for change in &self.changes[..calls] {
            if let Change::Bytes { at, from, count } = *change {
                overwrite_at(&mut content, at, &self.pool[from..from + count])?;
            }
        }
        Ok(content)
    }

    // Puts the byte at the places that the calls past the first `synced` leave free.
    pub(crate) fn fill(
        &self,
        synced: usize,
        image: &mut Vec<u8>,
        byte: u8,
    ) -> Result<(), AllocError>
        requires { CountsToSync synced self.now.calls }
        ensures { OnOk result (IsFilled (replay (fresh image.old.items) (drop synced self.now.calls)) byte image.new.items) }
    {
        for change in &self.changes[synced..] {
            match *change {
                Change::Bytes { at, count, .. } => fill_at(image, at, count, byte)?,
                Change::Torn { at, count } => fill_at(image, at, count, byte)?,
                Change::Sync => {}
            }
        }
        Ok(())
    }
}
