// The journal.
use crate::JournalError;
use crate::birth::give_birth;
use crate::checks::slot_form;
use crate::committing::add_entries;
use crate::entry::extent_after;
use crate::format::{ENTRIES, MOST_PAGES, MOST_SLOTS, PAGE_SIZE, slots_in};
use crate::group::{Group, entry_count};
use crate::kind::Kind;
use crate::newest::Newest;
use crate::opening::{read_entries, read_head};
use crate::page::Page;
use crate::paging::{clear_unused, lay_puts, read_slots};
use crate::phase::Phase;
use crate::put::Txn;
use crate::reading::read_slot;
use crate::settling::{settle_entries, settle_formed};
use ss_base::SLOT_SIZE;
use ss_outside::{Disk, Failed};
use std::alloc::Global;
use std::marker::Model;

/// A map from 2^20 slots to 128 bytes each, on a disk that it doesn't hold: each call takes the disk, as the last such
/// call left it. After a call that answers `Failed` there is no further call. Open the disk again.
#[derive(Drop)]
pub struct Journal {
    phase: Phase,
    // The slots from here on were never used.
    extent: u32,
    // How many entries are in use, and the newest of their puts, which may not have come into their slots.
    in_use: u32,
    waiting: Newest,
    // How many of these entries stand in the file, and the newest puts of those after them, which don't yet.
    sealed: u32,
    staged: Newest,
    // Room to spell these entries.
    group: Group,
    kind: Kind,
}

impl Model for Journal {
    ghost use Rattle.ss_journal.specs.Kept.{JournalState, IsBounded};

    ghost Value = { JournalState };

    ghost view = { λ s. record {
      phase = s.phase;
      extent = s.extent;
      in_use = s.in_use;
      waiting = s.waiting;
      sealed = s.sealed;
      staged = s.staged;
      kind = s.kind;
    } };

    ghost invariant = { λ s.
        IsBounded (record {
          phase = s.phase;
          extent = s.extent;
          in_use = s.in_use;
          waiting = s.waiting;
          sealed = s.sealed;
          staged = s.staged;
          kind = s.kind;
        }) };
}

impl Journal {
    ghost use Rattle.std.specs.Prelude.{◌≡◌, ◌≤◌, ◌<◌, ℕ, List, IsTrue, IfOk, OnOk, OnErr};
    ghost use Rattle.ss_outside.specs.Disk.{OfContent, SyncsAtMost};
    ghost use Rattle.ss_outside.specs.Step.{Step};
    ghost use Rattle.ss_outside.specs.Verdict.{verdict};
    ghost use Rattle.ss_journal.specs.Puts.{slots_fit, IsTxn};
    ghost use Rattle.ss_journal.specs.Redo.{zeros};
    ghost use Rattle.ss_journal.specs.Kept.{HasStopped, IsKept, IsRunning, IsSealed, IsSettled};
    ghost use Rattle.ss_journal.specs.Calls.{HasMadeRoom, HasSealed, HasSettled, HasStaged, MakesRoom, Opens, ReadsPage};
    ghost use Rattle.ss_journal.specs.Calls.{ReadsSlot, Seals, Settles, Stages, SyncsForRoom, verdict_of_open};

    /// Opens a disk, formatted or not. It reads the entries in use and writes nothing.
    pub fn open<D: Disk>(alloc: Global, disk: &mut D) -> Result<Journal, JournalError>
        // The map of the content, or why it has none. Nothing is written.
        ensures opens { Step (verdict_of_open result) (D.seen disk.old) (D.seen disk.new) (Opens result) }
        ensures running { IfOk result (λ journal. IsRunning journal × (journal.extent ≤ MOST_SLOTS)) }
        ensures sealed { IfOk result IsSealed }
    {
        let head = read_head(disk)?;
        let slots = slots_in(head.length);
        let kind = head.kind();
        if head.is_unborn() {
            return Ok(Journal {
                phase: Phase::Unborn,
                extent: slots,
                in_use: 0,
                waiting: Newest::new(alloc)?,
                sealed: 0,
                staged: Newest::new(alloc)?,
                group: Group::new(alloc)?,
                kind,
            });
        }
        if !head.is_born() {
            return Err(JournalError::NotAStore);
        }
        let read = read_entries(alloc, disk, kind, slots)?;
        Ok(Journal {
            phase: Phase::Born,
            extent: read.extent,
            in_use: read.in_use,
            waiting: read.waiting,
            sealed: read.in_use,
            staged: Newest::new(alloc)?,
            group: Group::new(alloc)?,
            kind,
        })
    }

    /// How many slots were used: those of the file, and one more for each put into the slot that was next.
    pub fn extent(&self) -> u32
        ensures value { result ≡ self.now.extent }
        ensures most { result ≤ MOST_SLOTS }
    {
        self.extent
    }

    /// Formats a file that isn't formatted. Of a formatted one it makes durable what is pending, by a sync, and then brings the
    /// entries in use into their slots and closes the first gate. It leaves the map as it is, also in a crash.
    pub fn settle<D: Disk>(&mut self, disk: &mut D) -> Result<(), Failed>
        requires running { IsRunning self.old }
        requires sealed { IsSealed self.old }
        requires one_disk { OfContent (D.seen disk.old) (IsKept self.old) }
        // The map stays, also in a crash at any moment of the call, and whatever is pending is made durable.
        ensures settles { Step (verdict result) (D.seen disk.old) (D.seen disk.new) (Settles self.new result) }
        ensures settled { OnOk result (HasSettled self.old self.new) }
        ensures stopped { OnErr result (HasStopped self.new) }
    {
        let phase = self.phase;
        self.phase = Phase::Stopped;
        match phase {
            Phase::Unborn => give_birth(disk)?,
            Phase::Born | Phase::Settled | Phase::Stopped => settle_formed(
                disk,
                self.kind,
                self.waiting.as_slice(),
            )?,
        }
        self.waiting.clear();
        self.in_use = 0;
        self.sealed = 0;
        self.phase = Phase::Settled;
        Ok(())
    }

    /// The bytes of a slot: zeros where none were put.
    pub fn read<D: Disk>(&mut self, disk: &mut D, slot: u32) -> Result<[u8; SLOT_SIZE], Failed>
        requires running { IsRunning self.old }
        requires slot { slot < MOST_SLOTS }
        requires one_disk { OfContent (D.seen disk.old) (IsKept self.old) }
        ensures reads { Step (verdict result) (D.seen disk.old) (D.seen disk.new) (ReadsSlot self.old slot result) }
        ensures unused { self.old.extent ≤ slot → IfOk result (λ bytes. bytes ≡ zeros) }
        ensures journal { OnOk result (self.new ≡ self.old) }
        ensures stopped { OnErr result (HasStopped self.new) }
    {
        if self.phase == Phase::Unborn || slot >= self.extent {
            return Ok([0; SLOT_SIZE]);
        }
        if let Some(bytes) = self.waiting.find(slot) {
            return Ok(bytes);
        }
        match read_slot(disk, slot) {
            Ok(bytes) => Ok(slot_form(self.kind, slot, bytes)),
            Err(failed) => {
                self.phase = Phase::Stopped;
                Err(failed)
            }
        }
    }

    /// A page, whose bytes are those of its 32 slots one after the other: zeros where none were put. It makes at most one call
    /// of the disk.
    pub fn read_page<D: Disk>(&mut self, disk: &mut D, page: u32) -> Result<Page, Failed>
        requires running { IsRunning self.old }
        requires page { page < MOST_PAGES }
        requires one_disk { OfContent (D.seen disk.old) (IsKept self.old) }
        ensures reads { Step (verdict result) (D.seen disk.old) (D.seen disk.new) (ReadsPage self.old page result) }
        ensures journal { OnOk result (self.new ≡ self.old) }
        ensures stopped { OnErr result (HasStopped self.new) }
    {
        if self.phase == Phase::Unborn {
            return Ok(Page::new(self.kind, page, [0; PAGE_SIZE]));
        }
        let mut bytes = [0; PAGE_SIZE];
        match read_slots(disk, page, &mut bytes) {
            Ok(()) => {
                clear_unused(&mut bytes, page, self.extent);
                let mut read = Page::new(self.kind, page, bytes);
                lay_puts(&mut read, page, self.waiting.as_slice());
                Ok(read)
            }
            Err(failed) => {
                self.phase = Phase::Stopped;
                Err(failed)
            }
        }
    }

    /// Where every entry is in use, seals those that are staged, brings all into their slots and closes the first gate. It leaves the
    /// map that the journal shows as it is; a crash leaves that one or the map from before the staged transactions.
    pub fn make_room<D: Disk>(&mut self, disk: &mut D) -> Result<(), Failed>
        requires settled { IsSettled self.old }
        requires one_disk { OfContent (D.seen disk.old) (IsKept self.old) }
        ensures makes_room { Step (verdict result) (D.seen disk.old) (D.seen disk.new) (MakesRoom self.old self.new result) }
        ensures syncs { Step (verdict result) (D.seen disk.old) (D.seen disk.new) (SyncsForRoom self.old) }
        ensures made { OnOk result (HasMadeRoom self.old self.new) }
        // Where an entry is free nothing is done.
        ensures idle { self.old.in_use < ENTRIES → (disk.new ≡ disk.old) × (self.new ≡ self.old) }
        ensures stopped { OnErr result (HasStopped self.new) }
    {
        if self.in_use < ENTRIES {
            return Ok(());
        }
        self.seal(disk)?;
        self.phase = Phase::Stopped;
        settle_entries(disk, self.kind, self.waiting.as_slice())?;
        self.waiting.clear();
        self.in_use = 0;
        self.sealed = 0;
        self.phase = Phase::Settled;
        Ok(())
    }

    /// Stages a transaction in memory, for the next `seal`: the journal shows its puts from now on. Of those that are staged the
    /// newest of each slot counts alone. The disk stays as it is.
    pub fn stage(&mut self, txn: &Txn)
        requires settled { IsSettled self.old }
        requires txn { IsTxn txn.now.items }
        // Each slot in order is at most the extent so far.
        requires fit { IsTrue (slots_fit txn.now.items self.old.extent) }
        requires room { self.old.in_use < ENTRIES }
        ensures stages { (content : List ℕ) → Stages txn.now.items self.old self.new content }
        ensures staged { HasStaged txn.now.items self.old self.new }
    {
        self.extent = extent_after(txn, self.extent);
        self.waiting.add(txn);
        self.staged.add(txn);
        self.in_use = self.sealed + entry_count(self.staged.as_slice().len());
    }

    /// Brings all staged transactions to the disk together, by two syncs. A crash at any moment of the call leaves the map from
    /// before them or the map with all of them, and after `Ok` the latter. At `Failed` the disk may hold either.
    pub fn seal<D: Disk>(&mut self, disk: &mut D) -> Result<(), Failed>
        requires settled { IsSettled self.old }
        requires one_disk { OfContent (D.seen disk.old) (IsKept self.old) }
        ensures seals { Step (verdict result) (D.seen disk.old) (D.seen disk.new) (Seals self.old self.new result) }
        // However many are staged, and whatever they put.
        ensures syncs { Step (verdict result) (D.seen disk.old) (D.seen disk.new) (SyncsAtMost 2) }
        ensures sealed { OnOk result (HasSealed self.old self.new) }
        // Where nothing is staged nothing is done.
        ensures idle { IsSealed self.old → (disk.new ≡ disk.old) × (self.new ≡ self.old) }
        ensures stopped { OnErr result (HasStopped self.new) }
    {
        if self.staged.as_slice().is_empty() {
            return Ok(());
        }
        self.phase = Phase::Stopped;
        self.group
            .spell(self.kind, self.sealed, self.staged.as_slice());
        let added = add_entries(disk, self.sealed, self.group.as_slice());
        self.staged.clear();
        self.sealed = self.in_use;
        added?;
        self.phase = Phase::Settled;
        Ok(())
    }
}
