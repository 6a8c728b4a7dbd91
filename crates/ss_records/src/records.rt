// The records.
use crate::live::note_puts;
use crate::pages::Pages;
use crate::slot_set::SlotSet;
use ss_base::{SLOT_SIZE, Steps};
use ss_journal::{Journal, MOST_SLOTS, PAGE_SLOTS, Txn};
use ss_outside::{Disk, Failed};
use std::alloc::{AllocError, Global};
use std::marker::Model;
use std::sync::ledger::Ledger;

/// A map from 2^20 slots to 128 bytes each, which knows the slots that aren't zeros. It lies on a disk that it doesn't
/// hold: each call takes the disk, as the last such call left it. After a call that answers `Failed` no further call may
/// take the disk. Open it again.
///
/// It keeps at most 64 pages of 32 slots in memory, so that a slot of such a page is read without a call of the disk.
#[derive(Drop)]
pub struct Records {
    journal: Journal,
    // The slots that aren't zeros.
    live: SlotSet,
    pages: Pages,
}

impl Model for Records {
    ghost use Rattle.ss_records.specs.Kept.{RecordsState, AreSound};

    ghost Value = { RecordsState };

    ghost view = { λ s. record { journal = s.journal; live = s.live; cached = s.pages } };

    ghost invariant = { λ s. AreSound (record { journal = s.journal; live = s.live; cached = s.pages }) };
}

impl Records {
    ghost use Rattle.std.specs.Prelude.{◌≡◌, ◌+◌, ◌≤◌, ◌<◌, ◌↔◌, ℕ, List, [], IsTrue, IsNone, IsSome, IfSome, IfOk, OnOk, OnErr};
    ghost use Rattle.ss_outside.specs.Disk.{OfContent, SyncsAtMost};
    ghost use Rattle.ss_outside.specs.Step.{Step};
    ghost use Rattle.ss_outside.specs.Verdict.{verdict};
    ghost use Rattle.ss_journal.specs.Calls.{HasMadeRoom, HasSealed, HasSettled, HasStaged, SyncsForRoom};
    ghost use Rattle.ss_journal.specs.Puts.{slots_fit, IsTxn};
    ghost use Rattle.ss_journal.specs.Redo.{zeros};
    ghost use Rattle.ss_journal.specs.Kept.{HasStopped, IsKept, IsRunning, IsSealed, IsSettled};
    ghost use Rattle.ss_journal.specs.declared.format.TheConstants.{ENTRIES};
    ghost use Rattle.ss_records.specs.Calls.{MakesRoomFor, ReadsRecord, SealsRecords, SettlesRecords, StagesPuts};
    ghost use Rattle.ss_records.specs.Live.{live_count, lowest_free, live_after, LiveLieBelow};
    ghost use Rattle.ss_records.specs.Pages.{cached_slot, page_numbers, Recalls};
    ghost use Rattle.ss_records.specs.Kept.{uncached, AreKept, AreLiveOver, AreSound};

    /// Records over a journal that was opened, of which these slots are live. They are those of the journal's map where the slots
    /// are: who read them says so. It takes memory for the index of cached pages.
    pub fn over(alloc: Global, journal: Journal, live: SlotSet) -> Result<Records, AllocError>
        // Each live slot lies below the extent.
        requires bounded { LiveLieBelow journal.extent live }
        ensures over { IfOk result (λ records. records ≡ uncached journal live) }
        ensures kept { (content : List ℕ) → IsKept journal content → AreLiveOver journal live content → IfOk result (λ records. AreKept records content) }
    {
        let pages = Pages::new(alloc)?;
        Ok(Records {
            journal,
            live,
            pages,
        })
    }

    /// How many slots are live, that is, aren't zeros.
    pub fn live(&self) -> u32
        ensures value { result ≡ live_count self.now.live }
        ensures most { result ≤ MOST_SLOTS }
        ensures sound { AreSound self.now }
    {
        self.live.len()
    }

    /// The least slot that is free, that is, zeros. A transaction may put it.
    pub fn lowest_free(&self) -> Option<u32>
        ensures least { result ≡ lowest_free self.now.live }
        ensures full { IsNone result ↔ (live_count self.now.live ≡ MOST_SLOTS) }
        ensures few { IfSome result (λ slot. (slot < MOST_SLOTS) × (slot ≤ live_count self.now.live)) }
        ensures fits { IsRunning self.now.journal → IfSome result (λ slot. slot ≤ self.now.journal.extent) }
    {
        self.live.least_outside()
    }

    /// Formats a file that isn't formatted, or brings the entries in use into their slots and closes the first gate. It leaves
    /// the map as it is, also in a crash.
    pub fn settle<D: Disk>(&mut self, disk: &mut D) -> Result<(), Failed>
        requires running { IsRunning self.old.journal }
        requires sealed { IsSealed self.old.journal }
        requires one_disk { OfContent (D.seen disk.old) (AreKept self.old) }
        // The map stays, also in a crash at any moment of the call, and whatever is pending is made durable.
        ensures settles { Step (verdict result) (D.seen disk.old) (D.seen disk.new) (SettlesRecords self.new result) }
        ensures settled { OnOk result (HasSettled self.old.journal self.new.journal) }
        ensures live { self.new.live ≡ self.old.live }
        ensures cached { self.new.cached ≡ self.old.cached }
        ensures stopped { OnErr result (HasStopped self.new.journal) }
    {
        self.journal.settle(disk)
    }

    /// The bytes of a slot: zeros where none were put. Where its page isn't cached the whole page is read, by one call of the
    /// disk, and is cached then if there is memory for it, in place of the least recently used one where 64 are. A read that
    /// fails caches nothing. Each call ticks once.
    pub fn read<D: Disk, L: Ledger>(
        &mut self,
        disk: &mut D,
        slot: u32,
        reads: &mut Steps<L>,
    ) -> Result<[u8; SLOT_SIZE], Failed>
        requires running { IsRunning self.old.journal }
        requires slot { slot < MOST_SLOTS }
        requires one_disk { OfContent (D.seen disk.old) (AreKept self.old) }
        ensures reads { Step (verdict result) (D.seen disk.old) (D.seen disk.new) (ReadsRecord self.old self.new slot result) }
        ensures one_read { reads.new ≡ reads.old + 1 }
        // No slot behind the extent was put, and the cached pages are those from before.
        ensures unused { self.old.journal.extent ≤ slot → IfOk result (λ bytes. bytes ≡ zeros) × (self.new.cached ≡ self.old.cached) }
        ensures journal { OnOk result (self.new.journal ≡ self.old.journal) }
        ensures live { self.new.live ≡ self.old.live }
        // A slot below the extent whose page is cached is read without the disk.
        ensures uncalled { slot < self.old.journal.extent → IsSome (cached_slot self.old.cached slot) → disk.new ≡ disk.old }
        ensures recalls { slot < self.old.journal.extent → Recalls slot self.old.cached self.new.cached }
        ensures uncached { OnErr result (self.new.cached ≡ self.old.cached) }
        ensures stopped { OnErr result (HasStopped self.new.journal) }
    {
        reads.tick();
        if slot >= self.journal.extent() {
            return self.journal.read(disk, slot);
        }
        match self.pages.find(slot) {
            Some(bytes) => Ok(bytes),
            None => self.read_uncached(disk, slot),
        }
    }

    // The bytes of a slot whose page isn't cached: the page is read, and is cached then if there is memory for it. It isn't
    // inlined, since whoever has a page among its variables clears 4,096 bytes at each call, also where the page is cached.
    #[inline(never)]
    fn read_uncached<D: Disk>(&mut self, disk: &mut D, slot: u32) -> Result<[u8; SLOT_SIZE], Failed>
        requires running { IsRunning self.old.journal }
        requires slot { slot < MOST_SLOTS }
        requires uncached { cached_slot self.old.cached slot ≡ None }
        requires one_disk { OfContent (D.seen disk.old) (AreKept self.old) }
        ensures reads { Step (verdict result) (D.seen disk.old) (D.seen disk.new) (ReadsRecord self.old self.new slot result) }
        ensures journal { OnOk result (self.new.journal ≡ self.old.journal) }
        ensures live { self.new.live ≡ self.old.live }
        ensures recalls { Recalls slot self.old.cached self.new.cached }
        ensures kept { OnErr result (self.new.cached ≡ self.old.cached) }
        ensures stopped { OnErr result (HasStopped self.new.journal) }
    {
        let mut page = self.journal.read_page(disk, slot / PAGE_SLOTS)?;
        let bytes = page.slot(slot % PAGE_SLOTS);
        self.pages.keep(slot / PAGE_SLOTS, page);
        Ok(bytes)
    }

    /// Where every entry of the journal is in use, seals what is staged and brings all into the slots. It leaves the map that is
    /// shown as it is; a crash leaves that one or the map from before the staged transactions.
    pub fn make_room<D: Disk>(&mut self, disk: &mut D) -> Result<(), Failed>
        requires settled { IsSettled self.old.journal }
        requires one_disk { OfContent (D.seen disk.old) (AreKept self.old) }
        ensures makes_room { Step (verdict result) (D.seen disk.old) (D.seen disk.new) (MakesRoomFor self.old self.new result) }
        ensures syncs { Step (verdict result) (D.seen disk.old) (D.seen disk.new) (SyncsForRoom self.old.journal) }
        ensures made { OnOk result (HasMadeRoom self.old.journal self.new.journal) }
        // Where an entry is free nothing is done.
        ensures idle { self.old.journal.in_use < ENTRIES → (disk.new ≡ disk.old) × (self.new ≡ self.old) }
        ensures live { self.new.live ≡ self.old.live }
        ensures cached { OnOk result (self.new.cached ≡ self.old.cached) }
        // No page is left that may differ from the map.
        ensures uncached { OnErr result (self.new.cached ≡ []) }
        ensures stopped { OnErr result (HasStopped self.new.journal) }
    {
        if let Err(failed) = self.journal.make_room(disk) {
            self.pages.clear();
            return Err(failed);
        }
        Ok(())
    }

    /// Stages a transaction in memory, for the next `seal`: its bytes are those of its slots from now on. A slot is live then where
    /// its bytes aren't all 0. The disk stays as it is.
    pub fn stage(&mut self, txn: &Txn)
        requires settled { IsSettled self.old.journal }
        requires txn { IsTxn txn.now.items }
        // Each slot in order is at most the extent so far.
        requires fit { IsTrue (slots_fit txn.now.items self.old.journal.extent) }
        requires room { self.old.journal.in_use < ENTRIES }
        ensures stages { (content : List ℕ) → StagesPuts txn.now.items self.old self.new content }
        ensures staged { HasStaged txn.now.items self.old.journal self.new.journal }
        ensures live { self.new.live ≡ live_after txn.now.items self.old.live }
        // The same pages are cached, in the same order.
        ensures cached { page_numbers self.new.cached ≡ page_numbers self.old.cached }
    {
        self.journal.stage(txn);
        note_puts(&mut self.live, txn);
        self.pages.put_all(txn);
    }

    /// Brings all staged transactions to the disk together, by two syncs. A crash at any moment of the call leaves the map from
    /// before them or the map with all of them, and after `Ok` the latter. At `Failed` the disk may hold either.
    pub fn seal<D: Disk>(&mut self, disk: &mut D) -> Result<(), Failed>
        requires settled { IsSettled self.old.journal }
        requires one_disk { OfContent (D.seen disk.old) (AreKept self.old) }
        ensures seals { Step (verdict result) (D.seen disk.old) (D.seen disk.new) (SealsRecords self.old self.new result) }
        ensures syncs { Step (verdict result) (D.seen disk.old) (D.seen disk.new) (SyncsAtMost 2) }
        ensures sealed { OnOk result (HasSealed self.old.journal self.new.journal) }
        // Where nothing is staged nothing is done.
        ensures idle { IsSealed self.old.journal → (disk.new ≡ disk.old) × (self.new ≡ self.old) }
        ensures live { self.new.live ≡ self.old.live }
        ensures cached { OnOk result (self.new.cached ≡ self.old.cached) }
        // No page is left that may differ from the map.
        ensures uncached { OnErr result (self.new.cached ≡ []) }
        ensures stopped { OnErr result (HasStopped self.new.journal) }
    {
        if let Err(failed) = self.journal.seal(disk) {
            self.pages.clear();
            return Err(failed);
        }
        Ok(())
    }
}
