// Reading the slots below the extent, page by page.
ghost use Rattle.std.specs.Prelude.{◌≡◌, ◌+◌, ◌/◌, ◌%◌, ◌<◌, ◌≤◌, IfOk, IfSome, IfNone, OnOk, Some};
ghost use Rattle.std.specs.Prelude.{[], ◌∷◌, ◌++◌, vec_len, vec_capacity};
ghost use Rattle.ss_outside.specs.Disk.{OfContent};
ghost use Rattle.ss_outside.specs.Step.{Step};
ghost use Rattle.ss_journal.specs.Kept.{IsKept, IsRunning, IsSealed};
ghost use Rattle.ss_journal.specs.Redo.{SlotMap};
ghost use Rattle.ss_journal.specs.declared.format.TheConstants.{MOST_SLOTS};
ghost use Rattle.ss_records.specs.Pages.{IsPage};
ghost use Rattle.ss_codec.specs.Decoded.{decoded};
ghost use Rattle.ss_recover.specs.Gathered.{AreFoundBelow, AreGathered, FindsOut, FindsTo, GathersAs, SpellsNone};
ghost use Rattle.ss_recover.specs.Rebuilt.{verdict_of_rebuild};
ghost use Rattle.ss_recover.specs.Usable.{IsUsable};

use crate::RecoverError;
use crate::found::Found;
use ss_base::SLOT_SIZE;
use ss_codec::{Record, decode};
use ss_journal::{Journal, PAGE_SLOTS, Page};
use ss_outside::{Disk, Failed};
use ss_records::{SlotSet, are_zeros};
use std::alloc::{AllocError, Global};

// What was read of the slots below one: the records in them, in the order of the slots, and which of the slots are live.
#[derive(Drop)]
pub struct Gathered {
    pub all: Vec<Found>,
    pub live: SlotSet,
}

// The record that the bytes of a live slot spell.
fn record_in(bytes: &[u8; SLOT_SIZE]) -> Option<Record>
    ensures some { IfSome result (λ r. decoded bytes.now ≡ Some r) }
    ensures usable { IfSome result IsUsable }
    ensures none { IfNone result (SpellsNone bytes.now) }
{
    let record = decode(bytes)?;
    match record {
        Record::Free => None,
        Record::Stream { .. }
        | Record::Window { .. }
        | Record::Landmark { .. }
        | Record::Value { .. } => Some(record),
    }
}

// Puts one after those that were found, where there is room for it. `push` doesn't say that it stays in this room, and `insert` does.
fn add<T: Drop>(all: &mut Vec<T>, found: T)
    requires { vec_len all.old < vec_capacity all.old }
    ensures added { all.new.items ≡ all.old.items ++ found ∷ [] }
    ensures room { vec_capacity all.new ≡ vec_capacity all.old }
{
    let end = all.len();
    let _ = all.insert(end, found);
}

impl Gathered {
    // Nothing, with room for so many records.
    fn new(alloc: Global, most: u32) -> Result<Gathered, AllocError>
        ensures gathered { IfOk result (AreGathered 0) }
        ensures found { (found : SlotMap) → IfOk result (λ read. AreFoundBelow 0 read found) }
        ensures room { IfOk result (λ read. vec_capacity read.all ≡ most) }
    {
        Ok(Gathered {
            all: Vec::with_capacity(alloc, most as usize)?,
            live: SlotSet::new(alloc)?,
        })
    }

    // The next slot, which has these bytes. The error is the slot, whose bytes spell no record.
    fn take(&mut self, slot: u32, bytes: &[u8; SLOT_SIZE]) -> Result<(), u32>
        requires slot { slot < MOST_SLOTS }
        requires room { slot < vec_capacity self.old.all }
        requires gathered { AreGathered slot self.old }
        ensures gathered { OnOk result (AreGathered (slot + 1) self.new) }
        ensures found { (found : SlotMap) → bytes.now ≡ found.bytes slot → AreFoundBelow slot self.old found →
            FindsTo (slot + 1) self.new found result }
        ensures room { vec_capacity self.new.all ≡ vec_capacity self.old.all }
    {
        if are_zeros(bytes) {
            return Ok(());
        }
        match record_in(bytes) {
            Some(holds) => {
                self.live.put(slot as usize, true);
                add(&mut self.all, Found { slot, holds });
                Ok(())
            }
            None => Err(slot),
        }
    }

    // The slots of a page, whose first is `from`, up to another one.
    fn take_page(&mut self, from: u32, to: u32, page: &mut Page) -> Result<(), u32>
        requires first { from % PAGE_SLOTS ≡ 0 }
        requires within { from ≤ to × to ≤ from + PAGE_SLOTS × to ≤ MOST_SLOTS }
        requires room { to ≤ vec_capacity self.old.all }
        requires gathered { AreGathered from self.old }
        ensures gathered { OnOk result (AreGathered to self.new) }
        ensures found { (found : SlotMap) → IsPage found.bytes (from / PAGE_SLOTS) page.old → AreFoundBelow from self.old found →
            FindsTo to self.new found result }
        ensures room { vec_capacity self.new.all ≡ vec_capacity self.old.all }
    {
        for slot in from..to {
            let bytes = page.slot(slot % PAGE_SLOTS);
            self.take(slot, &bytes)?;
        }
        Ok(())
    }
}

// All slots below the extent, each page of them read once. It has room for as many records as there are slots.
pub fn gather<D: Disk>(
    alloc: Global,
    journal: &mut Journal,
    disk: &mut D,
) -> Result<Gathered, RecoverError>
    requires running { IsRunning journal.old }
    requires sealed { IsSealed journal.old }
    requires one_disk { OfContent (D.seen disk.old) (IsKept journal.old) }
    ensures gathers { Step (verdict_of_rebuild result) (D.seen disk.old) (D.seen disk.new) (FindsOut (λ found. GathersAs found result)) }
    ensures gathered { IfOk result (AreGathered journal.old.extent) }
    ensures journal { OnOk result (journal.new ≡ journal.old) }
{
    let end = journal.extent();
    let mut read = Gathered::new(alloc, end)?;
    let mut slot = 0;
    while slot < end {
        let next = end.min(slot + PAGE_SLOTS);
        let mut page = match journal.read_page(disk, slot / PAGE_SLOTS) {
            Ok(page) => page,
            Err(Failed) => return Err(RecoverError::Disk),
        };
        if let Err(n) = read.take_page(slot, next, &mut page) {
            return Err(RecoverError::BadSlot { n });
        }
        slot = next;
    }
    Ok(read)
}
