// Fresh records, and reading a slot of them, where nothing is counted. What a step of the disk means for them is said here once.
ghost use Rattle.std.specs.Prelude.{◌≡◌, ◌<◌, IfOk, OnOk};
ghost use Rattle.ss_outside.specs.Disk.{OfContent};
ghost use Rattle.ss_journal.specs.Kept.{IsRunning, IsSealed};
ghost use Rattle.ss_journal.specs.declared.format.TheConstants.{MOST_SLOTS};
ghost use Rattle.ss_records.specs.Kept.{AreKept};
ghost use Rattle.ss_base.specs.Steps.{IsFresh};

use ss_base::{SLOT_SIZE, Steps};
use ss_journal::{Journal, JournalError};
use ss_outside::{Disk, Failed};
use ss_records::{Records, SlotSet};
use std::alloc::Global;
use std::marker::Brand;
use std::sync::ledger::{Blank, Ledger};

fn read_with<D: Disk, L: Ledger>(
    records: &mut Records,
    disk: &mut D,
    slot: u32,
    blank: Blank,
) -> Result<[u8; SLOT_SIZE], Failed>
    requires fresh { IsFresh L.name L.parts blank }
    requires running { IsRunning records.old.journal }
    requires slot { slot < MOST_SLOTS }
    requires one_disk { OfContent (D.seen disk.old) (AreKept records.old) }
    ensures one_disk { OfContent (D.seen disk.new) (λ content. OnOk result (AreKept records.new content)) }
    ensures journal { OnOk result (records.new.journal ≡ records.old.journal) }
    ensures live { records.new.live ≡ records.old.live }
{
    records.read(disk, slot, &mut Steps::<L>::new(blank))
}

/// Records over a disk that has no slot yet.
pub fn fresh<D: Disk>(alloc: Global, disk: &mut D) -> Result<Records, JournalError>
    ensures running { IfOk result (λ records. IsRunning records.journal) }
    ensures sealed { IfOk result (λ records. IsSealed records.journal) }
    ensures one_disk { OfContent (D.seen disk.new) (λ content. IfOk result (λ records. AreKept records content)) }
{
    let journal = Journal::open(alloc, disk)?;
    if journal.extent() != 0 {
        return Err(JournalError::NotAStore);
    }
    let live = SlotSet::new(alloc)?;
    let records = Records::over(alloc, journal, live)?;
    Ok(records)
}

/// The bytes of a slot.
pub fn read<D: Disk>(
    records: &mut Records,
    disk: &mut D,
    slot: u32,
) -> Result<[u8; SLOT_SIZE], Failed>
    requires running { IsRunning records.old.journal }
    requires slot { slot < MOST_SLOTS }
    requires one_disk { OfContent (D.seen disk.old) (AreKept records.old) }
    ensures one_disk { OfContent (D.seen disk.new) (λ content. OnOk result (AreKept records.new content)) }
    ensures journal { OnOk result (records.new.journal ≡ records.old.journal) }
    ensures live { records.new.live ≡ records.old.live }
{
    read_with::<D, Brand>(records, disk, slot, Blank::new(1))
}
