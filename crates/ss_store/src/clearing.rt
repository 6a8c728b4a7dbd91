// The records of dropped streams.
ghost use Rattle.std.specs.Prelude.{◌≡◌, [], length, OnOk};
ghost use Rattle.ss_outside.specs.Disk.{OfContent};
ghost use Rattle.ss_outside.specs.Step.{Step};
ghost use Rattle.ss_outside.specs.Verdict.{verdict};
ghost use Rattle.ss_journal.specs.Kept.{IsSettled};
ghost use Rattle.ss_records.specs.Kept.{AreAtRest, AreKept};
ghost use Rattle.ss_stream.specs.Calls.{StagesAtCost};
ghost use Rattle.ss_stream.specs.Slots.{AreSomeLive, LiveSlotsGo};
ghost use Rattle.ss_store.specs.Clearing.{Makes};
ghost use Rattle.ss_store.specs.Clearing.{ClearsSlots, StagesClearing};

use ss_outside::{Disk, Failed};
use ss_records::Records;
use ss_stream::stage_zeros;

/// Stages the clearing of the slots of records of dropped streams, each as one transaction, in their order.
pub fn stage_clearing<D: Disk>(
    records: &mut Records,
    disk: &mut D,
    doomed: &[u32],
) -> Result<(), Failed>
    requires settled { IsSettled records.old.journal }
    requires live { AreSomeLive doomed.now records.old.live }
    requires one_disk { OfContent (D.seen disk.old) (AreKept records.old) }
    ensures clears { Step (verdict result) (D.seen disk.old) (D.seen disk.new)
        (StagesAtCost (StagesClearing doomed.now records.old records.new result) 0 (length doomed.now) records.old records.new result) }
    ensures settled { OnOk result (IsSettled records.new.journal) }
    ensures live { OnOk result (LiveSlotsGo doomed.now [] records.old.live records.new.live) }
    ensures extent { OnOk result (records.new.journal.extent ≡ records.old.journal.extent) }
{
    for slot in doomed {
        stage_zeros(records, disk, *slot)?;
    }
    Ok(())
}

/// Clears the slots of records of dropped streams, in their order. They come to the disk together, as many as the journal takes.
pub fn clear_all<D: Disk>(records: &mut Records, disk: &mut D, doomed: &[u32]) -> Result<(), Failed>
    requires at_rest { AreAtRest records.old }
    requires live { AreSomeLive doomed.now records.old.live }
    requires one_disk { OfContent (D.seen disk.old) (AreKept records.old) }
    ensures clears { Step (verdict result) (D.seen disk.old) (D.seen disk.new)
        (Makes (ClearsSlots doomed.now result) records.new result) }
    ensures at_rest { OnOk result (AreAtRest records.new) }
    ensures live { OnOk result (LiveSlotsGo doomed.now [] records.old.live records.new.live) }
    ensures extent { OnOk result (records.new.journal.extent ≡ records.old.journal.extent) }
{
    stage_clearing(records, disk, doomed)?;
    records.seal(disk)
}
