// Staging the drop of a stream.
ghost use Rattle.std.specs.Prelude.{◌≡◌, [], ◌+◌, length, true, OnOk};
ghost use Rattle.ss_outside.specs.Disk.{OfContent};
ghost use Rattle.ss_outside.specs.Step.{Step};
ghost use Rattle.ss_outside.specs.Verdict.{verdict};
ghost use Rattle.ss_journal.specs.Kept.{IsSettled};
ghost use Rattle.ss_records.specs.Kept.{AreKept};
ghost use Rattle.ss_stream.specs.Calls.{StagesAtCost};
ghost use Rattle.ss_stream.specs.Dropping.{dropped_record, slots_in_turn};
ghost use Rattle.ss_stream.specs.Slots.{AreSomeLive, LiveSlotsGo};
ghost use Rattle.ss_store.specs.Calls.{CostsEvent};
ghost use Rattle.ss_store.specs.Dropping.{StagesDrop};

use super::Store;
use crate::ApplyError;
use crate::clearing::stage_clearing;
use ss_base::Steps;
use ss_catalog::{Name, Refusal};
use ss_model::Ack;
use ss_outside::{Disk, Failed};
use ss_parts::StreamParts;
use ss_records::Records;
use ss_stream::{dropped_record, slots_of, stage_replaced};
use std::sync::ledger::{Blank, Ledger};

// Stages the drop of a stream, which decides, and then the clearing of its slots.
fn stage_doomed<D: Disk>(
    records: &mut Records,
    disk: &mut D,
    part: &StreamParts,
    slots: &[u32],
) -> Result<(), Failed>
    requires settled { IsSettled records.old.journal }
    requires slots { slots.now ≡ slots_in_turn part.now }
    requires live { AreSomeLive slots.now records.old.live }
    requires one_disk { OfContent (D.seen disk.old) (AreKept records.old) }
    ensures drops { Step (verdict result) (D.seen disk.old) (D.seen disk.new)
        (StagesAtCost (StagesDrop part.now records.old records.new result) 0 (length slots.now + 1) records.old records.new result) }
    ensures settled { OnOk result (IsSettled records.new.journal) }
    ensures live { OnOk result (LiveSlotsGo slots.now [] records.old.live records.new.live) }
    ensures extent { OnOk result (records.new.journal.extent ≡ records.old.journal.extent) }
{
    stage_replaced(records, disk, part.slot, &dropped_record(part))?;
    stage_clearing(records, disk, slots)
}

impl Store {
    ghost use Rattle.std.specs.Prelude.{◌≢◌, ◌+◌, false, Err};
    ghost use Rattle.ss_outside.specs.Disk.{Between};
    ghost use Rattle.ss_outside.specs.Verdict.{IfUndone};
    ghost use Rattle.ss_catalog.specs.declared.event.Event.TheVariants.{Drop};
    ghost use Rattle.ss_store.specs.Applied.{Applies};
    ghost use Rattle.ss_store.specs.Errors.{verdict_of_apply};
    ghost use Rattle.ss_store.specs.Extents.{records_held_in};
    ghost use Rattle.ss_store.specs.Kept.{StoreIsKept};
    ghost use Rattle.ss_store.specs.Places.{IsPlaceOf};
    ghost use Rattle.ss_base.specs.Steps.{IsFresh};

    // Stages the drop of a stream.
    pub(super) fn stage_drop<D: Disk, L: Ledger>(
        &mut self,
        disk: &mut D,
        name: &Name,
        found: Option<usize>,
        blank: Blank,
    ) -> Result<Ack, ApplyError>
        requires fresh { IsFresh L.name L.parts blank }
        requires runs { self.old.stopped ≡ false }
        requires found { IsPlaceOf name.now self.old.streams found }
        requires one_disk { OfContent (D.seen disk.old) (StoreIsKept self.old) }
        ensures applies { Applies (Drop name.now) self.old self.new (D.seen disk.old) (D.seen disk.new) result }
        ensures costs { Between (D.seen disk.old) (D.seen disk.new)
            (CostsEvent (records_held_in self.old) self.old.records self.new.records result) }
        ensures running { result ≢ Err ApplyError.Stopped }
        ensures uncalled { IfUndone (verdict_of_apply result) (disk.new ≡ disk.old) }
    {
        let Some(place) = found else {
            return Err(ApplyError::Refused(Refusal::Unknown));
        };
        let alloc = *self.streams.allocator();
        let mut steps = Steps::<L>::new(blank);
        let slots = match slots_of(alloc, &self.streams[place].part, &mut steps) {
            Ok(slots) => slots,
            Err(_) => return Err(ApplyError::OutOfMemory),
        };
        let _ = self.catalog.remove(name);
        let stream = self.streams.remove(place);
        match stage_doomed(&mut self.records, disk, &stream.part, &slots) {
            Ok(()) => Ok(Ack { n: 0, k: 0 }),
            Err(Failed) => {
                self.stopped = true;
                Err(ApplyError::Disk)
            }
        }
    }
}
