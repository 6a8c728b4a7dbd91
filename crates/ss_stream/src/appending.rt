// One more value of a stream.
ghost use Rattle.std.specs.Prelude.{◌≡◌, ◌+◌, ◌*◌, ◌≤◌, ℕ, length, Some, OnOk, OnErr};
ghost use Rattle.ss_outside.specs.Disk.{OfContent};
ghost use Rattle.ss_outside.specs.Step.{Step};
ghost use Rattle.ss_outside.specs.Verdict.{IsFirm};
ghost use Rattle.ss_journal.specs.Kept.{IsSettled};
ghost use Rattle.ss_records.specs.Kept.{AreKept};
ghost use Rattle.ss_records.specs.Live.{lowest_free};
ghost use Rattle.ss_parts.specs.Held.{entries_of, slots_held};
ghost use Rattle.ss_stream.specs.Calls.{StagesAtCost};
ghost use Rattle.ss_stream.specs.Changing.{ChangedIsHeld, NoneAreDue, PutsValue, TakesValue};
ghost use Rattle.ss_parts.specs.Reading.{verdict_of_read};
ghost use Rattle.ss_stream.specs.Held.{IsSameStream, values_held};
ghost use Rattle.ss_stream.specs.Indexed.{CanAppend, StandsAfter};
ghost use Rattle.ss_stream.specs.Slots.{AreSomeLive};

use crate::closing::values_held;
use crate::held::HeldStream;
use crate::writing::stage_record;
use ss_base::{LAST_TIME, Steps};
use ss_codec::Record;
use ss_line::Entry;
use ss_outside::Disk;
use ss_parts::{ReadError, number_of};
use ss_records::Records;
use ss_summary::Summary;
use std::sync::ledger::Ledger;

impl HeldStream {
    // Stages a value outside landmarks after the windows, as a window of its own in a free slot.
    fn put_value<D: Disk, L: Ledger>(
        &mut self,
        records: &mut Records,
        disk: &mut D,
        slot: u32,
        t: u64,
        v: i64,
        steps: &mut Steps<L>,
    ) -> Result<(), ReadError>
        requires settled { IsSettled records.old.journal }
        requires free { lowest_free records.old.live ≡ Some slot }
        requires can { CanAppend self.old t }
        requires time { t ≤ LAST_TIME }
        requires one_disk { OfContent (D.seen disk.old) (AreKept records.old) }
        ensures puts { Step (verdict_of_read result) (D.seen disk.old) (D.seen disk.new)
            (StagesAtCost (PutsValue self.old.part self.new.part t v records.old records.new result) (slot + 1) 1 records.old records.new result) }
        ensures firm { IsFirm (verdict_of_read result) }
        ensures same { IsSameStream self.old.part self.new.part }
        ensures stands { OnOk result (StandsAfter self.old.part self.new records.old records.new (slot + 1)
            (values_held (entries_of self.old.part) + 1) (Some t)) }
        ensures err { OnErr result (self.new.part ≡ self.old.part) }
        ensures one_more { OnOk result (length self.new.part.line.entries ≡ length self.old.part.line.entries + 1) }
        ensures looks { OnOk result (steps.new ≤ steps.old + 5) }
    {
        let position = values_held(&self.part, steps) + 1;
        let window = Record::Window {
            id: number_of(&self.part),
            first: position,
            summary: Summary::one(t, v),
        };
        stage_record(records, disk, slot, &window)?;
        let entry = Entry {
            first: position,
            last: position,
            t_first: t,
            t_last: t,
            slot,
        };
        let at = self.part.line.push(entry, steps);
        self.index
            .add_window(&self.part.line, at, position, t, steps);
        self.part.last_time = Some(t);
        Ok(())
    }

    /// Stages a value outside landmarks after the windows of a stream, and the merges that are due.
    pub fn append_value<D: Disk, L: Ledger>(
        &mut self,
        records: &mut Records,
        disk: &mut D,
        slot: u32,
        t: u64,
        v: i64,
        steps: &mut Steps<L>,
    ) -> Result<(), ReadError>
        requires settled { IsSettled records.old.journal }
        requires free { lowest_free records.old.live ≡ Some slot }
        requires can { CanAppend self.old t }
        requires time { t ≤ LAST_TIME }
        requires live { AreSomeLive (slots_held self.old.part) records.old.live }
        requires one_disk { OfContent (D.seen disk.old) (AreKept records.old) }
        // Where the entries run out in the middle, a crash leaves the value with windows joined that are due, all or some. The value
        // and each of its joins use an entry at most.
        ensures takes { Step (verdict_of_read result) (D.seen disk.old) (D.seen disk.new)
            (StagesAtCost (TakesValue self.old.part self.new.part t v records.old records.new result) (slot + 1) (length self.old.part.line.entries + 3)
            records.old records.new result) }
        ensures same { IsSameStream self.old.part self.new.part }
        ensures stands { OnOk result (StandsAfter self.old.part self.new records.old records.new (slot + 1)
            (values_held (entries_of self.old.part) + 1) (Some t)) }
        ensures none_due { OnOk result (NoneAreDue self.new.part) }
        ensures changed { ChangedIsHeld (verdict_of_read result) self.new.part }
        // With so many joins it looks at the line at most 6 times and 11 times for each of them, however many windows stand in it.
        ensures looks { OnOk result ((joins : ℕ) → length self.new.part.line.entries + joins ≡ length self.old.part.line.entries + 1
            → steps.new ≤ steps.old + 6 + 11 * joins) }
    {
        self.put_value(records, disk, slot, t, v, steps)?;
        self.stage_joins(records, disk, steps)
    }
}
