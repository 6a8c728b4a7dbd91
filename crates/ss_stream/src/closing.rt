// The merges that are due in one stream.
ghost use Rattle.std.specs.Prelude.{◌≡◌, ◌⊎◌, ◌+◌, ◌*◌, ◌≤◌, [], ◌∷◌, length, IfOk, OnOk, OnErr};
ghost use Rattle.ss_outside.specs.Disk.{OfContent};
ghost use Rattle.ss_outside.specs.Step.{Step};
ghost use Rattle.ss_outside.specs.Verdict.{IfChanged};
ghost use Rattle.ss_journal.specs.Kept.{IsRunning, IsSettled};
ghost use Rattle.ss_records.specs.Kept.{AreAtRest, AreKept};
ghost use Rattle.ss_base.specs.Steps.{IsFresh};
ghost use Rattle.ss_summary.specs.Figures.{IsPossible};
ghost use Rattle.ss_parts.specs.Held.{entries_of, slots_held};
ghost use Rattle.ss_stream.specs.Calls.{StagesAtCost};
ghost use Rattle.ss_stream.specs.Changing.{StandBeside, ChangedIsHeld, ClosesStream, HoldsUntil, JoinsWindows, KeepsAtRest, NoneAreDue, ReadsJoined};
ghost use Rattle.ss_stream.specs.Changing.{StagesJoins};
ghost use Rattle.ss_parts.specs.Reading.{verdict_of_read};
ghost use Rattle.ss_stream.specs.Held.{IsOrdered, IsSameStream, values_held};
ghost use Rattle.ss_stream.specs.Indexed.{IsDuePair, IsKeyedFor, IsScheduled, StandsAfter};
ghost use Rattle.ss_stream.specs.Slots.{AreSomeLive};

use crate::held::HeldStream;
use crate::writing::stage_two;
use ss_base::Steps;
use ss_codec::Record;
use ss_line::Entry;
use ss_outside::Disk;
use ss_parts::{ReadError, StreamParts, read_window};
use ss_records::Records;
use ss_schedule::Pair;
use ss_summary::Summary;
use std::marker::Brand;
use std::sync::ledger::{Blank, Ledger};

/// How many values the windows of a stream hold.
pub fn values_held<L: Ledger>(part: &StreamParts, steps: &mut Steps<L>) -> u64
    ensures value { result ≡ values_held (entries_of part.now) }
    ensures looks { steps.new ≤ steps.old + 1 }
{
    if part.line.len() == 0 {
        return 0;
    }
    match part.line.last() {
        None => 0,
        Some(at) => part.line.get(at, steps).last,
    }
}

// The summary of two neighbouring windows as one, read from their records.
fn read_joined<D: Disk, R: Ledger, S: Ledger>(
    records: &mut Records,
    disk: &mut D,
    part: &StreamParts,
    window: Entry,
    next: Entry,
    reads: Blank,
    searches: Blank,
) -> Result<Summary, ReadError>
    requires fresh { IsFresh R.name R.parts reads × IsFresh S.name S.parts searches }
    requires running { IsRunning records.old.journal }
    requires live { AreSomeLive (window.slot ∷ next.slot ∷ []) records.old.live }
    requires neighbours { StandBeside window next }
    requires one_disk { OfContent (D.seen disk.old) (AreKept records.old) }
    ensures joined { Step (verdict_of_read result) (D.seen disk.old) (D.seen disk.new)
        (ReadsJoined part.now window next records.old records.new result) }
    ensures count { IfOk result (λ summary. window.first + summary.count ≡ next.last + 1) }
    ensures possible { IfOk result IsPossible }
    ensures changed { IfChanged (verdict_of_read result) (λ slot. (slot ≡ window.slot) ⊎ (slot ≡ next.slot)) }
    ensures journal { OnOk result (records.new.journal ≡ records.old.journal) }
    ensures live { records.new.live ≡ records.old.live }
{
    // Each slot that is live is one of those that a disk has.
    let _live = records.live();
    let mut reads = Steps::<R>::new(reads);
    let mut searches = Steps::<S>::new(searches);
    let older = read_window(records, disk, part, window, &mut reads, &mut searches)?;
    let newer = read_window(records, disk, part, next, &mut reads, &mut searches)?;
    Ok(Summary::join(older, newer))
}

impl HeldStream {
    // Stages the join of two neighbouring windows that are due, as one transaction.
    fn join<D: Disk, L: Ledger>(
        &mut self,
        records: &mut Records,
        disk: &mut D,
        pair: Pair,
        steps: &mut Steps<L>,
    ) -> Result<(), ReadError>
        requires due { IsDuePair self.old pair }
        requires settled { IsSettled records.old.journal }
        requires live { AreSomeLive (slots_held self.old.part) records.old.live }
        requires one_disk { OfContent (D.seen disk.old) (AreKept records.old) }
        ensures joins { Step (verdict_of_read result) (D.seen disk.old) (D.seen disk.new)
            (StagesAtCost (JoinsWindows self.old.part self.new.part records.old records.new result) 0 1 records.old records.new result) }
        ensures same { IsSameStream self.old.part self.new.part }
        ensures stands { OnOk result (StandsAfter self.old.part self.new records.old records.new 0
            (values_held (entries_of self.old.part)) self.old.part.last_time) }
        ensures fewer { OnOk result (length self.new.part.line.entries + 1 ≡ length self.old.part.line.entries) }
        ensures err { OnErr result (self.new.part ≡ self.old.part) }
        ensures changed { ChangedIsHeld (verdict_of_read result) self.old.part }
        ensures looks { OnOk result (steps.new ≤ steps.old + 9) }
    {
        let window = self.part.line.get(pair.left, steps);
        let next = self.part.line.get(pair.right, steps);
        let number = self.part.id.0;
        let joined = Record::Window {
            id: number,
            first: window.first,
            summary: read_joined::<D, Brand, Brand>(
                records,
                disk,
                &self.part,
                window,
                next,
                Blank::new(1),
                Blank::new(1),
            )?,
        };
        stage_two(records, disk, window.slot, next.slot, &joined)?;
        let n = values_held(&self.part, steps);
        self.index
            .merged(&mut self.part.line, pair, next.t_first, n, steps);
        Ok(())
    }

    /// Stages the joins of neighbours, each two as one transaction, until no two may be one.
    pub fn stage_joins<D: Disk, L: Ledger>(
        &mut self,
        records: &mut Records,
        disk: &mut D,
        steps: &mut Steps<L>,
    ) -> Result<(), ReadError>
        requires keyed { IsKeyedFor self.old }
        requires settled { IsSettled records.old.journal }
        requires ordered { IsOrdered self.old.part }
        requires live { AreSomeLive (slots_held self.old.part) records.old.live }
        requires one_disk { OfContent (D.seen disk.old) (AreKept records.old) }
        ensures closes { Step (verdict_of_read result) (D.seen disk.old) (D.seen disk.new)
            (StagesAtCost (StagesJoins self.old.part self.new.part records.old records.new result) 0 (length self.old.part.line.entries + 1)
            records.old records.new result) }
        ensures same { IsSameStream self.old.part self.new.part }
        ensures stands { OnOk result (StandsAfter self.old.part self.new records.old records.new 0
            (values_held (entries_of self.old.part)) self.old.part.last_time) }
        ensures none_due { OnOk result (NoneAreDue self.new.part) }
        ensures changed { ChangedIsHeld (verdict_of_read result) self.new.part }
        // It looks at the line 11 times for each join, and once besides.
        ensures looks { OnOk result (steps.new + 11 * length self.new.part.line.entries ≤ steps.old + 11 * length self.old.part.line.entries + 1) }
    {
        let n = values_held(&self.part, steps);
        while let Some(pair) = self.index.due(&self.part.line, n, steps) {
            self.join(records, disk, pair, steps)?;
        }
        Ok(())
    }

    /// Joins neighbours, each two as one transaction, until no two may be one. All come to the disk together.
    pub fn close_windows<D: Disk, L: Ledger>(
        &mut self,
        records: &mut Records,
        disk: &mut D,
        steps: &mut Steps<L>,
    ) -> Result<(), ReadError>
        requires keyed { IsKeyedFor self.old }
        requires at_rest { AreAtRest records.old }
        requires ordered { IsOrdered self.old.part }
        requires live { AreSomeLive (slots_held self.old.part) records.old.live }
        requires one_disk { OfContent (D.seen disk.old) (AreKept records.old) }
        ensures closes { Step (verdict_of_read result) (D.seen disk.old) (D.seen disk.new)
            (ClosesStream self.old.part self.new.part records.new result) }
        ensures same { IsSameStream self.old.part self.new.part }
        ensures whole { OnOk result (KeepsAtRest self.old.part self.new.part records.old records.new 0) }
        ensures holds { OnOk result (HoldsUntil self.new.part (values_held (entries_of self.old.part)) self.old.part.last_time) }
        ensures scheduled { OnOk result (IsScheduled self.new) }
        ensures changed { ChangedIsHeld (verdict_of_read result) self.new.part }
    {
        self.stage_joins(records, disk, steps)?;
        records.seal(disk)?;
        Ok(())
    }
}
