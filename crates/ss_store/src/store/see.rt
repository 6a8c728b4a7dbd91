// What is known for a query.
ghost use Rattle.std.specs.Prelude.{◌≡◌, ◌+◌, ◌*◌, ◌<◌, ◌≤◌, All, IfOk};
ghost use Rattle.std.specs.List.{Contains};
ghost use Rattle.ss_outside.specs.Disk.{OfContent};
ghost use Rattle.ss_outside.specs.Step.{Step};
ghost use Rattle.ss_outside.specs.Verdict.{IfChanged};
ghost use Rattle.ss_journal.specs.Kept.{IsRunning};
ghost use Rattle.ss_journal.specs.declared.format.TheConstants.{MOST_SLOTS};
ghost use Rattle.ss_query.specs.Answered.{SeesStream, begun_in};
ghost use Rattle.ss_query.specs.Asked.{HasCuts, IsFewMarked};
ghost use Rattle.ss_records.specs.Kept.{AreKept};
ghost use Rattle.ss_parts.specs.Held.{RiseToLast, window_slots_of};
ghost use Rattle.ss_parts.specs.Reading.{KeepsRecords, verdict_of_read};
ghost use Rattle.ss_stream.specs.Indexed.{IsTimed};

use super::Store;
use crate::AskError;
use ss_base::Steps;
use ss_catalog::{Query, Refusal, StreamId};
use ss_outside::Disk;
use ss_parts::ReadError;
use ss_query::{Seen, see_from};
use ss_records::Records;
use ss_stream::HeldStream;
use std::marker::Brand;
use std::sync::ledger::{Blank, Ledger};

// What is known of a stream for a query, from where its index says that the range begins.
fn see_indexed<D: Disk, L: Ledger, R: Ledger, S: Ledger>(
    stream: &HeldStream,
    records: &mut Records,
    disk: &mut D,
    query: &Query,
    steps: &mut Steps<L>,
    reads: &mut Steps<R>,
    searches: &mut Steps<S>,
) -> Result<Seen, ReadError>
    requires timed { IsTimed stream.now.part.line.entries stream.now.index.times }
    requires times { RiseToLast stream.now.part }
    requires order { query.now.from ≤ query.now.to }
    requires running { IsRunning records.old.journal }
    requires slots { All (λ slot. slot < MOST_SLOTS) (window_slots_of stream.now.part) }
    requires one_disk { OfContent (D.seen disk.old) (AreKept records.old) }
    ensures sees { Step (verdict_of_read result) (D.seen disk.old) (D.seen disk.new)
        (SeesStream stream.now.part query.now records.old records.new result) }
    ensures marked { IfOk result (λ seen. IsFewMarked seen.marked) }
    ensures cuts { IfOk result HasCuts }
    ensures changed { IfChanged (verdict_of_read result) (Contains (window_slots_of stream.now.part)) }
    ensures records { KeepsRecords (verdict_of_read result) records.old records.new }
    // It looks at the line twice for each window that begins in the range, and at most three times besides. It reads one record
    // for each of these windows at most, and one besides, and searches the landmarks seven times at most for each.
    ensures few { (steps.new ≤ steps.old + 2 * begun_in query.now.from query.now.to stream.now.part.line.entries + 3)
        × (reads.new ≤ reads.old + begun_in query.now.from query.now.to stream.now.part.line.entries + 1)
        × (searches.new ≤ searches.old + 7 * (begun_in query.now.from query.now.to stream.now.part.line.entries + 1)) }
{
    let start = stream.start(query.from);
    see_from(
        &stream.part,
        start,
        records,
        disk,
        query,
        steps,
        reads,
        searches,
    )
}

impl Store {
    ghost use Rattle.std.specs.Prelude.{◌≡◌, ◌≢◌, ◌↔◌, true, false, Some, IfOk, IfSome, OnOk, IfErr, Err, None};
    ghost use Rattle.std.specs.List.{Contains};
    ghost use Rattle.ss_outside.specs.Disk.{OfContent};
    ghost use Rattle.ss_outside.specs.Step.{Step};
    ghost use Rattle.ss_outside.specs.Verdict.{IfChanged, IfUndone};
    ghost use Rattle.ss_catalog.specs.declared.refusal.Refusal.{Refusal};
    ghost use Rattle.ss_base.specs.Steps.{IsFresh};
    ghost use Rattle.ss_parts.specs.Held.{window_slots_of};
    ghost use Rattle.ss_query.specs.Asked.{HasCuts, IsFewMarked};
    ghost use Rattle.ss_store.specs.Applied.{Looks, Sees, StandsOn};
    ghost use Rattle.ss_store.specs.Asked.{AsksStream, refuses_query_held};
    ghost use Rattle.ss_store.specs.Errors.{verdict_of_ask};
    ghost use Rattle.ss_store.specs.Kept.{StoreIsKept, part_named};

    /// What is known for a query, by the windows of its stream that have times in the range: `ask` answers by it. It writes
    /// nothing, and takes no memory. A refusal is the first that applies, and makes no call of the disk.
    pub fn see<D: Disk>(&mut self, disk: &mut D, query: &Query) -> Result<Seen, AskError>
        requires one_disk { StandsOn self.old (D.seen disk.old) }
        // What is known of the stream in the state that is shown, with what is staged.
        ensures sees { Step (verdict_of_ask result) (D.seen disk.old) (D.seen disk.new) (Sees self.old.records query.now result) }
        ensures looks { Looks (verdict_of_ask result) self.old self.new (D.seen disk.old) (D.seen disk.new) }
        // Over every disk the values of landmarks are few, and the cut windows are such as a range may split.
        ensures marked { IfOk result (λ seen. IsFewMarked seen.marked) }
        ensures cuts { IfOk result HasCuts }
        // A slot that has changed is that of a window of the stream.
        ensures changed { IfChanged (verdict_of_ask result) (λ slot. IfSome (part_named query.now.name self.old.streams) (λ part.
            Contains (window_slots_of part) slot)) }
        // Stopped comes first, exactly where the store had stopped, and then each refusal exactly where it applies.
        ensures stopped { (result ≡ Err AskError.Stopped) ↔ (self.old.stopped ≡ true) }
        ensures refused { self.old.stopped ≡ false → (r : Refusal) →
            (result ≡ Err (AskError.Refused r)) ↔ (refuses_query_held self.old.streams query.now ≡ Some r) }
        ensures uncalled { IfUndone (verdict_of_ask result) (disk.new ≡ disk.old) }
        ensures same { IfUndone (verdict_of_ask result) (self.new ≡ self.old) }
        ensures idle { self.old.stopped ≡ true → (self.new ≡ self.old) × (disk.new ≡ disk.old) }
    {
        if self.stopped {
            return Err(AskError::Stopped);
        }
        match self.asked(query) {
            Ok(id) => self.see_stream::<D, Brand, Brand, Brand>(
                disk,
                query,
                id,
                Blank::new(1),
                Blank::new(1),
                Blank::new(1),
            ),
            Err(refusal) => Err(AskError::Refused(refusal)),
        }
    }

    // The number of the stream that a query asks, or why it is refused.
    fn asked(&self, query: &Query) -> Result<StreamId, Refusal>
        ensures refused { IfErr result (λ r. refuses_query_held self.now.streams query.now ≡ Some r) }
        ensures accepted { OnOk result (refuses_query_held self.now.streams query.now ≡ None) }
        ensures asks { IfOk result (λ id. AsksStream self.now.streams query.now id.0) }
    {
        let Some(id) = self.find(&query.name) else {
            return Err(Refusal::Unknown);
        };
        if query.to < query.from {
            return Err(Refusal::Range);
        }
        Ok(id)
    }

    // What is known of the stream of a number, where the store hasn't stopped.
    fn see_stream<D: Disk, L: Ledger, R: Ledger, S: Ledger>(
        &mut self,
        disk: &mut D,
        query: &Query,
        id: StreamId,
        steps: Blank,
        reads: Blank,
        searches: Blank,
    ) -> Result<Seen, AskError>
        requires fresh { IsFresh L.name L.parts steps × IsFresh R.name R.parts reads × IsFresh S.name S.parts searches }
        requires asks { AsksStream self.old.streams query.now id.0 }
        requires runs { self.old.stopped ≡ false }
        requires one_disk { OfContent (D.seen disk.old) (StoreIsKept self.old) }
        ensures sees { Step (verdict_of_ask result) (D.seen disk.old) (D.seen disk.new) (Sees self.old.records query.now result) }
        ensures looks { Looks (verdict_of_ask result) self.old self.new (D.seen disk.old) (D.seen disk.new) }
        ensures marked { IfOk result (λ seen. IsFewMarked seen.marked) }
        ensures cuts { IfOk result HasCuts }
        ensures changed { IfChanged (verdict_of_ask result) (λ slot. IfSome (part_named query.now.name self.old.streams) (λ part.
            Contains (window_slots_of part) slot)) }
        ensures running { result ≢ Err AskError.Stopped }
        ensures unrefused { (r : Refusal) → result ≢ Err (AskError.Refused r) }
    {
        // Asked for the proof alone: with the slots that are live comes what holds of all records.
        let _live = self.records.live();
        let place = self.place(id);
        let mut steps = Steps::<L>::new(steps);
        let mut reads = Steps::<R>::new(reads);
        let mut searches = Steps::<S>::new(searches);
        match see_indexed(
            &self.streams[place],
            &mut self.records,
            disk,
            query,
            &mut steps,
            &mut reads,
            &mut searches,
        ) {
            Ok(seen) => Ok(seen),
            Err(error) => {
                self.stopped = true;
                Err(AskError::from(error))
            }
        }
    }
}
