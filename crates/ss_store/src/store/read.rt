// Reading a window.
use super::Store;
use crate::AskError;
use ss_base::{MOST_VALUES, Steps};
use ss_catalog::{Refusal, StreamId};
use ss_line::{At, Entry};
use ss_model::Placed;
use ss_outside::Disk;
use ss_parts::read_window;
use std::marker::Brand;
use std::sync::ledger::{Blank, Ledger};

impl Store {
    ghost use Rattle.std.specs.Prelude.{◌≡◌, ◌≢◌, ◌+◌, ◌<◌, ◌≤◌, ◌↔◌, true, false, Some, IsSome, IfOk, IfSome, Err};
    ghost use Rattle.ss_outside.specs.Disk.{OfContent};
    ghost use Rattle.ss_outside.specs.Step.{Step};
    ghost use Rattle.ss_outside.specs.Verdict.{IfChanged, IfUndone};
    ghost use Rattle.ss_catalog.specs.declared.refusal.Refusal.{Refusal};
    ghost use Rattle.ss_journal.specs.declared.format.TheConstants.{MOST_SLOTS};
    ghost use Rattle.ss_line.specs.Line.{StandsIn, entry_at};
    ghost use Rattle.ss_base.specs.Steps.{IsFresh};
    ghost use Rattle.ss_store.specs.Applied.{Looks, ShowsWindow, StandsOn};
    ghost use Rattle.ss_store.specs.Errors.{verdict_of_ask};
    ghost use Rattle.ss_store.specs.Kept.{StoreIsKept, part_numbered};

    /// Reads a window of the stream of a number.
    pub fn window_read<D: Disk>(
        &mut self,
        disk: &mut D,
        id: StreamId,
        at: At,
    ) -> Result<Placed, AskError>
        requires stands { IsSome (part_numbered id.0 self.old.streams) }
        requires at { IfSome (part_numbered id.0 self.old.streams) (λ part. StandsIn part.line.entries at) }
        requires one_disk { StandsOn self.old (D.seen disk.old) }
        // The window of the state that is shown, with what is staged.
        ensures shows { Step (verdict_of_ask result) (D.seen disk.old) (D.seen disk.new) (ShowsWindow id.0 at self.old result) }
        ensures looks { Looks (verdict_of_ask result) self.old self.new (D.seen disk.old) (D.seen disk.new) }
        // Over every disk it has the positions that are held, and as many values as they say.
        ensures positions { IfSome (part_numbered id.0 self.old.streams) (λ part. IfSome (entry_at part.line.entries at) (λ entry.
            IfOk result (λ placed. (placed.first ≡ entry.first) × (placed.last ≡ entry.last)
            × (placed.first + placed.summary.count ≡ placed.last + 1)))) }
        // A slot that has changed is that of the window.
        ensures changed { IfChanged (verdict_of_ask result) (λ slot. IfSome (part_numbered id.0 self.old.streams) (λ part.
            IfSome (entry_at part.line.entries at) (λ entry. slot ≡ entry.slot))) }
        ensures stopped { (result ≡ Err AskError.Stopped) ↔ (self.old.stopped ≡ true) }
        ensures unrefused { (r : Refusal) → result ≢ Err (AskError.Refused r) }
        ensures uncalled { IfUndone (verdict_of_ask result) (disk.new ≡ disk.old) }
        ensures same { IfUndone (verdict_of_ask result) (self.new ≡ self.old) }
        ensures idle { self.old.stopped ≡ true → (self.new ≡ self.old) × (disk.new ≡ disk.old) }
    {
        if self.stopped {
            return Err(AskError::Stopped);
        }
        self.read_in::<D, Brand, Brand>(disk, id, at, Blank::new(1), Blank::new(1))
    }

    // The positions and the slot of a window.
    fn entry<L: Ledger>(&self, id: StreamId, at: At, steps: &mut Steps<L>) -> Entry
        requires runs { self.now.stopped ≡ false }
        requires stands { IsSome (part_numbered id.0 self.now.streams) }
        requires at { IfSome (part_numbered id.0 self.now.streams) (λ part. StandsIn part.line.entries at) }
        ensures entry { IfSome (part_numbered id.0 self.now.streams) (λ part. entry_at part.line.entries at ≡ Some result) }
        ensures slot { result.slot < MOST_SLOTS }
        ensures some { result.first ≤ result.last }
        ensures most { result.last ≤ MOST_VALUES }
    {
        // Asked for the proof alone: with the slots that are live comes what holds of all records.
        let _live = self.records.live();
        self.part(id).line.get(at, steps)
    }

    // Reads a window, where the store hasn't stopped.
    fn read_in<D: Disk, L: Ledger, S: Ledger>(
        &mut self,
        disk: &mut D,
        id: StreamId,
        at: At,
        steps: Blank,
        searches: Blank,
    ) -> Result<Placed, AskError>
        requires fresh { IsFresh L.name L.parts steps × IsFresh S.name S.parts searches }
        requires stands { IsSome (part_numbered id.0 self.old.streams) }
        requires at { IfSome (part_numbered id.0 self.old.streams) (λ part. StandsIn part.line.entries at) }
        requires runs { self.old.stopped ≡ false }
        requires one_disk { OfContent (D.seen disk.old) (StoreIsKept self.old) }
        ensures shows { Step (verdict_of_ask result) (D.seen disk.old) (D.seen disk.new) (ShowsWindow id.0 at self.old result) }
        ensures looks { Looks (verdict_of_ask result) self.old self.new (D.seen disk.old) (D.seen disk.new) }
        ensures positions { IfSome (part_numbered id.0 self.old.streams) (λ part. IfSome (entry_at part.line.entries at) (λ entry.
            IfOk result (λ placed. (placed.first ≡ entry.first) × (placed.last ≡ entry.last)
            × (placed.first + placed.summary.count ≡ placed.last + 1)))) }
        ensures changed { IfChanged (verdict_of_ask result) (λ slot. IfSome (part_numbered id.0 self.old.streams) (λ part.
            IfSome (entry_at part.line.entries at) (λ entry. slot ≡ entry.slot))) }
        ensures running { result ≢ Err AskError.Stopped }
        ensures unrefused { (r : Refusal) → result ≢ Err (AskError.Refused r) }
    {
        let mut steps = Steps::<L>::new(steps);
        let mut searches = Steps::<S>::new(searches);
        let entry = self.entry(id, at, &mut steps);
        let place = self.place(id);
        let part = &self.streams[place].part;
        match read_window(
            &mut self.records,
            disk,
            part,
            entry,
            &mut steps,
            &mut searches,
        ) {
            Ok(summary) => Ok(Placed {
                first: entry.first,
                last: entry.last,
                summary,
            }),
            Err(error) => {
                self.stopped = true;
                Err(AskError::from(error))
            }
        }
    }
}
