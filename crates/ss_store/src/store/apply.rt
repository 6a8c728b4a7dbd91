// Staging an event, and sealing what is staged.
use super::Store;
use crate::ApplyError;
use ss_catalog::{Event, Name};
use ss_model::Ack;
use ss_outside::{Disk, Failed};
use ss_stream::Mark;
use std::marker::Brand;
use std::sync::ledger::Blank;

impl Store {
    ghost use Rattle.std.specs.Prelude.{◌≡◌, ◌≢◌, ◌+◌, ◌↔◌, true, false, map, Err, OnOk, OnErr};
    ghost use Rattle.ss_outside.specs.Disk.{Between, OfContent, SyncsAtMost};
    ghost use Rattle.ss_outside.specs.Step.{Step};
    ghost use Rattle.ss_outside.specs.Verdict.{IfUndone, OnFailed, verdict};
    ghost use Rattle.ss_catalog.specs.Events.{IsInTime};
    ghost use Rattle.ss_journal.specs.Calls.{HasSealed};
    ghost use Rattle.ss_model.specs.History.{CanBeSaid};
    ghost use Rattle.ss_model.specs.Marks.{has_open};
    ghost use Rattle.ss_stream.specs.Calls.{StaysWithin, SyncsToStage};
    ghost use Rattle.ss_stream.specs.Held.{without_spare};
    ghost use Rattle.ss_store.specs.Applied.{Applies, SealsStore, StandsOn};
    ghost use Rattle.ss_store.specs.Calls.{CostsEvent, StagesEvent};
    ghost use Rattle.ss_store.specs.Errors.{verdict_of_apply};
    ghost use Rattle.ss_store.specs.Extents.{records_held_in};
    ghost use Rattle.ss_store.specs.Kept.{StoreIsKept, is_of_landmark, of_part};
    ghost use Rattle.ss_store.specs.Places.{IsPlaceOf};

    /// Stages an event, and answers what is replied to it: the store shows it from now on, and `seal` brings it to the disk, with
    /// all that were staged before. Until then a crash leaves a history that stood there before. Where the journal's entries run out
    /// in the middle, what is staged so far is sealed. A refusal is the first that applies, and memory is asked for after all refusals
    /// and before the first write; either leaves the store and the disk as they were.
    pub fn stage<D: Disk>(&mut self, disk: &mut D, event: &Event) -> Result<Ack, ApplyError>
        requires in_time { IsInTime event.now }
        requires one_disk { StandsOn self.old (D.seen disk.old) }
        // Stopped comes first, exactly where the store had stopped, and changes nothing.
        ensures stopped { (result ≡ Err ApplyError.Stopped) ↔ (self.old.stopped ≡ true) }
        ensures idle { self.old.stopped ≡ true → self.new ≡ self.old }
        ensures applies { self.old.stopped ≡ false → Applies event.now self.old self.new (D.seen disk.old) (D.seen disk.new) result }
        // The event comes after the history that is shown, wholly or not at all, also in a crash.
        ensures history { self.old.stopped ≡ false →
            Between (D.seen disk.old) (D.seen disk.new) (StagesEvent event.now self.old.records self.new.records result) }
        ensures within { self.old.stopped ≡ false → Between (D.seen disk.old) (D.seen disk.new)
            (StaysWithin (records_held_in self.old + 1) self.old.records self.new.records result) }
        // Room is made only where the entries are used up, by four syncs each time at most.
        ensures syncs { self.old.stopped ≡ false → Between (D.seen disk.old) (D.seen disk.new)
            (SyncsToStage (records_held_in self.old + 2) self.old.records self.new.records result) }
        // An event of landmarks that fails leaves the streams as they were, but for the room to spare.
        ensures failed { is_of_landmark self.old.streams event.now ≡ true →
            OnFailed (verdict_of_apply result) (map without_spare self.new.streams ≡ map without_spare self.old.streams) }
        ensures uncalled { IfUndone (verdict_of_apply result) (disk.new ≡ disk.old) }
    {
        if self.stopped {
            return Err(ApplyError::Stopped);
        }
        self.stage_event(disk, event)
    }

    // Stages an event of a store that hasn't stopped.
    fn stage_event<D: Disk>(&mut self, disk: &mut D, event: &Event) -> Result<Ack, ApplyError>
        requires in_time { IsInTime event.now }
        requires runs { self.old.stopped ≡ false }
        requires one_disk { OfContent (D.seen disk.old) (StoreIsKept self.old) }
        ensures said { CanBeSaid event.now }
        ensures applies { Applies event.now self.old self.new (D.seen disk.old) (D.seen disk.new) result }
        ensures costs { Between (D.seen disk.old) (D.seen disk.new)
            (CostsEvent (records_held_in self.old) self.old.records self.new.records result) }
        ensures failed { is_of_landmark self.old.streams event.now ≡ true →
            OnFailed (verdict_of_apply result) (map without_spare self.new.streams ≡ map without_spare self.old.streams) }
        ensures running { result ≢ Err ApplyError.Stopped }
        ensures uncalled { IfUndone (verdict_of_apply result) (disk.new ≡ disk.old) }
    {
        match *event {
            Event::Create { name, params } => self.stage_create(disk, name, params),
            Event::Value { name, t, v } => {
                let found = self.place_named(&name);
                if self.has_open(&name, found) {
                    self.stage_mark::<D, Brand>(
                        disk,
                        &name,
                        found,
                        t,
                        Mark::Value(v),
                        Blank::new(1),
                    )
                } else {
                    self.stage_value::<D, Brand>(disk, &name, found, t, v, Blank::new(1))
                }
            }
            Event::Open { name, t } => {
                let found = self.place_named(&name);
                self.stage_mark::<D, Brand>(disk, &name, found, t, Mark::Open, Blank::new(1))
            }
            Event::Close { name, t } => {
                let found = self.place_named(&name);
                self.stage_mark::<D, Brand>(disk, &name, found, t, Mark::Close, Blank::new(1))
            }
            Event::Drop { name } => {
                let found = self.place_named(&name);
                self.stage_drop::<D, Brand>(disk, &name, found, Blank::new(1))
            }
        }
    }

    /// Brings all staged events to the disk together. A crash at any moment of the call leaves a history that stood there before,
    /// or the one that is shown, and after `Ok` the latter. After an error the store has stopped.
    pub fn seal<D: Disk>(&mut self, disk: &mut D) -> Result<(), Failed>
        requires runs { self.old.stopped ≡ false }
        requires one_disk { OfContent (D.seen disk.old) (StoreIsKept self.old) }
        ensures seals { Step (verdict result) (D.seen disk.old) (D.seen disk.new) (SealsStore self.old self.new result) }
        // However many events are staged.
        ensures syncs { Step (verdict result) (D.seen disk.old) (D.seen disk.new) (SyncsAtMost 2) }
        ensures sealed { OnOk result (HasSealed self.old.records.journal self.new.records.journal) }
        ensures runs { OnOk result (self.new.stopped ≡ false) }
        ensures stops { OnErr result (self.new.stopped ≡ true) }
        ensures streams { self.new.streams ≡ self.old.streams }
        ensures live { self.new.records.live ≡ self.old.records.live }
    {
        match self.records.seal(disk) {
            Ok(()) => Ok(()),
            Err(failed) => {
                self.stopped = true;
                Err(failed)
            }
        }
    }

    // The place of the stream of a name, from 0, if one stands.
    fn place_named(&self, name: &Name) -> Option<usize>
        ensures { IsPlaceOf name.now self.now.streams result }
    {
        match self.find(name) {
            Some(id) => Some(self.place(id)),
            None => None,
        }
    }

    // Whether the stream of a name, which stands at a place if at all, has an open landmark.
    fn has_open(&self, name: &Name, found: Option<usize>) -> bool
        requires { IsPlaceOf name.now self.now.streams found }
        ensures { result ≡ of_part name.now self.now.streams (λ part. has_open part.landmarks.landmarks) }
    {
        match found {
            Some(place) => self.streams[place].part.landmarks.opened().is_some(),
            None => false,
        }
    }
}
