// Staging an event of a landmark.
ghost use Rattle.std.specs.Prelude.{◌≡◌, true, IfSome, IfNone, Some, None};
ghost use Rattle.ss_model.specs.Marks.{has_open};
ghost use Rattle.ss_stream.specs.Marking.{IsInOpen, mark_refusal};

use super::Store;
use super::times::{is_before, is_opening, is_past};
use crate::ApplyError;
use ss_base::{LAST_TIME, Steps};
use ss_catalog::{Name, Refusal};
use ss_model::Ack;
use ss_outside::{Disk, Failed};
use ss_parts::StreamParts;
use ss_stream::{Mark, reserve, values_held};
use std::sync::ledger::{Blank, Ledger};

// Why a stream doesn't take a mark at a time.
fn refuses(stream: &StreamParts, t: u64, mark: Mark) -> Option<Refusal>
    requires { IsInOpen mark → has_open stream.now.landmarks.landmarks ≡ true }
    ensures some { IfSome result (λ r. mark_refusal stream.now t mark ≡ Some r) }
    ensures none { IfNone result (mark_refusal stream.now t mark ≡ None) }
{
    match (mark, stream.landmarks.opened()) {
        (Mark::Open, Some(_)) => Some(Refusal::Open),
        (Mark::Close, None) => Some(Refusal::NotOpen),
        _ => {
            let is_early = match mark {
                Mark::Open => is_past(stream.last_time, t),
                Mark::Value(_) => {
                    is_past(stream.last_time, t) && !is_opening(&stream.landmarks, t)
                }
                Mark::Close => is_before(stream.last_time, t),
            };
            if is_early { Some(Refusal::Time) } else { None }
        }
    }
}

impl Store {
    ghost use Rattle.std.specs.Prelude.{◌≡◌, ◌≢◌, ◌+◌, ◌≤◌, true, false, map, Some, IsNone, IfOk, IfSome, OnOk, IfErr, Err, None};
    ghost use Rattle.ss_outside.specs.Disk.{Between, OfContent};
    ghost use Rattle.ss_outside.specs.Verdict.{IfUndone, OnFailed};
    ghost use Rattle.ss_catalog.specs.declared.refusal.Refusal.{Refusal};
    ghost use Rattle.ss_model.specs.Marks.{has_open};
    ghost use Rattle.ss_model.specs.Refusals.{has_all_records};
    ghost use Rattle.ss_store.specs.Admitted.{IsMarker};
    ghost use Rattle.ss_store.specs.Applied.{Applies};
    ghost use Rattle.ss_store.specs.Calls.{CostsEvent};
    ghost use Rattle.ss_store.specs.Errors.{verdict_of_apply};
    ghost use Rattle.ss_store.specs.Extents.{records_held_in};
    ghost use Rattle.ss_store.specs.Kept.{StoreIsKept, live_held, of_part, refuses_held};
    ghost use Rattle.ss_store.specs.Places.{IsPlaceOf};
    ghost use Rattle.ss_base.specs.Steps.{IsFresh};
    ghost use Rattle.ss_stream.specs.Held.{without_spare};
    ghost use Rattle.ss_stream.specs.Marking.{IsClosing, IsInOpen, IsItsSlot, event_of, slot_refusal, slots_used};

    // The slot for the record that a mark puts, if there is one: a free one, or that of the open landmark.
    fn slot_for(&self, stream: &StreamParts, mark: Mark) -> Option<u32>
        requires runs { self.now.stopped ≡ false }
        requires begun { IsClosing mark → has_open stream.now.landmarks.landmarks ≡ true }
        ensures in_slot { IfSome result (λ slot. IsItsSlot self.now.records.live stream.now mark slot) }
        ensures low { IfSome result (λ slot. slots_used mark slot ≤ live_held self.now.streams + 1) }
        ensures some { IfSome result (λ slot. slot_refusal mark (has_all_records (live_held self.now.streams)) ≡ None) }
        ensures none { IsNone result → slot_refusal mark (has_all_records (live_held self.now.streams)) ≡ Some Refusal.StoreFull }
    {
        match mark {
            Mark::Open | Mark::Value(_) => self.free_slot(),
            Mark::Close => match stream.landmarks.opened() {
                Some((_, slot, _)) => Some(slot),
                None => None,
            },
        }
    }

    // The place of the stream whose landmarks take a mark at a time, and the slot of its record, or why they don't take it.
    fn marker(
        &self,
        name: &Name,
        found: Option<usize>,
        t: u64,
        mark: Mark,
    ) -> Result<(usize, u32), Refusal>
        requires runs { self.now.stopped ≡ false }
        requires found { IsPlaceOf name.now self.now.streams found }
        requires marked { IsInOpen mark → of_part name.now self.now.streams (λ part. has_open part.landmarks.landmarks) ≡ true }
        ensures refused { IfErr result (λ r. refuses_held self.now.streams (event_of name.now t mark) ≡ Some r) }
        ensures accepted { OnOk result (refuses_held self.now.streams (event_of name.now t mark) ≡ None) }
        ensures marker { IfOk result (λ marker. IsMarker self.now name.now t mark marker.0 marker.1) }
    {
        let Some(place) = found else {
            return Err(Refusal::Unknown);
        };
        let stream = &self.streams[place].part;
        if let Some(refusal) = refuses(stream, t, mark) {
            return Err(refusal);
        }
        // Asked for the proof alone: with the slots that are live comes what holds of all records.
        let _live = self.records.live();
        match self.slot_for(stream, mark) {
            Some(slot) => Ok((place, slot)),
            None => Err(Refusal::StoreFull),
        }
    }

    // Stages an event of a landmark: it opens, takes a value, or closes.
    pub(super) fn stage_mark<D: Disk, L: Ledger>(
        &mut self,
        disk: &mut D,
        name: &Name,
        found: Option<usize>,
        t: u64,
        what: Mark,
        blank: Blank,
    ) -> Result<Ack, ApplyError>
        requires fresh { IsFresh L.name L.parts blank }
        requires in_time { t ≤ LAST_TIME }
        requires runs { self.old.stopped ≡ false }
        requires found { IsPlaceOf name.now self.old.streams found }
        requires marked { IsInOpen what → of_part name.now self.old.streams (λ part. has_open part.landmarks.landmarks) ≡ true }
        requires one_disk { OfContent (D.seen disk.old) (StoreIsKept self.old) }
        ensures applies { Applies (event_of name.now t what) self.old self.new (D.seen disk.old) (D.seen disk.new) result }
        ensures failed { OnFailed (verdict_of_apply result) (map without_spare self.new.streams ≡ map without_spare self.old.streams) }
        ensures costs { Between (D.seen disk.old) (D.seen disk.new)
            (CostsEvent (records_held_in self.old) self.old.records self.new.records result) }
        ensures running { result ≢ Err ApplyError.Stopped }
        ensures uncalled { IfUndone (verdict_of_apply result) (disk.new ≡ disk.old) }
    {
        let (place, slot) = match self.marker(name, found, t, what) {
            Ok(marker) => marker,
            Err(refusal) => return Err(ApplyError::Refused(refusal)),
        };
        let stream = &mut self.streams[place];
        match reserve(&mut stream.part.landmarks) {
            Ok(()) => {}
            Err(_) => return Err(ApplyError::OutOfMemory),
        }
        match stream.put_mark(&mut self.records, disk, slot, t, what) {
            Ok(()) => Ok(Ack {
                n: values_held(&stream.part, &mut Steps::<L>::new(blank)),
                k: stream.part.line.len(),
            }),
            Err(Failed) => {
                self.stopped = true;
                Err(ApplyError::Disk)
            }
        }
    }
}
