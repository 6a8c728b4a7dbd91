// Staging a value outside landmarks.
use super::Store;
use super::times::is_past;
use crate::ApplyError;
use ss_base::{LAST_TIME, MOST_VALUES, Steps};
use ss_catalog::{Name, Refusal};
use ss_model::Ack;
use ss_outside::Disk;
use ss_stream::values_held;
use std::sync::ledger::{Blank, Ledger};

impl Store {
    ghost use Rattle.std.specs.Prelude.{◌≡◌, ◌≢◌, ◌≤◌, false, Some, IfOk, OnOk, IfErr, Err, None, ℤ};
    ghost use Rattle.ss_outside.specs.Disk.{Between, OfContent};
    ghost use Rattle.ss_outside.specs.Verdict.{IfUndone};
    ghost use Rattle.ss_catalog.specs.declared.event.Event.TheVariants.{Value};
    ghost use Rattle.ss_model.specs.Marks.{has_open};
    ghost use Rattle.ss_store.specs.Admitted.{IsTaker};
    ghost use Rattle.ss_store.specs.Applied.{Applies};
    ghost use Rattle.ss_store.specs.Calls.{CostsEvent};
    ghost use Rattle.ss_store.specs.Errors.{verdict_of_apply};
    ghost use Rattle.ss_store.specs.Extents.{records_held_in};
    ghost use Rattle.ss_store.specs.Kept.{StoreIsKept, of_part, refuses_held};
    ghost use Rattle.ss_store.specs.Places.{IsPlaceOf};
    ghost use Rattle.ss_base.specs.Steps.{IsFresh};

    // The place of the stream that takes a value outside landmarks at a time, and the slot of its window, or why it doesn't take it.
    fn taker<L: Ledger>(
        &self,
        name: &Name,
        found: Option<usize>,
        t: u64,
        steps: &mut Steps<L>,
    ) -> Result<(usize, u32), Refusal>
        requires runs { self.now.stopped ≡ false }
        requires found { IsPlaceOf name.now self.now.streams found }
        requires plain { of_part name.now self.now.streams (λ part. has_open part.landmarks.landmarks) ≡ false }
        ensures refused { (v : ℤ) → IfErr result (λ r. refuses_held self.now.streams (Value name.now t v) ≡ Some r) }
        ensures accepted { (v : ℤ) → OnOk result (refuses_held self.now.streams (Value name.now t v) ≡ None) }
        ensures taker { IfOk result (λ taker. IsTaker self.now name.now t taker.0 taker.1) }
    {
        let Some(place) = found else {
            return Err(Refusal::Unknown);
        };
        let stream = &self.streams[place].part;
        if is_past(stream.last_time, t) {
            return Err(Refusal::Time);
        }
        if values_held(stream, steps) >= MOST_VALUES {
            return Err(Refusal::StreamFull);
        }
        match self.free_slot() {
            Some(slot) => Ok((place, slot)),
            None => Err(Refusal::StoreFull),
        }
    }

    // Stages a value outside landmarks.
    pub(super) fn stage_value<D: Disk, L: Ledger>(
        &mut self,
        disk: &mut D,
        name: &Name,
        found: Option<usize>,
        t: u64,
        v: i64,
        blank: Blank,
    ) -> Result<Ack, ApplyError>
        requires fresh { IsFresh L.name L.parts blank }
        requires in_time { t ≤ LAST_TIME }
        requires runs { self.old.stopped ≡ false }
        requires found { IsPlaceOf name.now self.old.streams found }
        requires plain { of_part name.now self.old.streams (λ part. has_open part.landmarks.landmarks) ≡ false }
        requires one_disk { OfContent (D.seen disk.old) (StoreIsKept self.old) }
        ensures applies { Applies (Value name.now t v) self.old self.new (D.seen disk.old) (D.seen disk.new) result }
        ensures costs { Between (D.seen disk.old) (D.seen disk.new)
            (CostsEvent (records_held_in self.old) self.old.records self.new.records result) }
        ensures running { result ≢ Err ApplyError.Stopped }
        ensures uncalled { IfUndone (verdict_of_apply result) (disk.new ≡ disk.old) }
    {
        let mut steps = Steps::<L>::new(blank);
        let (place, slot) = match self.taker(name, found, t, &mut steps) {
            Ok(taker) => taker,
            Err(refusal) => return Err(ApplyError::Refused(refusal)),
        };
        let stream = &mut self.streams[place];
        match stream.index.reserve_window(&mut stream.part.line, t) {
            Ok(()) => {}
            Err(_) => return Err(ApplyError::OutOfMemory),
        }
        match stream.append_value(&mut self.records, disk, slot, t, v, &mut steps) {
            Ok(()) => Ok(Ack {
                n: values_held(&stream.part, &mut steps),
                k: stream.part.line.len(),
            }),
            Err(fault) => {
                self.stopped = true;
                Err(ApplyError::from(fault))
            }
        }
    }
}
