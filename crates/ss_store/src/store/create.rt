// Staging the creation of a stream.
ghost use Rattle.std.specs.Prelude.{◌≡◌, ◌∷◌, ◌++◌, [], false, IsTrue, OnOk, OnErr};
ghost use Rattle.ss_codec.specs.Record.{is_valid};
ghost use Rattle.ss_codec.specs.declared.record.Record.TheVariants as record_kinds;
ghost use Rattle.ss_targets.specs.Lengths.{has_target};

use super::Store;
use crate::ApplyError;
use crate::place::next_id;
use ss_catalog::{Catalog, Name, Params, Refusal, StreamId};
use ss_codec::{Record, step_number};
use ss_landmarks::Landmarks;
use ss_line::Line;
use ss_model::Ack;
use ss_outside::{Disk, Failed};
use ss_parts::StreamParts;
use ss_schedule::Index;
use ss_stream::{HeldStream, stage_record};
use ss_targets::Target;
use std::alloc::AllocError;

// Puts a stream last, and its name into the catalog, which is the last to grow. An error leaves both as they were.
fn grow(
    streams: &mut Vec<HeldStream>,
    catalog: &mut Catalog,
    stream: HeldStream,
    name: Name,
    id: StreamId,
) -> Result<(), AllocError>
    ensures streams { OnOk result (streams.new.items ≡ streams.old.items ++ stream ∷ []) }
    ensures catalog { OnOk result (catalog.new ≡ catalog.old ++ (name, id) ∷ []) }
    ensures err_streams { OnErr result (streams.new.items ≡ streams.old.items) }
    ensures err_catalog { OnErr result (catalog.new ≡ catalog.old) }
{
    streams.reserve(1)?;
    match catalog.add(name, id) {
        Ok(()) => {}
        Err(_) => return Err(AllocError),
    }
    streams.push(stream).unwrap();
    Ok(())
}

// The record of a new stream.
fn record_of(id: u32, name: &Name, params: Params) -> Record
    requires { IsTrue (has_target params) }
    ensures value { result ≡ record_kinds.Stream id name.now params false }
    ensures valid { IsTrue (is_valid result) }
{
    // Asked for the proof alone, here and below: the bytes of a name are a name, and a step is a number of 32 bits.
    let _word = name.as_bytes();
    // A step is a number of 32 bits.
    let _step = step_number(params.within);
    Record::Stream {
        id,
        name: *name,
        params,
        dropped: false,
    }
}

impl Store {
    ghost use Rattle.std.specs.Prelude.{◌≡◌, ◌+◌, ◌≢◌, false, Some, IfOk, OnOk, IfErr, Err, None};
    ghost use Rattle.ss_outside.specs.Disk.{Between, OfContent};
    ghost use Rattle.ss_outside.specs.Verdict.{IfUndone};
    ghost use Rattle.ss_catalog.specs.declared.event.Event.TheVariants.{Create};
    ghost use Rattle.ss_targets.specs.Targets.{params_of};
    ghost use Rattle.ss_store.specs.Admitted.{IsNew};
    ghost use Rattle.ss_store.specs.Applied.{Applies};
    ghost use Rattle.ss_store.specs.Calls.{CostsEvent};
    ghost use Rattle.ss_store.specs.Errors.{verdict_of_apply};
    ghost use Rattle.ss_store.specs.Extents.{records_held_in};
    ghost use Rattle.ss_store.specs.Kept.{StoreIsKept, refuses_held};

    // The target, the number and the slot of a stream that is created, or why it isn't.
    fn admit(&self, name: &Name, params: Params) -> Result<(Target, StreamId, u32), Refusal>
        requires { self.now.stopped ≡ false }
        ensures refused { IfErr result (λ r. refuses_held self.now.streams (Create name.now params) ≡ Some r) }
        ensures accepted { OnOk result (refuses_held self.now.streams (Create name.now params) ≡ None) }
        ensures target { IfOk result (λ new. params_of new.0 ≡ params) }
        ensures new { IfOk result (λ new. IsNew self.now name.now params new.1.0 new.2) }
    {
        let Ok(target) = Target::of(params) else {
            return Err(Refusal::Param);
        };
        if self.catalog.find(name).is_some() {
            return Err(Refusal::Exists);
        }
        let Some(id) = next_id(&self.streams) else {
            return Err(Refusal::Streams);
        };
        match self.free_slot() {
            Some(slot) => Ok((target, id, slot)),
            None => Err(Refusal::StoreFull),
        }
    }

    // Stages the creation of a stream.
    pub(super) fn stage_create<D: Disk>(
        &mut self,
        disk: &mut D,
        name: Name,
        params: Params,
    ) -> Result<Ack, ApplyError>
        requires runs { self.old.stopped ≡ false }
        requires one_disk { OfContent (D.seen disk.old) (StoreIsKept self.old) }
        ensures applies { Applies (Create name params) self.old self.new (D.seen disk.old) (D.seen disk.new) result }
        ensures costs { Between (D.seen disk.old) (D.seen disk.new)
            (CostsEvent (records_held_in self.old) self.old.records self.new.records result) }
        ensures running { result ≢ Err ApplyError.Stopped }
        ensures uncalled { IfUndone (verdict_of_apply result) (disk.new ≡ disk.old) }
    {
        let (target, id, slot) = match self.admit(&name, params) {
            Ok(new) => new,
            Err(refusal) => return Err(ApplyError::Refused(refusal)),
        };
        let alloc = *self.streams.allocator();
        let part = StreamParts {
            id,
            name,
            target,
            slot,
            last_time: None,
            line: Line::new(alloc),
            landmarks: Landmarks::new(alloc),
        };
        let stream = HeldStream {
            part,
            index: Index::new(alloc, target),
        };
        match grow(&mut self.streams, &mut self.catalog, stream, name, id) {
            Ok(()) => {}
            Err(_) => return Err(ApplyError::OutOfMemory),
        }
        match stage_record(
            &mut self.records,
            disk,
            slot,
            &record_of(id.0, &name, params),
        ) {
            Ok(()) => Ok(Ack { n: 0, k: 0 }),
            Err(Failed) => {
                self.stopped = true;
                Err(ApplyError::Disk)
            }
        }
    }
}
