// A stream, made of its own record and the others.
ghost use Rattle.std.specs.Prelude.{◌≡◌, ◌<◌, All, length, IsTrue};
ghost use Rattle.ss_targets.specs.Lengths.{has_target};
ghost use Rattle.ss_model.specs.declared.types.TheConstants.{MOST_RECORDS};
ghost use Rattle.ss_recover.specs.Order.{stream_of};
ghost use Rattle.ss_recover.specs.Shown.{BuildsAs};
ghost use Rattle.ss_recover.specs.Usable.{IsUsable};

use crate::RecoverError;
use crate::found::Found;
use crate::marking::{are_marks, later, marks_of};
use crate::windows::{keep_step, lie_free, tile, times_rise, windows_of};
use ss_base::Steps;
use ss_catalog::{Name, Params, StreamId};
use ss_parts::StreamParts;
use ss_targets::Target;
use std::alloc::Global;
use std::sync::ledger::Ledger;

// What a stream's own record says, and its slot.
#[derive(Clone, Copy)]
pub struct Head {
    pub slot: u32,
    pub id: u32,
    pub name: Name,
    pub params: Params,
}

// The stream whose own record says this, with the windows and the landmarks of its other records. None says that these break
// a condition.
pub fn build<L: Ledger>(
    alloc: Global,
    head: Head,
    rest: &[Found],
    steps: &mut Steps<L>,
) -> Result<Option<StreamParts>, RecoverError>
    requires target { IsTrue (has_target head.params) }
    requires usable { All (λ f. IsUsable f.holds) rest.now }
    requires own { All (λ f. stream_of f.holds ≡ head.id) rest.now }
    requires few { length rest.now < MOST_RECORDS }
    ensures { BuildsAs (record { number = head.id; name = head.name; params = head.params }) head.slot rest.now result }
{
    if !tile(head.id, rest) {
        return Ok(None);
    }
    if !times_rise(head.id, rest) {
        return Ok(None);
    }
    let Ok(target) = Target::of(head.params) else {
        return Err(RecoverError::OutOfMemory);
    };
    if !keep_step(&target, head.id, rest) {
        return Ok(None);
    }
    if !are_marks(head.id, rest) {
        return Ok(None);
    }
    let marks = marks_of(alloc, head.id, rest)?;
    if !lie_free(&marks.landmarks, head.id, rest, steps) {
        return Ok(None);
    }
    let windows = windows_of(alloc, head.id, rest, steps)?;
    Ok(Some(StreamParts {
        id: StreamId(head.id),
        name: head.name,
        target,
        slot: head.slot,
        last_time: later(windows.newest, marks.latest),
        line: windows.line,
        landmarks: marks.landmarks,
    }))
}
