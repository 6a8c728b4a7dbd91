// What the drop of a stream writes: the record that says so, and zeros in these slots.
ghost use Rattle.std.specs.Prelude.{◌≡◌, ◌+◌, ◌++◌, map, true, IfOk, IsTrue, OnOk};
ghost use Rattle.ss_codec.specs.Record.{is_valid};
ghost use Rattle.ss_stream.specs.Dropping.{dropped_record, slots_in_turn};

use ss_base::Steps;
use ss_codec::{Record, step_number};
use ss_landmarks::Landmarks;
use ss_line::Line;
use ss_parts::{StreamParts, number_of};
use std::alloc::{AllocError, Global};
use std::sync::ledger::Ledger;

// Puts the slots of windows last, in order.
fn push_window_slots<L: Ledger>(
    slots: &mut Vec<u32>,
    line: &Line,
    steps: &mut Steps<L>,
) -> Result<(), AllocError>
    ensures { OnOk result (slots.new.items ≡ slots.old.items ++ map (λ e. e.slot) (map (λ e. e.1) line.now.entries)) }
{
    // Asked for the proof alone, here and below: with its length comes what holds of each line.
    let _len = line.len();
    let Some(mut at) = line.first() else {
        return Ok(());
    };
    slots.push(line.get(at, steps).slot)?;
    while let Some(next) = line.neighbours(at, steps).1 {
        slots.push(line.get(next, steps).slot)?;
        at = next;
    }
    Ok(())
}

// Puts the slots of landmarks and then those of their values last, in order.
fn push_mark_slots(slots: &mut Vec<u32>, landmarks: &Landmarks) -> Result<(), AllocError>
    ensures { OnOk result (slots.new.items ≡ slots.old.items ++ (landmarks.now.slots ++ landmarks.now.value_slots)) }
{
    let marks = landmarks.count() + landmarks.values();
    for place in 0..marks {
        slots.push(landmarks.slot_at(place))?;
    }
    Ok(())
}

/// The slots of all records of a stream, its own last.
pub fn slots_of<L: Ledger>(
    alloc: Global,
    part: &StreamParts,
    steps: &mut Steps<L>,
) -> Result<Vec<u32>, AllocError>
    ensures { IfOk result (λ slots. slots.items ≡ slots_in_turn part.now) }
{
    let mut slots = Vec::new(alloc);
    push_window_slots(&mut slots, &part.line, steps)?;
    push_mark_slots(&mut slots, &part.landmarks)?;
    slots.push(part.slot)?;
    Ok(slots)
}

/// The record of a stream that was dropped.
pub fn dropped_record(part: &StreamParts) -> Record
    ensures value { result ≡ dropped_record part.now }
    ensures valid { IsTrue (is_valid result) }
{
    let _word = part.name.as_bytes();
    let params = part.target.params();
    // A step is a number of 32 bits.
    let _step = step_number(params.within);
    Record::Stream {
        id: number_of(part),
        name: part.name,
        params,
        dropped: true,
    }
}
