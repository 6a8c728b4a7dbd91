// What the landmarks of one stream take.
ghost use Rattle.std.specs.Prelude.{◌≡◌, ◌≢◌, ◌+◌, ◌<◌, ◌≤◌, length, Some, IsTrue, OnOk, OnErr};
ghost use Rattle.ss_outside.specs.Disk.{OfContent};
ghost use Rattle.ss_outside.specs.Step.{Step};
ghost use Rattle.ss_outside.specs.Verdict.{verdict};
ghost use Rattle.ss_journal.specs.declared.format.TheConstants.{MOST_SLOTS};
ghost use Rattle.ss_journal.specs.Kept.{IsSettled};
ghost use Rattle.ss_records.specs.Kept.{AreKept};
ghost use Rattle.ss_codec.specs.Record.{is_valid};
ghost use Rattle.ss_codec.specs.declared.record.Record.TheVariants.{Free};
ghost use Rattle.ss_landmarks.specs.Landmark.{all_values};
ghost use Rattle.ss_landmarks.specs.Landmarks.{AreKnown};
ghost use Rattle.ss_model.specs.Marks.{later};
ghost use Rattle.ss_parts.specs.Held.{mark_slots, slots_held};
ghost use Rattle.ss_stream.specs.Calls.{StagesAtCost};
ghost use Rattle.ss_stream.specs.Changing.{CanTakeMark, HasSameWindows, HasNoLessRoom, HasTakenMark, KeepsWhole, TakesMark};
ghost use Rattle.ss_stream.specs.Marking.{CanMark, FitsMark, landmarks_after, mark_record, slots_after, slots_used, start_open, value_slots_after, values_open};
ghost use Rattle.ss_stream.specs.Slots.{AreSomeLive};

use crate::held::HeldStream;
use crate::writing::{stage_record, stage_replaced};
use ss_base::LAST_TIME;
use ss_codec::Record;
use ss_landmarks::{Landmarks, MOST_LANDMARK_SLOTS};
use ss_outside::{Disk, Failed};
use ss_parts::{StreamParts, number_of};
use ss_records::Records;
use std::alloc::AllocError;

/// What the landmarks of a stream take at a time: one more opens, the open one takes a value, or it closes.
#[derive(Clone, Copy, Debug)]
pub enum Mark {
    Open,
    Value(i64),
    Close,
}

// When the open landmark opened, and how many values it has; zeros where none is open.
fn open_figures(landmarks: &Landmarks) -> (u64, u32)
    ensures start { result.0 ≡ start_open landmarks.now.landmarks }
    ensures values { result.1 ≡ values_open landmarks.now.landmarks }
{
    match landmarks.opened() {
        Some((start, _, values)) => (start, values),
        None => (0, 0),
    }
}

// The record that a mark puts.
fn mark_record(part: &StreamParts, t: u64, mark: Mark) -> Record
    requires can { CanMark part.now.landmarks.landmarks t mark }
    requires few { length (mark_slots part.now) < MOST_SLOTS }
    requires time { t ≤ LAST_TIME }
    ensures value { result ≡ mark_record part.now t mark }
    ensures valid { IsTrue (is_valid result) }
    ensures some { result ≢ Free }
    ensures known { AreKnown part.now.landmarks }
{
    let id = number_of(part);
    let number = part.landmarks.count();
    let (start, values) = open_figures(&part.landmarks);
    match mark {
        Mark::Open => Record::Landmark {
            id,
            number: number + 1,
            values: 0,
            start: t,
            finish: None,
        },
        Mark::Value(v) => Record::Value {
            id,
            number,
            index: values + 1,
            t,
            v,
        },
        Mark::Close => Record::Landmark {
            id,
            number,
            values,
            start,
            finish: Some(t),
        },
    }
}

/// Makes room for what one more mark leaves in memory. An error leaves what is held, and no room falls.
pub fn reserve(landmarks: &mut Landmarks) -> Result<(), AllocError>
    requires landmarks { length landmarks.old.landmarks < MOST_LANDMARK_SLOTS }
    requires values { length (all_values landmarks.old.landmarks) < MOST_LANDMARK_SLOTS }
    ensures room { OnOk result (1 ≤ landmarks.new.room) }
    ensures value_room { OnOk result (1 ≤ landmarks.new.value_room) }
    ensures grown { HasNoLessRoom landmarks.old landmarks.new }
{
    let reserved = landmarks.reserve();
    // Asked for the proof alone, here and below: with their number comes what holds of all landmarks.
    let _count = landmarks.count();
    reserved
}

// Takes a mark into the landmarks that are held.
fn take_mark(landmarks: &mut Landmarks, slot: u32, t: u64, mark: Mark)
    requires can { CanMark landmarks.old.landmarks t mark }
    requires room { 1 ≤ landmarks.old.room }
    requires value_room { 1 ≤ landmarks.old.value_room }
    requires time { t ≤ LAST_TIME }
    ensures landmarks { landmarks.new.landmarks ≡ landmarks_after landmarks.old.landmarks t mark }
    ensures slots { landmarks.new.slots ≡ slots_after landmarks.old.slots slot mark }
    ensures value_slots { landmarks.new.value_slots ≡ value_slots_after landmarks.old.value_slots slot mark }
    ensures known { AreKnown landmarks.new }
{
    match mark {
        Mark::Open => landmarks.start(t, slot),
        Mark::Value(v) => landmarks.add(t, v, slot),
        Mark::Close => landmarks.finish(t),
    }
    let _count = landmarks.count();
}

// The later of a last time, where there is one, and another.
fn later(last_time: Option<u64>, t: u64) -> u64
    ensures { Some result ≡ later last_time (Some t) }
{
    match last_time {
        Some(last) => last.max(t),
        None => t,
    }
}

impl HeldStream {
    /// Opens a landmark of a stream, adds a value to the open one, or closes it, and stages that as one transaction. There is room
    /// for what is kept of it.
    pub fn put_mark<D: Disk>(
        &mut self,
        records: &mut Records,
        disk: &mut D,
        slot: u32,
        t: u64,
        mark: Mark,
    ) -> Result<(), Failed>
        requires settled { IsSettled records.old.journal }
        requires can { CanTakeMark records.old self.old.part slot t mark }
        requires time { t ≤ LAST_TIME }
        requires live { AreSomeLive (slots_held self.old.part) records.old.live }
        requires one_disk { OfContent (D.seen disk.old) (AreKept records.old) }
        ensures takes { Step (verdict result) (D.seen disk.old) (D.seen disk.new)
            (StagesAtCost (TakesMark self.old.part self.new.part t mark records.old records.new result) (slots_used mark slot) 1
            records.old records.new result) }
        ensures fits { FitsMark mark }
        ensures same { HasSameWindows self.old.part self.new.part }
        ensures index { self.new.index ≡ self.old.index }
        ensures taken { OnOk result (HasTakenMark self.old.part self.new.part t mark) }
        ensures whole { OnOk result (KeepsWhole self.old.part self.new.part records.old records.new (slots_used mark slot)) }
        ensures err { OnErr result (self.new.part ≡ self.old.part) }
    {
        let written = mark_record(&self.part, t, mark);
        match mark {
            Mark::Open | Mark::Value(_) => stage_record(records, disk, slot, &written)?,
            Mark::Close => stage_replaced(records, disk, slot, &written)?,
        }
        take_mark(&mut self.part.landmarks, slot, t, mark);
        self.part.last_time = Some(later(self.part.last_time, t));
        Ok(())
    }
}
