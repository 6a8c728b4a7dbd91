// What the number of a frame says, beside a store.
ghost use Rattle.std.specs.Prelude.{◌≡◌, false, List, length};
ghost use Rattle.ss_catalog.specs.Events.{event_name};
ghost use Rattle.ss_model.specs.History.{Happened};
ghost use Rattle.ss_model.specs.Refusals.{IsHistory};
ghost use Rattle.ss_model.specs.State.{state};
ghost use Rattle.ss_parts.specs.Held.{AllAgree};
ghost use Rattle.ss_store.specs.Kept.{part_named};
ghost use Rattle.ss_replica.specs.Held.{due_held, events_named};
ghost use Rattle.ss_replica.specs.Offers.{due_after, due_in};
ghost use Rattle.ss_replica.specs.Own.{own, step_of_event};

use crate::judging::Due;
use ss_catalog::{Event, Name};
use ss_codec::step_number;
use ss_frames::Frame;
use ss_store::Store;

/// The name of the stream that an event is for.
pub fn event_name(event: &Event) -> Name
    ensures { result ≡ event_name event.now }
{
    match *event {
        Event::Create { name, .. } => name,
        Event::Value { name, .. } => name,
        Event::Open { name, .. } => name,
        Event::Close { name, .. } => name,
        Event::Drop { name } => name,
    }
}

/// The step of the stream that an event creates, 0 for none.
pub fn step_of_event(event: &Event) -> u32
    ensures { result ≡ step_of_event event.now }
{
    match *event {
        Event::Create { params, .. } => step_number(params.within),
        Event::Value { .. } | Event::Open { .. } | Event::Close { .. } | Event::Drop { .. } => 0,
    }
}

/// How many events the stream of a name has taken, and none where it doesn't stand.
pub fn events_named(store: &Store, name: &Name) -> u64
    ensures held { store.now.stopped ≡ false → result ≡ events_named (part_named name.now store.now.streams) }
    ensures history { (history : List Happened) → IsHistory history → AllAgree store.now.streams (state history) →
        result ≡ length (own history name.now) }
{
    match store.find(name) {
        None => 0,
        Some(id) => store.events(id),
    }
}

// What the number of a frame says after so many events of its stream.
fn due_after(events: u64, number: u64) -> Due
    ensures { result ≡ due_after events number }
{
    if number <= events {
        Due::Old
    } else if 1 < number - events {
        Due::Gap(events)
    } else {
        Due::Next
    }
}

/// What is due of a frame: whether its event is the next of its stream in the store. It makes no call of a disk and takes no memory.
pub fn due(store: &Store, frame: &Frame) -> Due
    // By what is held of the stream, over every disk.
    ensures held { store.now.stopped ≡ false → result ≡ due_held store.now.streams frame.now }
    // After each history whose state is held.
    ensures history { (history : List Happened) → IsHistory history → AllAgree store.now.streams (state history) →
        result ≡ due_in history frame.now }
{
    due_after(events_named(store, &event_name(&frame.event)), frame.number)
}
