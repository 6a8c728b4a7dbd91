// The frame of an event that a store has taken.
ghost use Rattle.std.specs.Prelude.{◌≡◌, ◌++◌, List, [], ◌∷◌};
ghost use Rattle.ss_model.specs.History.{Happened, added};
ghost use Rattle.ss_model.specs.Refusals.{IsHistory};
ghost use Rattle.ss_model.specs.State.{state};
ghost use Rattle.ss_parts.specs.Held.{AllAgree};
ghost use Rattle.ss_replica.specs.Own.{event_frame};

use crate::numbers::{event_name, events_named, step_of_event};
use ss_catalog::Event;
use ss_frames::Frame;
use ss_store::Store;

/// The frame of the event that a store has taken last: its number is its place among the events of its stream. A drop has none. It makes
/// no call of a disk and takes no memory.
pub fn frame_after(store: &Store, event: &Event) -> Option<Frame>
    ensures { (history : List Happened) → IsHistory (history ++ added event.now ∷ []) →
        AllAgree store.now.streams (state (history ++ added event.now ∷ [])) → result ≡ event_frame history event.now }
{
    let name = event_name(event);
    // That the bytes of the name are a name is a clause of this call, and that a step is a number of 32 bits one of the next. A valid
    // frame needs both.
    let _word = name.as_bytes();
    let _step = step_of_event(event);
    Frame::of(events_named(store, &name), *event)
}
