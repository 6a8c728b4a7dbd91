// How many events a stream has taken.
ghost use Rattle.std.specs.Prelude.{◌≡◌, ◌*◌, ◌≤◌};
ghost use Rattle.ss_landmarks.specs.declared.landmarks.TheConstants.{MOST_LANDMARK_SLOTS};
ghost use Rattle.ss_store.specs.Events.{mark_events};

use super::Store;
use ss_base::Steps;
use ss_catalog::StreamId;
use ss_landmarks::Landmarks;
use ss_stream::values_held;
use std::marker::Brand;
use std::sync::ledger::{Blank, Ledger};

// How many events gave a stream its landmarks: one opened each of them, one closed each that is closed, and one was each value.
fn mark_events(landmarks: &Landmarks) -> u64
    ensures value { result ≡ mark_events landmarks.now.landmarks }
    ensures few { result ≤ 3 * MOST_LANDMARK_SLOTS }
{
    let opened = u64::from(landmarks.count());
    let still_open = if landmarks.opened().is_some() { 1 } else { 0 };
    opened + (opened - still_open) + u64::from(landmarks.values())
}

impl Store {
    ghost use Rattle.std.specs.Prelude.{◌≡◌, ◌+◌, false, List, length, IsSome, IfSome};
    ghost use Rattle.ss_base.specs.Steps.{IsFresh};
    ghost use Rattle.ss_model.specs.History.{Happened, events_of};
    ghost use Rattle.ss_model.specs.Refusals.{IsHistory};
    ghost use Rattle.ss_model.specs.State.{state};
    ghost use Rattle.ss_parts.specs.Held.{AllAgree};
    ghost use Rattle.ss_store.specs.Events.{events_held};
    ghost use Rattle.ss_store.specs.Kept.{part_numbered};

    /// How many events the stream of a number has taken since its `create`, with that one. It reads nothing of the disk and takes no
    /// memory. The number outlives a reopening, since it is one for the `create`, one for each value outside landmarks, and for each
    /// landmark one, one more if it is closed, and one for each of its values.
    pub fn events(&self, id: StreamId) -> u64
        requires { IsSome (part_numbered id.0 self.now.streams) }
        // By what is held of the stream, over every disk.
        ensures held { self.now.stopped ≡ false → IfSome (part_numbered id.0 self.now.streams) (λ part. result ≡ events_held part) }
        // In each history whose state is held: the events that name the stream after its last `create`, and that one.
        ensures history { (history : List Happened) → IsHistory history → AllAgree self.now.streams (state history) →
            IfSome (part_numbered id.0 self.now.streams) (λ part. result ≡ 1 + length (events_of history part.name)) }
    {
        self.events_in::<Brand>(id, Blank::new(1))
    }

    // The same, with a counter.
    fn events_in<L: Ledger>(&self, id: StreamId, blank: Blank) -> u64
        requires fresh { IsFresh L.name L.parts blank }
        requires stands { IsSome (part_numbered id.0 self.now.streams) }
        ensures held { self.now.stopped ≡ false → IfSome (part_numbered id.0 self.now.streams) (λ part. result ≡ events_held part) }
        ensures history { (history : List Happened) → IsHistory history → AllAgree self.now.streams (state history) →
            IfSome (part_numbered id.0 self.now.streams) (λ part. result ≡ 1 + length (events_of history part.name)) }
    {
        // What is held is whole, where the store runs.
        let _streams = self.streams.len();
        let part = self.part(id);
        let marks = mark_events(&part.landmarks);
        let values = values_held(part, &mut Steps::<L>::new(blank));
        values.saturating_add(1 + marks)
    }
}
