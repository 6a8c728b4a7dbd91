// Laws of replicas, each the contract of a function that does nothing.
ghost use Rattle.std.specs.Prelude.{◌≡◌, ◌⊎◌, ℕ, ◌+◌, ◌≤◌, List, [], ◌∷◌, ◌++◌, length, map, All, Some, None, Err, true};
ghost use Rattle.ss_catalog.specs.declared.event.Event.{Event};
ghost use Rattle.ss_catalog.specs.declared.event.Event.TheVariants.{Create};
ghost use Rattle.ss_catalog.specs.declared.params.Params.{Params};
ghost use Rattle.ss_catalog.specs.declared.refusal.Refusal.{Refusal};
ghost use Rattle.ss_catalog.specs.declared.refusal.Refusal.TheVariants.{Streams, StoreFull};
ghost use Rattle.ss_model.specs.History.{Happened, added, events_of};
ghost use Rattle.ss_model.specs.Refusals.{IsHistory};
ghost use Rattle.ss_model.specs.State.{Stream, state, stream_named};
ghost use Rattle.ss_store.specs.Recover.{Stands};
ghost use Rattle.ss_frames.specs.Frame.{FrameState};
ghost use Rattle.ss_replica.specs.Fronts.{AreFronts, IsFrameOf, IsOfFront, IsPrimary, comes_last, drops_none};
ghost use Rattle.ss_replica.specs.Held.{StandsForOffer};
ghost use Rattle.ss_replica.specs.Offers.{after_offers, due_in, offered};
ghost use Rattle.ss_replica.specs.Own.{counted, frame_of, own};

use crate::judging::Due;

/// What a stream owns of a history is its create, with its parameters, and then its events after that. One that doesn't stand owns
/// nothing.
pub fn streams_own_their_events_since_their_create()
    ensures some { (history : List Happened) (name : List ℕ) (s : Stream) → IsHistory history → stream_named name (state history) ≡ Some s →
        own history name ≡ added (Create name s.params) ∷ map (λ e. counted e.1 e.0) (events_of history name) }
    ensures none { (history : List Happened) (name : List ℕ) → IsHistory history → stream_named name (state history) ≡ None → own history name ≡ [] }
    ensures count { (history : List Happened) (name : List ℕ) (s : Stream) → IsHistory history → stream_named name (state history) ≡ Some s →
        length (own history name) ≡ 1 + length (events_of history name) }
{}

/// The frame of an event that a history goes on by is the next one of its stream after this history, and one of each history that goes
/// on so. A create has the number 1, and each other event a greater one.
pub fn events_have_the_next_frames()
    ensures next { (history : List Happened) (event : Event) → drops_none event ≡ true → IsHistory (history ++ added event ∷ []) →
        due_in history (frame_of history event) ≡ Due.Next }
    ensures own { (before after : List Happened) (event : Event) → IsFrameOf (before ++ added event ∷ after) (frame_of before event) }
    ensures first { (history : List Happened) (name : List ℕ) (params : Params) → (frame_of history (Create name params)).number ≡ 1 }
    ensures later { (history : List Happened) (event : Event) → comes_last event ≡ true → IsHistory (history ++ added event ∷ []) →
        2 ≤ (frame_of history event).number }
{}

/// However frames of a primary come to a replica, some lost, some again and in any order: each stream of the replica owns a front of what
/// the primary's stream of the same name owns, if it did so before, and it has the parameters, the windows and the landmarks that this
/// stream had after a front of the primary's history. The same holds of what a crash leaves at any moment of an offer.
pub fn replicas_own_fronts_of_their_primary()
    ensures history { (primary start : List Happened) (frames : List FrameState) → IsPrimary primary → IsHistory start → AreFronts start primary →
        All (IsFrameOf primary) frames → IsHistory (after_offers start frames) }
    ensures fronts { (primary start : List Happened) (frames : List FrameState) → IsPrimary primary → IsHistory start → AreFronts start primary →
        All (IsFrameOf primary) frames → AreFronts (after_offers start frames) primary }
    ensures streams { (primary history : List Happened) (name : List ℕ) (s : Stream) → IsPrimary primary → IsHistory history →
        AreFronts history primary → stream_named name (state history) ≡ Some s → IsOfFront primary name s }
    ensures crash { (primary history : List Happened) (frame : FrameState) (image : List ℕ) → IsPrimary primary → IsHistory history →
        AreFronts history primary → IsFrameOf primary frame → StandsForOffer history frame image →
        (then : List Happened) × Stands then image × AreFronts then primary }
{}

/// A frame of the primary is refused by such a replica for room alone: it has as many streams, or as many records, as it can.
pub fn frames_are_refused_for_room_alone()
    ensures { (primary history : List Happened) (frame : FrameState) (r : Refusal) → IsPrimary primary → IsHistory history →
        AreFronts history primary → IsFrameOf primary frame → (offered history frame).reply ≡ Err r → (r ≡ Streams) ⊎ (r ≡ StoreFull) }
{}
