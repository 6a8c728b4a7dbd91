// Laws of histories and their states, each the contract of a function that does nothing.
ghost use Rattle.std.specs.Prelude.{◌≡◌, ◌≢◌, ◌+◌, ◌-◌, ◌*◌, ◌<◌, ◌≤◌, ◌↔◌, ℕ, List, [], ◌∷◌, ◌++◌, length, map, slice_get, All, IfSome, None, Some};
ghost use Rattle.ss_catalog.specs.Events.{event_name};
ghost use Rattle.ss_catalog.specs.declared.event.Event.{Event};
ghost use Rattle.ss_targets.specs.Lengths.{lengths_of};
ghost use Rattle.ss_summary.specs.Points.{Origin, Point};
ghost use Rattle.ss_model.specs.Decay.{cover, steps_met, IsReadWithinTarget, IsWithinTarget};
ghost use Rattle.ss_model.specs.History.{CanBeSaid, landmarks_of, values_of, Happened};
ghost use Rattle.ss_model.specs.Marks.{later, latest_of};
ghost use Rattle.ss_model.specs.Origins.{as_old, unfiltered_stream};
ghost use Rattle.ss_model.specs.Refusals.{IsHistory, refuses};
ghost use Rattle.ss_targets.specs.Rule.{rule_of};
ghost use Rattle.ss_model.specs.Shown.{placed_of};
ghost use Rattle.ss_model.specs.Standing.{IsState};
ghost use Rattle.ss_model.specs.State.{last_time, state, Stream, stream_named, stream_numbered, values_in};
ghost use Rattle.ss_model.specs.Steps.{stepped_from};
ghost use Rattle.ss_model.specs.Windows.{time_of_last, windows};
ghost use Rattle.ss_model.specs.declared.types.Placed.{Placed};

/// Incremental equals from scratch: the state of a history with one more event, which isn't refused, comes from the state
/// before it by one step.
pub fn states_go_on_by_steps()
    ensures start { state [] ≡ [] }
    ensures step { (history : List Happened) (event : Event) (origin : Origin) → refuses (state history) event ≡ None →
        state (history ++ (event, origin) ∷ []) ≡ stepped_from origin (state history) event }
{}

/// A history goes on by each event that can be said and isn't refused, and by no other.
pub fn histories_go_on()
    ensures start { IsHistory [] }
    ensures step { (history : List Happened) (event : Event) (origin : Origin) → IsHistory (history ++ (event, origin) ∷ [])
        ↔ IsHistory history × CanBeSaid event × (refuses (state history) event ≡ None) }
{}

/// What every state meets stays so under a step, and so it holds of the state of every history.
pub fn states_stay_states()
    ensures start { IsState [] }
    ensures step { (origin : Origin) (streams : List Stream) (event : Event) → IsState streams → CanBeSaid event →
        refuses streams event ≡ None → IsState (stepped_from origin streams event) }
    ensures histories { (history : List Happened) → IsHistory history → IsState (state history) }
{}

/// Where the values of a history are from changes nothing but the filters of windows. Were all of them old, each filter would have
/// all bits, and the same events would be refused.
pub fn origins_change_filters_alone()
    ensures state { (history : List Happened) → state (map as_old history) ≡ map unfiltered_stream (state history) }
    ensures history { (history : List Happened) → IsHistory (map as_old history) ↔ IsHistory history }
{}

/// An event changes no stream but the one that it names.
pub fn other_streams_stay()
    ensures { (origin : Origin) (streams : List Stream) (event : Event) (name : List ℕ) → name ≢ event_name event →
        stream_named name (stepped_from origin streams event) ≡ stream_named name streams }
{}

/// What is read off a stream of a state, by the values that the history has of it.
pub fn streams_are_of_their_values()
    ensures windows { (history : List Happened) →
        All (λ s. s.windows ≡ windows (rule_of s.params) (values_of history s.name)) (state history) }
    ensures count { (history : List Happened) → All (λ s. values_in s ≡ length (values_of history s.name)) (state history) }
    ensures landmarks { (history : List Happened) → All (λ s. s.landmarks ≡ landmarks_of history s.name) (state history) }
    ensures time { (history : List Happened) →
        All (λ s. last_time s ≡ later (time_of_last (values_of history s.name)) (latest_of (landmarks_of history s.name))) (state history) }
{}

/// In the state of a history each stream has at most 2K + B - 2 windows where K target windows cover its values and their times lie in B
/// steps, so at most 2K - 1 without a step. No window is longer than the target window that holds its newest value.
pub fn states_keep_to_their_targets()
    ensures decay { (history : List Happened) → All (λ s. 0 < values_in s → length s.windows + 2 ≤ 2 * cover (lengths_of s.params) (values_in s)
        + steps_met (rule_of s.params).step (map (λ (p : Point). p.0) (values_of history s.name))) (state history) }
    ensures decay_alone { (history : List Happened) → All (λ s. s.params.within ≡ None → 0 < values_in s →
        length s.windows + 1 ≤ 2 * cover (lengths_of s.params) (values_in s)) (state history) }
    ensures within { (history : List Happened) → IsHistory history →
        All (λ s. All (IsWithinTarget (lengths_of s.params) (values_in s)) s.windows) (state history) }
    ensures read { (history : List Happened) (streams : List Stream) (number place : ℕ) (p : Placed) → IsHistory history →
        streams ≡ state history → IfSome (stream_numbered number streams) (λ s. slice_get (map placed_of s.windows) place ≡ Some p) →
        IfSome (stream_numbered number streams) (λ s. IsReadWithinTarget (lengths_of s.params) (values_in s) p) }
{}
