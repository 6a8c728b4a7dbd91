// Laws on the newest value and on values that are kept, each the contract of a function that does nothing.
ghost use Rattle.std.specs.Prelude.{◌≡◌, ◌++◌, ◌&&◌, ℕ, nat_le, List, All, Some, filter, map};
ghost use Rattle.ss_landmarks.specs.Landmark.{LandmarkValue};
ghost use Rattle.ss_landmarks.specs.ValuesIn.{values_between};
ghost use Rattle.ss_summary.specs.Points.{Point};
ghost use Rattle.ss_model.specs.History.{landmarks_of, marked_of, values_of, Happened};
ghost use Rattle.ss_model.specs.Marks.{later, latest_of};
ghost use Rattle.ss_model.specs.Newest.{newest_in, newest_of};
ghost use Rattle.ss_model.specs.NewestTruth.{HoldsNewest, kept_point};
ghost use Rattle.ss_model.specs.Refusals.{IsHistory};
ghost use Rattle.ss_model.specs.State.{state};
ghost use Rattle.ss_model.specs.declared.newest.Newest.{Newest};
ghost use Rattle.ss_model.specs.Windows.{time_of_last};

/// What is told of the newest value of each stream of a state is true of every history of that state: the last time is the history's,
/// and the newest value of all that the history has of the stream came at the time that is told, and lies within what is told.
pub fn newest_values_hold_the_truth()
    ensures each { (history : List Happened) → IsHistory history →
        All (λ s. HoldsNewest (newest_of s) (later (time_of_last (values_of history s.name)) (latest_of (landmarks_of history s.name)))
        (values_of history s.name ++ marked_of history s.name)) (state history) }
    ensures named { (history : List Happened) (name : List ℕ) (told : Newest) → IsHistory history → newest_in (state history) name ≡ Some told →
        HoldsNewest told (later (time_of_last (values_of history name)) (latest_of (landmarks_of history name)))
        (values_of history name ++ marked_of history name) }
{}

/// The values of landmarks that a state has in a range are all that the history has there, in their order.
pub fn kept_values_are_of_the_history()
    ensures { (history : List Happened) (from to : ℕ) →
        All (λ s. map kept_point (values_between s.landmarks from to)
        ≡ filter (λ (p : Point). nat_le from p.0 && nat_le p.0 to) (marked_of history s.name)) (state history) }
{}
