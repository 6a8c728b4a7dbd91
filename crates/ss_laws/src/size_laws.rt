// Laws on how many records a stream needs and how many slots they use, each the contract of a function that does nothing.
ghost use Rattle.std.specs.Prelude.{◌≡◌, ◌+◌, ◌-◌, ◌*◌, ◌≤◌, max, ℕ, List, [], All, length, map, None};
ghost use Rattle.ss_landmarks.specs.Landmark.{all_values};
ghost use Rattle.ss_laws.specs.Sizes.{NeedsAtMost, UsesFewSlots};
ghost use Rattle.ss_model.specs.Decay.{cover, steps_met};
ghost use Rattle.ss_model.specs.History.{Happened, values_of};
ghost use Rattle.ss_model.specs.State.{records_of, state, values_in};
ghost use Rattle.ss_summary.specs.Points.{Point};
ghost use Rattle.ss_targets.specs.Lengths.{lengths_of};
ghost use Rattle.ss_targets.specs.Rule.{rule_of};

/// Where K target windows cover the values of a stream and their times lie in B steps, it needs at most 2K + B - 1 records, or one where
/// it has no value, and one for each landmark and each value of one. So each step more needs one more, and without a step it needs at most
/// 2K, since all values lie in one.
pub fn records_are_few()
    ensures steps { (history : List Happened) → All (λ s. let times = map (λ (p : Point). p.0) (values_of history s.name) in records_of s ≤
        max 1 (2 * cover (lengths_of s.params) (values_in s) + steps_met (rule_of s.params).step times - 1)
        + length s.landmarks + length (all_values s.landmarks)) (state history) }
    ensures alone { (history : List Happened) → All (λ s. s.params.within ≡ None → records_of s ≤
        max 1 (2 * cover (lengths_of s.params) (values_in s)) + length s.landmarks + length (all_values s.landmarks)) (state history) }
    ensures one_step { (times : List ℕ) → steps_met 0 times ≤ 1 }
{}

/// Where each event uses no more slots than were used before it, or than the records that stood then and one, no more are used
/// than at first, or than the most records that ever stood before an event and one.
pub fn slots_are_few()
    ensures { (history : List Happened) (extent : List Happened → ℕ) (most : ℕ) → UsesFewSlots extent history → NeedsAtMost most history →
        extent history ≤ max (extent []) (most + 1) }
{}
