// Laws on the answers to queries, each the contract of a function that does nothing.
ghost use Rattle.std.specs.Prelude.{◌≡◌, ◌↔◌, ℕ, ◌≤◌, Bool, ℤ, ◌≤ℤ◌, List, [], All, Contains, IsTrue};
ghost use Rattle.ss_catalog.specs.declared.event.Event.{Event};
ghost use Rattle.ss_bounds.specs.declared.fraction.Fraction.{Fraction};
ghost use Rattle.ss_bounds.specs.declared.mean.Mean.TheVariants as means;
ghost use Rattle.ss_bounds.specs.MeanTruth.{HoldsMean};
ghost use Rattle.ss_bounds.specs.Truth.{HoldsExtreme};
ghost use Rattle.ss_landmarks.specs.Free.{is_free};
ghost use Rattle.ss_summary.specs.Points.{Point};
ghost use Rattle.ss_model.specs.Answers.{HoldsPresence};
ghost use Rattle.ss_model.specs.Interval.{interval_of_count, interval_of_greatest, interval_of_least, interval_of_mean, interval_of_sum, IsExact, IsExactMean};
ghost use Rattle.ss_model.specs.Interval.{presence_of, split_windows};
ghost use Rattle.ss_model.specs.History.{marked_of, values_of, Happened};
ghost use Rattle.ss_model.specs.Marks.{marked_values};
ghost use Rattle.ss_model.specs.OpenMeans.{IsOpenByOne};
ghost use Rattle.ss_model.specs.Refusals.{IsHistory};
ghost use Rattle.ss_model.specs.Standing.{IsStream};
ghost use Rattle.ss_targets.specs.Rule.{Rule};
ghost use Rattle.ss_model.specs.State.{Stream, state};
ghost use Rattle.ss_model.specs.Truth.{is_one_of, RiseAtFree, true_count, true_greatest, true_least, true_presence, true_sum, true_values};
ghost use Rattle.ss_model.specs.Windows.{windows};
ghost use Rattle.ss_model.specs.declared.types.Window.{Window};

/// The answers that the windows of some values give hold the truth over these values, one by one: for any merge rule,
/// any times that are free, any values of landmarks, and every range.
pub fn answers_hold_the_truth()
    ensures count { (rule : Rule) (free : ℕ → Bool) (from to : ℕ) (plain marked : List Point) → RiseAtFree free 0 plain →
        let answer = interval_of_count free from to (windows rule plain) marked in
        let truth = true_count from to plain marked in (answer.0 ≤ truth) × (truth ≤ answer.1) }
    ensures sum { (rule : Rule) (free : ℕ → Bool) (from to : ℕ) (plain marked : List Point) → RiseAtFree free 0 plain →
        let answer = interval_of_sum free from to (windows rule plain) marked in
        let truth = true_sum from to plain marked in (answer.0 ≤ℤ truth) × (truth ≤ℤ answer.1) }
    ensures least { (rule : Rule) (free : ℕ → Bool) (from to : ℕ) (plain marked : List Point) → RiseAtFree free 0 plain →
        HoldsExtreme (interval_of_least free from to (windows rule plain) marked) (true_least from to plain marked) }
    ensures greatest { (rule : Rule) (free : ℕ → Bool) (from to : ℕ) (plain marked : List Point) → RiseAtFree free 0 plain →
        HoldsExtreme (interval_of_greatest free from to (windows rule plain) marked) (true_greatest from to plain marked) }
    ensures mean { (rule : Rule) (free : ℕ → Bool) (from to : ℕ) (plain marked : List Point) → RiseAtFree free 0 plain →
        HoldsMean (interval_of_mean free from to (windows rule plain) marked) (true_values from to plain marked) }
    ensures presence { (value : ℤ) (rule : Rule) (free : ℕ → Bool) (from to : ℕ) (plain marked : List Point) → RiseAtFree free 0 plain →
        HoldsPresence (presence_of value free from to (windows rule plain) marked) (true_presence value from to plain marked) }
{}

/// The answers of each stream of a state hold the truth over all values of the stream, those outside landmarks and those of
/// landmarks, for every history of that state.
pub fn answers_hold_the_truth_of_histories()
    ensures count { (history : List Happened) (from to : ℕ) → IsHistory history →
        All (λ s. let answer = interval_of_count (is_free s.landmarks) from to s.windows (marked_values s.landmarks) in
        let truth = true_count from to (values_of history s.name) (marked_of history s.name) in
        (answer.0 ≤ truth) × (truth ≤ answer.1)) (state history) }
    ensures sum { (history : List Happened) (from to : ℕ) → IsHistory history →
        All (λ s. let answer = interval_of_sum (is_free s.landmarks) from to s.windows (marked_values s.landmarks) in
        let truth = true_sum from to (values_of history s.name) (marked_of history s.name) in
        (answer.0 ≤ℤ truth) × (truth ≤ℤ answer.1)) (state history) }
    ensures least { (history : List Happened) (from to : ℕ) → IsHistory history →
        All (λ s. HoldsExtreme (interval_of_least (is_free s.landmarks) from to s.windows (marked_values s.landmarks))
        (true_least from to (values_of history s.name) (marked_of history s.name))) (state history) }
    ensures greatest { (history : List Happened) (from to : ℕ) → IsHistory history →
        All (λ s. HoldsExtreme (interval_of_greatest (is_free s.landmarks) from to s.windows (marked_values s.landmarks))
        (true_greatest from to (values_of history s.name) (marked_of history s.name))) (state history) }
    ensures mean { (history : List Happened) (from to : ℕ) → IsHistory history →
        All (λ s. HoldsMean (interval_of_mean (is_free s.landmarks) from to s.windows (marked_values s.landmarks))
        (true_values from to (values_of history s.name) (marked_of history s.name))) (state history) }
    ensures presence { (value : ℤ) (history : List Happened) (from to : ℕ) → IsHistory history →
        All (λ s. HoldsPresence (presence_of value (is_free s.landmarks) from to s.windows (marked_values s.landmarks))
        (true_presence value from to (values_of history s.name) (marked_of history s.name))) (state history) }
{}

/// Where the range splits no window, an answer is one number, or says that there is no value. Only whether a value is there may
/// be left open by a window that lies whole in the range.
pub fn unsplit_answers_are_exact()
    ensures count { (free : ℕ → Bool) (from to : ℕ) (ws : List Window) (marked : List Point) → split_windows free from to ws ≡ [] →
        (interval_of_count free from to ws marked).0 ≡ (interval_of_count free from to ws marked).1 }
    ensures sum { (free : ℕ → Bool) (from to : ℕ) (ws : List Window) (marked : List Point) → split_windows free from to ws ≡ [] →
        (interval_of_sum free from to ws marked).0 ≡ (interval_of_sum free from to ws marked).1 }
    ensures least { (free : ℕ → Bool) (from to : ℕ) (ws : List Window) (marked : List Point) → split_windows free from to ws ≡ [] →
        IsExact (interval_of_least free from to ws marked) }
    ensures greatest { (free : ℕ → Bool) (from to : ℕ) (ws : List Window) (marked : List Point) → split_windows free from to ws ≡ [] →
        IsExact (interval_of_greatest free from to ws marked) }
    ensures mean { (free : ℕ → Bool) (from to : ℕ) (ws : List Window) (marked : List Point) → split_windows free from to ws ≡ [] →
        IsExactMean (interval_of_mean free from to ws marked) }
{}

/// It is left open whether there is a mean by one window alone: the range splits it and no other, and no value is known beside it. The ends
/// are this window's least and greatest value.
pub fn one_window_leaves_means_open()
    ensures { (s : Stream) (from to : ℕ) (lo hi : Fraction) → IsStream s →
        interval_of_mean (is_free s.landmarks) from to s.windows (marked_values s.landmarks) ≡ means.Maybe lo hi →
        IsOpenByOne from to s.windows (marked_values s.landmarks) lo hi }
{}

/// The truth of whether a value is there is true exactly where the values that are asked for contain it.
pub fn one_of_some_is_among_them()
    ensures { (v : ℤ) (values : List ℤ) → IsTrue (is_one_of v values) ↔ Contains values v }
{}
