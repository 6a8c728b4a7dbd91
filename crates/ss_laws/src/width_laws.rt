// Laws on how wide an answer is, each the contract of a function that does nothing.
ghost use Rattle.std.specs.Prelude.{◌+◌, ◌≤◌, ℕ, Bool, ◌+ℤ◌, ◌≤ℤ◌, List, All};
ghost use Rattle.ss_bounds.specs.Split.{IsSplit, SplitFigures, sum_interval};
ghost use Rattle.ss_landmarks.specs.Free.{is_free};
ghost use Rattle.ss_laws.specs.Ages.{open_at, open_sum, open_sums};
ghost use Rattle.ss_model.specs.History.{Happened, values_of};
ghost use Rattle.ss_model.specs.Interval.{interval_of_count, interval_of_sum, split_windows};
ghost use Rattle.ss_model.specs.Marks.{marked_values};
ghost use Rattle.ss_model.specs.Refusals.{IsHistory};
ghost use Rattle.ss_targets.specs.Rule.{Rule};
ghost use Rattle.ss_model.specs.State.{state};
ghost use Rattle.ss_model.specs.Truth.{RiseAtFree};
ghost use Rattle.ss_model.specs.Windows.{windows};
ghost use Rattle.ss_summary.specs.Points.{Point};
ghost use Rattle.ss_targets.specs.Lengths.{lengths_of};
ghost use Rattle.ss_targets.specs.Windowing.{ArePositive, NeverFall};

/// A count is left open by no more than what lies between the first and the last value of the target windows at the two ends of the
/// range, each where that end cuts a window: of some values, and in the state of each history.
pub fn counts_are_as_wide_as_their_ages()
    ensures of_values { (rule : Rule) (free : ℕ → Bool) (from to : ℕ) (plain marked : List Point) → ArePositive rule.lengths → NeverFall rule.lengths
        → RiseAtFree free 0 plain → from ≤ to → let len = rule.lengths in let ws = windows rule plain in
        let answer = interval_of_count free from to ws marked in
        answer.1 ≤ answer.0 + open_at len from plain ws + open_at len (to + 1) plain ws }
    ensures of_histories { (history : List Happened) (from to : ℕ) → IsHistory history → from ≤ to →
        All (λ s. let plain = values_of history s.name in let len = lengths_of s.params in
        let answer = interval_of_count (is_free s.landmarks) from to s.windows (marked_values s.landmarks) in
        answer.1 ≤ answer.0 + open_at len from plain s.windows + open_at len (to + 1) plain s.windows) (state history) }
{}

/// A sum is left open by no more than all but one of the values of each window that the range splits, each of them 0 or that window's least
/// or greatest value: of one such window, and in the state of each history.
pub fn sums_are_as_wide_as_their_values()
    ensures of_window { (s : SplitFigures) → IsSplit s → (sum_interval s).1 ≤ℤ ((sum_interval s).0 +ℤ open_sum s) }
    ensures of_histories { (history : List Happened) (from to : ℕ) → IsHistory history →
        All (λ s. let answer = interval_of_sum (is_free s.landmarks) from to s.windows (marked_values s.landmarks) in
        answer.1 ≤ℤ (answer.0 +ℤ open_sums (split_windows (is_free s.landmarks) from to s.windows))) (state history) }
{}
