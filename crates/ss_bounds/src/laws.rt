// Laws, each the contract of a function that does nothing.
ghost use Rattle.std.specs.Prelude.{◌≡◌, ℕ, ◌+◌, ◌-◌, ◌≤◌, max, min, Bool, ℤ, pos, ◌+ℤ◌, ◌≤ℤ◌, List, ◌∷◌, Option, map, sum, sum_by};
ghost use Rattle.ss_summary.specs.Points.{Point};
ghost use Rattle.ss_bounds.specs.Split.{SplitFigures, IsSplit, least_count, greatest_count, low_sum, high_sum, sum_interval};
ghost use Rattle.ss_bounds.specs.Attained.{IsFirstGreatest, IsFirstLeast, greatest_sum_at, least_sum_at};
ghost use Rattle.ss_bounds.specs.Parted.{CanBeParted};
ghost use Rattle.ss_bounds.specs.Times.{times, times_inside, times_outside};
ghost use Rattle.ss_bounds.specs.declared.extreme.Extreme.{Extreme};
ghost use Rattle.ss_bounds.specs.Extremes.{min_interval, max_interval};
ghost use Rattle.ss_bounds.specs.Either.{greater, greatest_in, least_in, lesser};
ghost use Rattle.ss_bounds.specs.Guess.{AreAllSplit, count_guess, sum_guess};
ghost use Rattle.ss_bounds.specs.Several.{EachHolds, HoldsCount, HoldsSum, known, sum_of_counts, sum_of_sums, truths};
ghost use Rattle.ss_bounds.specs.Several.{greatest_of_all, greatest_truth, least_of_all, least_truth};
ghost use Rattle.ss_bounds.specs.Truth.{AreSplit, asked, HoldsExtreme, MayAllLieThere, MayLieThere, total, values_of_all, windows_alone};

/// The values of a split window that lie in the range: how many they are, and each of them, is as the window allows, and
/// their sum lies in the interval of sums.
pub fn split_windows_hold_the_truth()
    ensures values { (free : ℕ → Bool) (from to : ℕ) (p : Point) (ps : List Point) (s : SplitFigures)
        → AreSplit free from to p ps s → MayLieThere s (asked from to (p ∷ ps)) }
    ensures sum { (free : ℕ → Bool) (from to : ℕ) (p : Point) (ps : List Point) (s : SplitFigures)
        → AreSplit free from to p ps s → let truth = total (asked from to (p ∷ ps)) in
        ((sum_interval s).0 ≤ℤ truth) × (truth ≤ℤ (sum_interval s).1) }
{}

/// The free times between two times, inside a range and outside it, by two counts of free times.
pub fn free_times_are_parted()
    ensures inside { (free : ℕ → Bool) (from to first last : ℕ) →
        times_inside free from to first last ≡ times free (max (first + 1) from) (min (last - 1) to) }
    ensures all { (free : ℕ → Bool) (from to first last : ℕ) →
        times_inside free from to first last + times_outside free from to first last ≡ times free (first + 1) (last - 1) }
{}

/// The least and the greatest value in the range lie where the tables say, or there is none where they allow that: `exact` is
/// the one among all values that aren't of split windows.
pub fn extremes_hold_the_truth()
    ensures least { (exact : Option ℤ) (windows : List (SplitFigures × List ℤ)) → MayAllLieThere windows
        → HoldsExtreme (min_interval exact (windows_alone windows)) (lesser exact (least_in (values_of_all windows))) }
    ensures greatest { (exact : Option ℤ) (windows : List (SplitFigures × List ℤ)) → MayAllLieThere windows
        → HoldsExtreme (max_interval exact (windows_alone windows)) (greater exact (greatest_in (values_of_all windows))) }
{}

/// The ends of the interval of sums are attained, at the numbers of values that `least_sum_at` and `greatest_sum_at` give and
/// at no lesser one of those that may lie in the range.
pub fn ends_of_sums_are_attained()
    ensures least { (s : SplitFigures) → IsSplit s → low_sum s (least_sum_at s) ≡ (sum_interval s).0 }
    ensures least_first { (s : SplitFigures) → IsSplit s
        → IsFirstLeast (low_sum s) (least_count s) (greatest_count s) (least_sum_at s) }
    ensures greatest { (s : SplitFigures) → IsSplit s → high_sum s (greatest_sum_at s) ≡ (sum_interval s).1 }
    ensures greatest_first { (s : SplitFigures) → IsSplit s
        → IsFirstGreatest (high_sum s) (least_count s) (greatest_count s) (greatest_sum_at s) }
{}

/// For each number of values that may lie in the range, the window's values can be parted with the least sum of so many inside,
/// and with the greatest.
pub fn values_can_be_parted()
    ensures order { (s : SplitFigures) (x : ℕ) → IsSplit s → x ≤ greatest_count s → low_sum s x ≤ℤ high_sum s x }
    ensures least { (s : SplitFigures) (x : ℕ) → IsSplit s → x ≤ greatest_count s → CanBeParted s x (low_sum s x) }
    ensures greatest { (s : SplitFigures) (x : ℕ) → IsSplit s → x ≤ greatest_count s → CanBeParted s x (high_sum s x) }
{}

/// A guess lies between what the windows allow, for any number of windows. So where that is one number, the guess is this one.
pub fn guesses_lie_between()
    ensures counts { (known : ℕ) (splits : List SplitFigures) → AreAllSplit splits →
        (pos (known + sum_by least_count splits) ≤ℤ count_guess (pos known) splits)
        × (count_guess (pos known) splits ≤ℤ pos (known + sum_by greatest_count splits)) }
    ensures sums { (known : ℤ) (splits : List SplitFigures) → AreAllSplit splits →
        ((known +ℤ total (map (λ (s : ℤ × ℤ). s.0) (map sum_interval splits))) ≤ℤ sum_guess known splits)
        × (sum_guess known splits ≤ℤ (known +ℤ total (map (λ (s : ℤ × ℤ). s.1) (map sum_interval splits)))) }
{}

/// What is known of several numbers, as of the counts, sums, least and greatest values of several streams, is known of all of them
/// together: each interval holds its truth, and so the sum of the intervals holds the sum of the truths. Of least and greatest
/// values there may be none.
pub fn several_hold_the_truth()
    ensures counts { (each : List ((ℕ × ℕ) × ℕ)) → EachHolds HoldsCount each
        → HoldsCount (sum_of_counts (known each)) (sum (truths each)) }
    ensures sums { (each : List ((ℤ × ℤ) × ℤ)) → EachHolds HoldsSum each
        → HoldsSum (sum_of_sums (known each)) (total (truths each)) }
    ensures least { (each : List (Extreme × Option ℤ)) → EachHolds HoldsExtreme each
        → HoldsExtreme (least_of_all (known each)) (least_truth (truths each)) }
    ensures greatest { (each : List (Extreme × Option ℤ)) → EachHolds HoldsExtreme each
        → HoldsExtreme (greatest_of_all (known each)) (greatest_truth (truths each)) }
{}
