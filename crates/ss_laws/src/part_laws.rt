// Laws on a range and the parts of it, each the contract of a function that does nothing.
ghost use Rattle.std.specs.Prelude.{◌≡◌, ◌+◌, ◌<◌, ◌≤◌, ℕ, ℤ, List, [], ◌∷◌, All};
ghost use Rattle.ss_bounds.specs.Several.{greatest_of_all, least_of_all, sum_of_counts, sum_of_sums};
ghost use Rattle.ss_catalog.specs.declared.series.Series.{Series};
ghost use Rattle.ss_laws.specs.Parts.{IsCountWithin, IsExtremeWithin, IsSumWithin, answered_count, answered_greatest, answered_least, of_rows, answered_sum};
ghost use Rattle.ss_model.specs.History.{Happened};
ghost use Rattle.ss_model.specs.Refusals.{IsHistory};
ghost use Rattle.ss_model.specs.State.{state};

/// What is answered of a range is no wider than what is answered of two parts of it, put together: its count lies within the sum
/// of their counts, its sum within that of their sums, its least value within the lesser of theirs, its greatest within the greater.
pub fn ranges_lie_within_their_parts()
    ensures counts { (history : List Happened) (from mid to : ℕ) → IsHistory history → from ≤ mid → mid < to →
        All (λ s. IsCountWithin (answered_count s from to) (sum_of_counts (answered_count s from mid ∷ answered_count s (mid + 1) to ∷ []))) (state history) }
    ensures sums { (history : List Happened) (from mid to : ℕ) → IsHistory history → from ≤ mid → mid < to →
        All (λ s. IsSumWithin (answered_sum s from to) (sum_of_sums (answered_sum s from mid ∷ answered_sum s (mid + 1) to ∷ []))) (state history) }
    ensures least { (history : List Happened) (from mid to : ℕ) → IsHistory history → from ≤ mid → mid < to →
        All (λ s. IsExtremeWithin (answered_least s from to) (least_of_all (answered_least s from mid ∷ answered_least s (mid + 1) to ∷ []))) (state history) }
    ensures greatest { (history : List Happened) (from mid to : ℕ) → IsHistory history → from ≤ mid → mid < to →
        All (λ s. IsExtremeWithin (answered_greatest s from to) (greatest_of_all (answered_greatest s from mid ∷ answered_greatest s (mid + 1) to ∷ [])))
        (state history) }
{}

/// So it is no wider than what is answered of the rows of a series over the range, put together.
pub fn ranges_lie_within_their_rows()
    ensures counts { (history : List Happened) (series : Series) → IsHistory history → 0 < series.step → series.from ≤ series.to →
        All (λ s. IsCountWithin (answered_count s series.from series.to) (sum_of_counts (of_rows (answered_count s) series))) (state history) }
    ensures sums { (history : List Happened) (series : Series) → IsHistory history → 0 < series.step → series.from ≤ series.to →
        All (λ s. IsSumWithin (answered_sum s series.from series.to) (sum_of_sums (of_rows (answered_sum s) series))) (state history) }
    ensures least { (history : List Happened) (series : Series) → IsHistory history → 0 < series.step → series.from ≤ series.to →
        All (λ s. IsExtremeWithin (answered_least s series.from series.to) (least_of_all (of_rows (answered_least s) series))) (state history) }
    ensures greatest { (history : List Happened) (series : Series) → IsHistory history → 0 < series.step → series.from ≤ series.to →
        All (λ s. IsExtremeWithin (answered_greatest s series.from series.to) (greatest_of_all (of_rows (answered_greatest s) series))) (state history) }
{}

/// Where each row leaves nothing open, the whole range doesn't either, and the rows add up to it.
pub fn exact_rows_add_up()
    ensures counts { (history : List Happened) (series : Series) → IsHistory history → 0 < series.step → series.from ≤ series.to →
        All (λ s. All (λ (i : ℕ × ℕ). i.0 ≡ i.1) (of_rows (answered_count s) series) →
        answered_count s series.from series.to ≡ sum_of_counts (of_rows (answered_count s) series)) (state history) }
    ensures sums { (history : List Happened) (series : Series) → IsHistory history → 0 < series.step → series.from ≤ series.to →
        All (λ s. All (λ (i : ℤ × ℤ). i.0 ≡ i.1) (of_rows (answered_sum s) series) →
        answered_sum s series.from series.to ≡ sum_of_sums (of_rows (answered_sum s) series)) (state history) }
{}
