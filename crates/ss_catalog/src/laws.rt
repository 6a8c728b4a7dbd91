// Laws of the rows of a series, each the contract of a function that does nothing.
ghost use Rattle.std.specs.Prelude.{◌≡◌, ℕ, ◌+◌, ◌-◌, ◌<◌, ◌≤◌};
ghost use Rattle.ss_catalog.specs.Series.{row_count, row_query};
ghost use Rattle.ss_catalog.specs.declared.series.Series.{Series};

/// The rows of a series are its range, cut. The first begins where it begins, each other one right after the one before, and
/// the last ends where it ends. None is empty, and none has more times than a step.
pub fn rows_are_the_range()
    ensures first { (series : Series) → (row_query series 0).from ≡ series.from }
    ensures next { (series : Series) (row : ℕ) → 0 < series.step → row + 1 < row_count series →
        (row_query series (row + 1)).from ≡ (row_query series row).to + 1 }
    ensures last { (series : Series) → 0 < series.step → series.from ≤ series.to →
        (row_query series (row_count series - 1)).to ≡ series.to }
    ensures some { (series : Series) (row : ℕ) → 0 < series.step → row < row_count series →
        (row_query series row).from ≤ (row_query series row).to }
    ensures short { (series : Series) (row : ℕ) → 0 < series.step → (row_query series row).to < (row_query series row).from + series.step }
{}
