// Laws over summaries, each the contract of a function that does nothing.
ghost use Rattle.std.specs.Prelude.{◌≡◌, ◌↔◌, ℕ, ◌<◌, true, ◌||◌, ◌==◌, ℤ, List, ◌++◌, length, IsTrue};
ghost use Rattle.std.specs.List.{list_any};
ghost use Rattle.ss_summary.specs.declared.filter.Filter.{Filter};
ghost use Rattle.ss_summary.specs.Figures.{AreAlike, Figures, IsPossible};
ghost use Rattle.ss_summary.specs.Filters.{bit_of, filter_of, full, gives, has, has_bit, union, IsFilter};
ghost use Rattle.ss_summary.specs.Points.{Point};
ghost use Rattle.ss_summary.specs.Possible.{is_possible};
ghost use Rattle.ss_summary.specs.Summaries.{joined, summary_of, AreValues};

/// In which order summaries are joined has no effect.
pub fn joining_is_associative()
    ensures { (a b c : Figures) → joined (joined a b) c ≡ joined a (joined b c) }
{}

/// The summaries of two lists, joined, are the summary of the second list after the first.
pub fn joined_is_of_the_joined_list()
    ensures { (xs ys : List Point) → 0 < length xs → 0 < length ys
        → joined (summary_of xs) (summary_of ys) ≡ summary_of (xs ++ ys) }
{}

/// The figures of some values at rising times are possible. Possible figures are those of some such values, apart from the
/// filter: of a filter only the bits of the least and of the greatest value are asked.
pub fn possible_figures_are_those_of_values()
    ensures values { (values : List Point) → AreValues values → IsPossible (summary_of values) }
    ensures possible { (f : Figures) → IsPossible f ↔ ((values : List Point) × AreValues values × AreAlike f (summary_of values)
        × IsFilter f.filter × IsTrue (has f.filter f.min) × IsTrue (has f.filter f.max)) }
{}

/// The test of possible figures is true exactly where they are possible.
pub fn possible_figures_pass_the_test()
    ensures { (f : Figures) → IsTrue (is_possible f) ↔ IsPossible f }
{}

/// The filter of some points has a bit exactly where it is that of one of the values, or where one of the points is old.
pub fn filters_are_of_their_points()
    ensures { (points : List Point) (bit : ℕ) → bit < 256 → has_bit (summary_of points).filter bit ≡ list_any (gives bit) points }
{}

/// In which order filters are united has no effect.
pub fn uniting_is_associative()
    ensures { (a b c : Filter) → union (union a b) c ≡ union a (union b c) }
{}

/// Which bits a filter has: that of one value alone, all, or those of both.
pub fn filters_are_their_bits()
    ensures one { (v : ℤ) (bit : ℕ) → bit < 256 → has_bit (filter_of v) bit ≡ (bit == bit_of v) }
    ensures all { (bit : ℕ) → bit < 256 → has_bit full bit ≡ true }
    ensures both { (a b : Filter) (bit : ℕ) → bit < 256 → has_bit (union a b) bit ≡ (has_bit a bit || has_bit b bit) }
    ensures value { (filter : Filter) (v : ℤ) → has filter v ≡ has_bit filter (bit_of v) }
    ensures range { (v : ℤ) → bit_of v < 256 }
{}
