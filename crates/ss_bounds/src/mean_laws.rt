// Laws of means, each the contract of a function that does nothing.
ghost use Rattle.std.specs.Prelude.{◌≡◌, ℕ, ◌<◌, Bool, List, [], ◌∷◌, length};
ghost use Rattle.ss_summary.specs.Points.{Point};
ghost use Rattle.ss_bounds.specs.declared.fraction.Fraction.{Fraction};
ghost use Rattle.ss_bounds.specs.declared.mean.Mean.TheVariants.{Sure};
ghost use Rattle.ss_bounds.specs.Fractions.{IsLowest, lowest};
ghost use Rattle.ss_bounds.specs.Guess.{AreAllSplit};
ghost use Rattle.ss_bounds.specs.declared.mean.MeanGuess.TheVariants as guesses;
ghost use Rattle.ss_bounds.specs.MeanGuess.{LiesBetween, mean_guess, unguessed_mean};
ghost use Rattle.ss_bounds.specs.Means.{mean_interval};
ghost use Rattle.ss_bounds.specs.MeanTruth.{AreAttained, EachMayHave, HoldsMean, IsNoWider, MayHave, all_together, counts_between, sums_between, figures_alone};
ghost use Rattle.ss_bounds.specs.Split.{SplitFigures};
ghost use Rattle.ss_bounds.specs.Truth.{AreSplit, asked, total};

/// The mean of the values in a range lies where `mean_interval` says, or there is none where it allows that: of those that are known
/// with those of any number of split windows, of which each may have such a number of values there with such a sum (`windows`), as
/// the values of a window that lie in the range do (`values`). Where no window is split it is one number (`known`).
pub fn means_hold_the_truth()
    ensures windows { (known : Fraction) (windows : List (SplitFigures × Fraction)) → EachMayHave windows
        → HoldsMean (mean_interval known (figures_alone windows)) (all_together known windows) }
    ensures values { (free : ℕ → Bool) (from to : ℕ) (p : Point) (ps : List Point) (s : SplitFigures) → AreSplit free from to p ps s
        → MayHave s (record { over = total (asked from to (p ∷ ps)); under = length (asked from to (p ∷ ps)) }) }
    ensures known { (known : Fraction) → 0 < known.under → mean_interval known [] ≡ Sure (lowest known) (lowest known) }
{}

/// Each end of the interval is the mean of some values that the windows allow: of what is known with a number of values of each split
/// window that may lie in the range, with the least sum of so many, or the greatest (`ends`). It is in lowest terms (`lowest`).
pub fn ends_of_means_are_attained()
    ensures ends { (known : Fraction) (splits : List SplitFigures) → AreAllSplit splits
        → AreAttained known splits (mean_interval known splits) }
    ensures lowest { (a : Fraction) → 0 < a.under → IsLowest a (lowest a) }
{}

/// The interval is no wider than the sums of the values in the range over their counts, the count from 1: each end lies within its sum
/// over the least count, or over the greatest.
pub fn means_are_no_wider_than_sums()
    ensures { (known : Fraction) (splits : List SplitFigures) → AreAllSplit splits
        → IsNoWider (sums_between known splits) (counts_between known splits) (mean_interval known splits) }
{}

/// The likeliest mean lies between the ends, which are those of the interval (`ends`, `between`). Where no window is split it is the one
/// number that these are (`known`).
pub fn guesses_of_means_lie_between()
    ensures ends { (known : Fraction) (splits : List SplitFigures) → unguessed_mean (mean_guess known splits) ≡ mean_interval known splits }
    ensures between { (known : Fraction) (splits : List SplitFigures) → AreAllSplit splits → LiesBetween (mean_guess known splits) }
    ensures known { (known : Fraction) → 0 < known.under → mean_guess known [] ≡ guesses.Sure (lowest known) (lowest known) (lowest known) }
{}
