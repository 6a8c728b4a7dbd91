// How many values of a window attain an end of the mean in a range.
ghost use Rattle.std.specs.Prelude.{◌≡◌, ◌^◌, ◌<◌, ◌≤◌, unsigned_abs, None, Some, IfSome};
ghost use Rattle.ss_base.specs.Near.{IsNear};
ghost use Rattle.ss_bounds.specs.Corners.{AreSmall, IsSmall, best_of_corners};
ghost use Rattle.ss_bounds.specs.Extremes.{listed};
ghost use Rattle.ss_bounds.specs.MeanAttained.{first_corner, greatest_mean_at, is_same_mean, least_mean_at, lowest_mean, sooner};
ghost use Rattle.ss_bounds.specs.Means.{with_values};

use crate::corners::{Corners, corners_of, sides_of};
use crate::fraction::{Fraction, at_most};
use crate::lowest::lowest;
use crate::means::{best_end, end_of_one, mean_of, with_values};
use crate::side::Side;
use crate::split::Split;

/// The least number of the window's values that may lie in the range with the lower end of `mean_bounds` as the mean, beside what is
/// known and some values of the other window; the fewest where there is no mean.
pub fn least_mean_at(known: Fraction, window: Split, other: Option<Split>) -> u64
    requires near { IsNear known.over }
    requires few { known.under ≤ 2 ^ 62 }
    ensures { result ≡ least_mean_at known window (listed None other) }
{
    let window = corners_of(Side::Least, window);
    let other = sides_of(other).least;
    first_corner(Side::Least, known, window, other)
}

/// The same of the upper end.
pub fn greatest_mean_at(known: Fraction, window: Split, other: Option<Split>) -> u64
    requires near { IsNear known.over }
    requires few { known.under ≤ 2 ^ 62 }
    ensures { result ≡ greatest_mean_at known window (listed None other) }
{
    let window = corners_of(Side::Greatest, window);
    let other = sides_of(other).greatest;
    first_corner(Side::Greatest, known, window, other)
}

/// The mean of some values, by their sum and count, in lowest terms, if there is any.
pub fn lowest_mean(values: Fraction) -> Option<Fraction>
    ensures { result ≡ lowest_mean values }
{
    Some(lowest(mean_of(values)?))
}

// The least number of values of a window's corners at which the best mean of all is attained.
fn first_corner(side: Side, known: Fraction, window: Corners, other: Option<Corners>) -> u64
    requires near { IsNear known.over }
    requires few { known.under ≤ 2 ^ 62 }
    requires window { AreSmall window }
    requires other { IfSome other AreSmall }
    ensures { result ≡ first_corner (λ v. is_same_mean (best_of_corners side (with_values known v) None other)
        (best_of_corners side known (Some window) other)) window }
{
    let best = best_end(side, known, Some(window), other);
    let after = attains(side, with_values(known, window.after), other, best);
    let before = attains(side, with_values(known, window.before), other, best);
    let some = attains(side, with_values(known, window.some), other, best);
    let fewest = attains(side, with_values(known, window.fewest), other, best);
    let last = sooner(after, window.after, window.most.under);
    let middle = sooner(some, window.some, sooner(before, window.before, last));
    sooner(fewest, window.fewest, middle)
}

// The lesser of a number of values and that of a corner, if the mean is attained there.
fn sooner(attained: bool, corner: Fraction, x: u64) -> u64
    ensures { result ≡ sooner attained corner x }
{
    if attained { x.min(corner.under) } else { x }
}

// Whether the best mean of some values with those of the other window is this one.
fn attains(side: Side, values: Fraction, other: Option<Corners>, best: Option<Fraction>) -> bool
    requires wide { unsigned_abs values.over ≤ 2 ^ 121 }
    requires many { values.under ≤ 2 ^ 63 }
    requires other { IfSome other AreSmall }
    requires best { IfSome best (λ f. 0 < f.under) }
    ensures { result ≡ is_same_mean (best_of_corners side values None other) best }
{
    is_same_mean(best_beside(side, values, other), best)
}

// The best mean of some values with those of a window that may be there, at its corners.
fn best_beside(side: Side, values: Fraction, other: Option<Corners>) -> Option<Fraction>
    requires wide { unsigned_abs values.over ≤ 2 ^ 121 }
    requires many { values.under ≤ 2 ^ 63 }
    requires other { IfSome other AreSmall }
    ensures value { result ≡ best_of_corners side values None other }
    ensures some { IfSome result (λ f. 0 < f.under) }
{
    match other {
        None => mean_of(values),
        Some(other) => end_of_one(side, values, other),
    }
}

// Whether two means are the same number, or both are missing.
fn is_same_mean(a: Option<Fraction>, b: Option<Fraction>) -> bool
    requires first { IfSome a (λ f. 0 < f.under) }
    requires second { IfSome b (λ f. 0 < f.under) }
    ensures { result ≡ is_same_mean a b }
{
    match (a, b) {
        (None, None) => true,
        (Some(a), Some(b)) => at_most(a, b) && at_most(b, a),
        _ => false,
    }
}
