// The mean of the values in a range.
ghost use Rattle.std.specs.Prelude.{◌≡◌, ◌^◌, ◌<◌, ◌≤◌, nat_le, unsigned_abs, IfSome};
ghost use Rattle.std.specs.Option.{option_map};
ghost use Rattle.ss_base.specs.Near.{IsNear};
ghost use Rattle.ss_bounds.specs.Corners.{AreSmall, best_at, best_of_corners, order_of};
ghost use Rattle.ss_bounds.specs.Extremes.{listed};
ghost use Rattle.ss_bounds.specs.Fractions.{lowest};
ghost use Rattle.ss_bounds.specs.Means.{mean_from, mean_interval, mean_of, with_values};

use crate::corners::{Corners, sides_of};
use crate::fraction::Fraction;
use crate::lowest::lowest;
use crate::mean::Mean;
use crate::side::{Side, better};
use crate::split::Split;

/// What is known of the mean of the values in a range: from `known`, the sum and the count of those that are known, and the windows
/// that the range splits, at most two. Each end is the mean of values that the windows allow.
pub fn mean_bounds(known: Fraction, left: Option<Split>, right: Option<Split>) -> Mean
    requires near { IsNear known.over }
    requires few { known.under ≤ 2 ^ 62 }
    ensures { result ≡ mean_interval known (listed left right) }
{
    let left = sides_of(left);
    let right = sides_of(right);
    let least = mean_end(Side::Least, known, left.least, right.least);
    let greatest = mean_end(Side::Greatest, known, left.greatest, right.greatest);
    let sure = 1 <= known.under + left.fewest + right.fewest;
    mean_from(sure, least, greatest)
}

// From the one end to the other, where some value lies in the range for sure or perhaps.
fn mean_from(sure: bool, least: Option<Fraction>, greatest: Option<Fraction>) -> Mean
    ensures { result ≡ mean_from sure least greatest }
{
    let Some(lo) = least else {
        return Mean::Nothing;
    };
    let Some(hi) = greatest else {
        return Mean::Nothing;
    };
    if sure {
        Mean::Sure { lo, hi }
    } else {
        Mean::Maybe { lo, hi }
    }
}

// An end of the interval, in lowest terms, if some value may lie in the range: from the corners of the windows.
fn mean_end(
    side: Side,
    known: Fraction,
    left: Option<Corners>,
    right: Option<Corners>,
) -> Option<Fraction>
    requires near { IsNear known.over }
    requires few { known.under ≤ 2 ^ 62 }
    requires left { IfSome left AreSmall }
    requires right { IfSome right AreSmall }
    ensures { result ≡ option_map lowest (best_of_corners side known left right) }
{
    Some(lowest(best_end(side, known, left, right)?))
}

// The same as some fraction.
pub fn best_end(
    side: Side,
    known: Fraction,
    left: Option<Corners>,
    right: Option<Corners>,
) -> Option<Fraction>
    requires near { IsNear known.over }
    requires few { known.under ≤ 2 ^ 62 }
    requires left { IfSome left AreSmall }
    requires right { IfSome right AreSmall }
    ensures value { result ≡ best_of_corners side known left right }
    ensures some { IfSome result (λ f. 0 < f.under) }
{
    match (left, right) {
        (None, None) => mean_of(known),
        (Some(left), None) => end_of_one(side, known, left),
        (None, Some(right)) => end_of_one(side, known, right),
        (Some(left), Some(right)) => end_of_two(side, known, left, right),
    }
}

// The best mean of what is known with the values of one window, at its corners.
pub fn end_of_one(side: Side, known: Fraction, window: Corners) -> Option<Fraction>
    requires wide { unsigned_abs known.over ≤ 2 ^ 121 }
    requires many { known.under ≤ 2 ^ 63 }
    requires window { AreSmall window }
    ensures value { result ≡ best_at (order_of side) (λ c. mean_of (with_values known c)) window }
    ensures some { IfSome result (λ f. 0 < f.under) }
{
    let fewest = better(
        side,
        mean_of(with_values(known, window.fewest)),
        mean_of(with_values(known, window.some)),
    );
    let middle = better(
        side,
        mean_of(with_values(known, window.before)),
        mean_of(with_values(known, window.after)),
    );
    better(
        side,
        better(side, fewest, middle),
        mean_of(with_values(known, window.most)),
    )
}

// The best one with the values of two windows, at each pair of their corners.
fn end_of_two(side: Side, known: Fraction, left: Corners, right: Corners) -> Option<Fraction>
    requires near { IsNear known.over }
    requires few { known.under ≤ 2 ^ 62 }
    requires left { AreSmall left }
    requires right { AreSmall right }
    ensures value { result ≡ best_at (order_of side) (λ c. best_at (order_of side) (λ d. mean_of (with_values (with_values known c) d)) right) left }
    ensures some { IfSome result (λ f. 0 < f.under) }
{
    let fewest = better(
        side,
        end_of_one(side, with_values(known, left.fewest), right),
        end_of_one(side, with_values(known, left.some), right),
    );
    let middle = better(
        side,
        end_of_one(side, with_values(known, left.before), right),
        end_of_one(side, with_values(known, left.after), right),
    );
    let last = end_of_one(side, with_values(known, left.most), right);
    better(side, better(side, fewest, middle), last)
}

// The sum and the count of some values and of others together.
pub fn with_values(a: Fraction, b: Fraction) -> Fraction
    requires wide { unsigned_abs a.over ≤ 2 ^ 121 }
    requires many { a.under ≤ 2 ^ 63 }
    requires small { unsigned_abs b.over ≤ 2 ^ 107 }
    requires few { b.under ≤ 2 ^ 40 }
    ensures { result ≡ with_values a b }
{
    Fraction {
        over: a.over + b.over,
        under: a.under + b.under,
    }
}

// The mean of some values, if there is any.
pub fn mean_of(values: Fraction) -> Option<Fraction>
    ensures value { result ≡ mean_of values }
    ensures some { IfSome result (λ f. 0 < f.under) }
{
    if values.under == 0 {
        None
    } else {
        Some(values)
    }
}
