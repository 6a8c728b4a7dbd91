// The least and the greatest value in a range.
ghost use Rattle.std.specs.Prelude.{◌≡◌};
ghost use Rattle.std.specs.Option.{option_map};
ghost use Rattle.ss_bounds.specs.Either.{extreme_of, greater, lesser, passing, extremes_of};
ghost use Rattle.ss_bounds.specs.Extremes.{can_hold, listed, max_interval, min_interval, must_hold};

use crate::bounds::count_bounds;
use crate::extreme::Extreme;
use crate::split::Split;

/// What is known of the least value in a range: from `exact`, the least one that is known, if there is any, and the windows
/// that the range splits, at most two.
pub fn min_bounds(exact: Option<i64>, left: Option<Split>, right: Option<Split>) -> Extreme
    ensures { result ≡ min_interval exact (listed left right) }
{
    let (left_can, left_must) = held_extremes(left);
    let (right_can, right_must) = held_extremes(right);
    let lo = lesser(exact, lesser(min_of(left_can), min_of(right_can)));
    let hi = greater(max_of(left_can), max_of(right_can));
    let sure = lesser(exact, lesser(max_of(left_must), max_of(right_must)));
    extreme(lo.zip(sure), lo.zip(hi))
}

/// The same of the greatest value, where `exact` is the greatest one that is known.
pub fn max_bounds(exact: Option<i64>, left: Option<Split>, right: Option<Split>) -> Extreme
    ensures { result ≡ max_interval exact (listed left right) }
{
    let (left_can, left_must) = held_extremes(left);
    let (right_can, right_must) = held_extremes(right);
    let lo = lesser(min_of(left_can), min_of(right_can));
    let hi = greater(exact, greater(max_of(left_can), max_of(right_can)));
    let sure = greater(exact, greater(min_of(left_must), min_of(right_must)));
    extreme(sure.zip(hi), lo.zip(hi))
}

// The least and the greatest value of a window.
type Values = (i64, i64);

// The window's values, if it can hold a value in the range, and if it must.
fn held_extremes(split: Option<Split>) -> (Option<Values>, Option<Values>)
    ensures { result ≡ (option_map extremes_of (passing can_hold split), option_map extremes_of (passing must_hold split)) }
{
    let Some(split) = split else {
        return (None, None);
    };
    let (fewest, most) = count_bounds(split);
    let values = (split.min, split.max);
    let can = if 1 <= most { Some(values) } else { None };
    let must = if 1 <= fewest { Some(values) } else { None };
    (can, must)
}

// The least value.
fn min_of(values: Option<Values>) -> Option<i64>
    ensures { result ≡ option_map (λ v. v.0) values }
{
    Some(values?.0)
}

// The greatest value.
fn max_of(values: Option<Values>) -> Option<i64>
    ensures { result ≡ option_map (λ v. v.1) values }
{
    Some(values?.1)
}

/// The lesser of two, or the one that is there.
pub fn lesser(a: Option<i64>, b: Option<i64>) -> Option<i64>
    ensures { result ≡ lesser a b }
{
    match (a, b) {
        (Some(a), Some(b)) => Some(a.min(b)),
        (a, None) => a,
        (None, b) => b,
    }
}

/// The greater of two, or the one that is there.
pub fn greater(a: Option<i64>, b: Option<i64>) -> Option<i64>
    ensures { result ≡ greater a b }
{
    match (a, b) {
        (Some(a), Some(b)) => Some(a.max(b)),
        (a, None) => a,
        (None, b) => b,
    }
}

// The interval that is sure, if there is one, or else the one that may be.
fn extreme(sure: Option<(i64, i64)>, maybe: Option<(i64, i64)>) -> Extreme
    ensures { result ≡ extreme_of sure maybe }
{
    match (sure, maybe) {
        (Some((lo, hi)), _) => Extreme::Sure { lo, hi },
        (None, Some((lo, hi))) => Extreme::Maybe { lo, hi },
        (None, None) => Extreme::Nothing,
    }
}
