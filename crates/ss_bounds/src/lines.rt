// The least sum that some values of a split window can have. For x values it is the greater of two straight lines: x times
// the least value, and the sum of all without the greatest value for each of the others.
ghost use Rattle.std.specs.Prelude.{◌≡◌, ◌≤◌};
ghost use Rattle.ss_bounds.specs.Split.{high_sum, low_sum};
ghost use Rattle.ss_bounds.specs.Lines.{AreTurns, IsCrossing, IsLastLeast, IsLeast, lower};
ghost use Rattle.ss_bounds.specs.Attained.{IsFirstLeast};

use crate::split::Split;

// The least sum that any number of values from `fewest` to `most` can have.
pub fn least_low_sum(split: Split, fewest: u64, most: u64) -> i128
    requires order { fewest ≤ most }
    requires all { most ≤ split.count }
    ensures { IsLeast (low_sum split) fewest most result }
{
    low_sum(split, first_least(split, fewest, most))
}

// The first number of values from `fewest` to `most` with the least sum of all. It is an end of what one of the two lines has
// of these numbers.
pub fn first_least(split: Split, fewest: u64, most: u64) -> u64
    requires order { fewest ≤ most }
    requires all { most ≤ split.count }
    ensures { IsFirstLeast (low_sum split) fewest most result }
{
    let (before, after) = turns(split, fewest, most);
    let early = lower(split, fewest, before);
    let late = lower(split, after, most);
    lower(split, early, late)
}

// The last number of values from `fewest` to `most` with the least sum of all.
pub fn last_least(split: Split, fewest: u64, most: u64) -> u64
    requires order { fewest ≤ most }
    requires all { most ≤ split.count }
    ensures { IsLastLeast (low_sum split) fewest most result }
{
    let (before, after) = turns(split, fewest, most);
    let early = lower(split, before, fewest);
    let late = lower(split, most, after);
    lower(split, late, early)
}

// The numbers before and after the crossing point of the two lines, or the nearest from `fewest` to `most`.
pub fn turns(split: Split, fewest: u64, most: u64) -> (u64, u64)
    requires order { fewest ≤ most }
    requires all { most ≤ split.count }
    ensures { AreTurns split fewest most result }
{
    let crossing = crossing(split);
    let before = crossing.max(fewest).min(most);
    let after = (crossing + 1).max(fewest).min(most);
    (before, after)
}

// Of two numbers of values the first, unless the second has a lesser least sum.
fn lower(split: Split, x: u64, y: u64) -> u64
    requires first { x ≤ split.count }
    requires second { y ≤ split.count }
    ensures { result ≡ lower (low_sum split) x y }
{
    if low_sum(split, x) <= low_sum(split, y) {
        x
    } else {
        y
    }
}

// The least sum of x values.
pub fn low_sum(split: Split, x: u64) -> i128
    requires { x ≤ split.count }
    ensures { result ≡ low_sum split x }
{
    let alone = i128::from(x) * i128::from(split.min);
    let others = i128::from(split.count - x) * i128::from(split.max);
    alone.max(split.sum - others)
}

// The greatest sum of x values: that of all without the least of the others.
pub fn high_sum(split: Split, x: u64) -> i128
    requires { x ≤ split.count }
    ensures { result ≡ high_sum split x }
{
    let count = split.count;
    let sum = split.sum;
    sum - low_sum(split, count - x)
}

// The whole number before the crossing point of the two lines, or 0 where the two are one.
fn crossing(split: Split) -> u64
    ensures { IsCrossing split result }
{
    let apart = u128::from(split.max.abs_diff(split.min));
    let all_greatest = i128::from(split.count) * i128::from(split.max);
    let missing = all_greatest.abs_diff(split.sum);
    if apart == 0 {
        0
    } else {
        (missing / apart) as u64
    }
}
