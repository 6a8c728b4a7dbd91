// How many values of a split window lie in the range, and what their sum is.
ghost use Rattle.std.specs.Prelude.{◌≡◌, ◌≤◌};
ghost use Rattle.ss_bounds.specs.Split.{count_interval, sum_interval};

use crate::lines::least_low_sum;
use crate::split::Split;

/// From how many to how many of the window's values may lie in the range.
pub fn count_bounds(split: Split) -> (u64, u64)
    ensures { result ≡ count_interval split }
{
    let between = split.count - 2;
    let fewest = between.saturating_sub(split.outside);
    let most = between.min(split.inside);
    (split.ends + fewest, split.ends + most)
}

/// From which to which sum the window's values in the range may have. No sum wraps.
pub fn sum_bounds(split: Split) -> (i128, i128)
    ensures { result ≡ sum_interval split }
{
    let count = split.count;
    let sum = split.sum;
    let (fewest, most) = count_bounds(split);
    let lo = least_low_sum(split, fewest, most);
    // The sum is greatest where the values outside the range have the least.
    let rest = least_low_sum(split, count - most, count - fewest);
    (lo, sum - rest)
}
