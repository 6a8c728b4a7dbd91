// How many values attain an end of the sum in a range.
ghost use Rattle.std.specs.Prelude.{◌≡◌};
ghost use Rattle.ss_bounds.specs.Attained.{greatest_sum_at, least_sum_at};

use crate::bounds::count_bounds;
use crate::lines::{first_least, last_least};
use crate::split::Split;

/// The least number of the window's values that may lie in the range with the lower one of `sum_bounds` as their sum.
pub fn least_sum_at(split: Split) -> u64
    ensures { result ≡ least_sum_at split }
{
    let (fewest, most) = count_bounds(split);
    first_least(split, fewest, most)
}

/// The least number of the window's values that may lie in the range with the upper one of `sum_bounds` as their sum.
pub fn greatest_sum_at(split: Split) -> u64
    ensures { result ≡ greatest_sum_at split }
{
    let count = split.count;
    let (fewest, most) = count_bounds(split);
    // The sum is greatest where the values outside the range have the least, and most of them are outside.
    count - last_least(split, count - most, count - fewest)
}
