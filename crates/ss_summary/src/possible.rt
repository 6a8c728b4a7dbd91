// Which figures are possible.
ghost use Rattle.std.specs.Prelude.{◌≡◌, ◌-◌, ◌≤◌, pos, ◌+ℤ◌, ◌*ℤ◌};
ghost use Rattle.ss_summary.specs.Possible.{has_bits, has_sum, has_times};

use crate::Filter;
use ss_base::{LAST_TIME, MOST_VALUES};

// Whether so many values can have these first and last times.
pub fn has_times(count: u64, t_first: u64, t_last: u64) -> bool
    ensures { result ≡ has_times count t_first t_last }
{
    1 <= count
        && count <= MOST_VALUES
        && t_first <= t_last
        && t_last <= LAST_TIME
        && count - 1 <= t_last - t_first
        && (1 < count || t_first == t_last)
}

// The sum of one value and of others that are all the same, so many in all.
fn sum_of(count: u64, one: i64, others: i64) -> i128
    requires some { 1 ≤ count }
    requires few { count ≤ MOST_VALUES }
    ensures { result ≡ one +ℤ pos (count - 1) *ℤ others }
{
    i128::from(one) + i128::from(count - 1) * i128::from(others)
}

// Whether so many values, with this least and this greatest among them, can have this sum.
pub fn has_sum(count: u64, sum: i128, min: i64, max: i64) -> bool
    requires some { 1 ≤ count }
    requires few { count ≤ MOST_VALUES }
    ensures { result ≡ has_sum count sum min max }
{
    min <= max && sum_of(count, max, min) <= sum && sum <= sum_of(count, min, max)
}

// Whether a filter has the bits of this least and of this greatest value.
pub fn has_bits(filter: Filter, min: i64, max: i64) -> bool
    ensures { result ≡ has_bits filter min max }
{
    filter.has(min) && filter.has(max)
}
