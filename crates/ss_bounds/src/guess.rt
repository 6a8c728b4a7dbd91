// The likeliest count and sum, from what is known and from the windows that a range splits.
ghost use Rattle.std.specs.Prelude.{◌≡◌, ◌+◌, ◌*◌, ◌^◌, ◌<◌, ◌≤◌, ℤ, pos, ◌+ℤ◌, ◌*ℤ◌, unsigned_abs};
ghost use Rattle.ss_base.specs.declared.limits.TheConstants.{MOST_VALUES};
ghost use Rattle.ss_bounds.specs.Extremes.{listed};
ghost use Rattle.ss_bounds.specs.Guess.{Fraction, count_guess, guess_of_count, guess_of_sum, is_even, nearest, plus, sum_guess, whole};
ghost use Rattle.ss_bounds.specs.Mixed.{AreRests, IsMixed, IsProper, part_of};
ghost use Rattle.ss_base.specs.Near.{IsNear};

use crate::mixed::{Mixed, NONE, compare_with_halves, rise};
use crate::split::Split;
use crate::spread::{Spread, parted, spread_of};

/// How many values are guessed to lie in the range: `known` and those of the windows that it splits, at most two. A window's values
/// between its first and its last are taken to be spread evenly over its free times. It is rounded once, to the nearest whole
/// number, halves to the even one.
pub fn count_guess(known: i128, left: Option<Split>, right: Option<Split>) -> i128
    requires { IsNear known }
    ensures { result ≡ count_guess known (listed left right) }
{
    nearest(known, guessed_count(left), guessed_count(right))
}

/// What their sum is guessed to be: `known` and, of each of these windows, as large a part of its sum as of its values.
pub fn sum_guess(known: i128, left: Option<Split>, right: Option<Split>) -> i128
    requires { IsNear known }
    ensures { result ≡ sum_guess known (listed left right) }
{
    nearest(known, guessed_sum(left), guessed_sum(right))
}

// The guess of a window, if there is one.
fn guessed_count(split: Option<Split>) -> Mixed
    ensures { IsMixed (part_of guess_of_count split) result }
{
    match split {
        None => NONE,
        Some(split) => mixed_count(split),
    }
}

fn guessed_sum(split: Option<Split>) -> Mixed
    ensures { IsMixed (part_of guess_of_sum split) result }
{
    match split {
        None => NONE,
        Some(split) => mixed_sum(split),
    }
}

// How many values are guessed.
fn mixed_count(split: Split) -> Mixed
    ensures { IsMixed (guess_of_count split) result }
{
    let guess = spread_of(split);
    Mixed {
        whole: i128::from(guess.values),
        over: u128::from(guess.rest),
        under: u128::from(guess.times),
    }
}

// Which sum they are guessed to have. It is made of the mean of all values, the rest of their sum, and the rest of the guess, so that
// no product is too large.
fn mixed_sum(split: Split) -> Mixed
    ensures { IsMixed (guess_of_sum split) result }
{
    let guess = spread_of(split);
    let (mean, left) = parted(split.sum, split.count);
    let (more, spare) = parted(scaled(mean, guess.rest), guess.times);
    let (few, over) = rests(split.count, left, guess, spare);
    Mixed {
        whole: scaled(mean, guess.values) + more + few,
        over,
        under: u128::from(split.count) * u128::from(guess.times),
    }
}

// What the rests come to: `left` of a window's sum, as large a part of it as of its values, and `spare` of the free times; as a whole
// number and a part of count * times.
fn rests(count: u64, left: u64, guess: Spread, spare: u64) -> (i128, u128)
    requires left { left < count }
    requires spare { spare < guess.times }
    requires rest { guess.rest < guess.times }
    requires values { guess.values ≤ count }
    requires few { count ≤ MOST_VALUES }
    requires times { guess.times ≤ 2 ^ 63 }
    ensures { AreRests count left guess spare result }
{
    let wide = u128::from(count);
    let shared = u128::from(left) * u128::from(guess.values);
    let over = wide * u128::from(spare)
        + shared % wide * u128::from(guess.times)
        + u128::from(left) * u128::from(guess.rest);
    let under = wide * u128::from(guess.times);
    ((shared / wide + over / under) as i128, over % under)
}

// A mean of values, so many times.
fn scaled(mean: i128, times: u64) -> i128
    requires mean { unsigned_abs mean ≤ 2 ^ 63 }
    requires times { times ≤ 2 ^ 63 }
    ensures { result ≡ (pos times *ℤ mean) }
{
    i128::from(times) * mean
}

// The whole number nearest to a sum, halves to the even one.
fn nearest(known: i128, left: Mixed, right: Mixed) -> i128
    requires known { IsNear known }
    requires first { IsProper left }
    requires second { IsProper right }
    ensures { (a b : Fraction) → IsMixed a left → IsMixed b right → result ≡ nearest (plus (whole known) (plus a b)) }
{
    let below = known + left.whole + right.whole;
    let half = compare_with_halves(left, right, 1);
    let more = compare_with_halves(left, right, 3);
    below + rise(half, more, is_even(below))
}

fn is_even(number: i128) -> bool
    ensures { result ≡ is_even number }
{
    number.unsigned_abs() % 2 == 0
}
