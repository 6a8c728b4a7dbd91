// How many values of a split window are guessed to lie in a range, as a whole number and a part.
ghost use Rattle.std.specs.Prelude.{◌≡◌, ◌+◌, ◌*◌, ◌<◌, pos, ◌+ℤ◌, ◌*ℤ◌, ◌≤ℤ◌};
ghost use Rattle.ss_bounds.specs.Mixed.{IsSpread};

use crate::split::Split;

// values + rest / times of a window's values, where `times` are the free times between its first and last, or 1.
#[derive(Clone, Copy, Debug)]
pub struct Spread {
    pub values: u64,
    pub rest: u64,
    pub times: u64,
}

// How many of the window's values are guessed to lie in the range.
pub fn spread_of(split: Split) -> Spread
    ensures { IsSpread split result }
{
    let times = (split.inside + split.outside).max(1);
    let product = u128::from(split.count - 2) * u128::from(split.inside);
    let wide = u128::from(times);
    Spread {
        values: split.ends + (product / wide) as u64,
        rest: (product % wide) as u64,
        times,
    }
}

// A number as so many times another one, and the rest.
pub fn parted(number: i128, by: u64) -> (i128, u64)
    requires { 0 < by }
    ensures whole { number ≡ (pos by *ℤ result.0) +ℤ pos result.1 }
    ensures proper { result.1 < by }
{
    let wide = i128::from(by);
    (number.div_euclid(wide), number.rem_euclid(wide) as u64)
}
