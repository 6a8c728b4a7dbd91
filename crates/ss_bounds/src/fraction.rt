// A fraction, and how two compare.
ghost use Rattle.std.specs.Prelude.{◌≡◌, ◌<◌};
ghost use Rattle.ss_bounds.specs.Fractions.{at_most};

use crate::spread::parted;

/// A whole number over another one, which isn't 0 where it is a mean. It stands for the sum and the count of some values too, whose
/// mean it is.
#[derive(Clone, Copy, Debug, PartialEq, Eq)]
pub struct Fraction {
    pub over: i128,
    pub under: u64,
}

// Whether one is at most the other: by the whole numbers below them, and where these are equal by the rests, crosswise.
pub fn at_most(a: Fraction, b: Fraction) -> bool
    requires first { 0 < a.under }
    requires second { 0 < b.under }
    ensures { result ≡ at_most a b }
{
    let (whole, rest) = parted(a.over, a.under);
    let (other, other_rest) = parted(b.over, b.under);
    let left = u128::from(rest) * u128::from(b.under);
    let right = u128::from(other_rest) * u128::from(a.under);
    if whole == other {
        left <= right
    } else {
        whole < other
    }
}
