// How two fractions compare, without the products of their parts.
ghost use Rattle.std.specs.Prelude.{◌≡◌, ◌*◌, ◌<◌};
ghost use Rattle.std.specs.Ordering.{MatchOrdering};

use std::cmp::Ordering;

// How a / b compares with c / d: by their whole parts, and where these are equal by the rests, each turned over.
pub fn compare(a: u128, b: u128, c: u128, d: u128) -> Ordering
    requires first { 0 < b }
    requires second { 0 < d }
    ensures { MatchOrdering result (a * d < c * b) (a * d ≡ c * b) (c * b < a * d) }
{
    let whole = a / b;
    let other = c / d;
    let rest = a % b;
    let other_rest = c % d;
    if whole != other {
        whole.cmp(&other)
    } else if rest == 0 || other_rest == 0 {
        rest.cmp(&other_rest)
    } else {
        compare(d, other_rest, b, rest)
    }
}
