// A fraction as a whole number and a proper fraction, whose parts fit, and the whole number nearest to a sum of two.
ghost use Rattle.std.specs.Prelude.{◌≡◌, ◌+◌, ◌*◌, ◌^◌, ◌<◌, ◌≤◌, unsigned_abs};
ghost use Rattle.std.specs.Ordering.{MatchOrdering};
ghost use Rattle.ss_bounds.specs.Mixed.{rise};

use crate::ratio::compare;
use crate::split::Split;
use std::cmp::Ordering;

/// The number whole + over / under, where over is less than under.
#[derive(Clone, Copy, Debug)]
pub struct Mixed {
    pub whole: i128,
    pub over: u128,
    pub under: u128,
}

/// Nothing.
pub const NONE: Mixed = Mixed {
    whole: 0,
    over: 0,
    under: 1,
};

// How the proper fractions of two numbers together compare with some halves.
pub fn compare_with_halves(left: Mixed, right: Mixed, halves: u128) -> Ordering
    requires first { 0 < left.under }
    requires second { 0 < right.under }
    requires proper { right.over < right.under }
    requires small { right.under ≤ 2 ^ 120 }
    requires few { halves ≤ 3 }
    ensures { let parts = 2 * (right.under * left.over + left.under * right.over) in let all = halves * (left.under * right.under) in
        MatchOrdering result (parts < all) (parts ≡ all) (all < parts) }
{
    let all = halves * right.under;
    let taken = 2 * right.over;
    if all < taken {
        Ordering::Greater
    } else {
        compare(left.over, left.under, all - taken, 2 * right.under)
    }
}

// By how much the whole number that is nearest to another one and a proper fraction or two is above it: by how these compare with one
// half and with three, and by whether it is even. Of two that are nearest it is the even one.
pub fn rise(half: Ordering, more: Ordering, even: bool) -> i128
    ensures value { result ≡ rise half more even }
    ensures small { unsigned_abs result ≤ 2 }
{
    match (half, more) {
        (Ordering::Less, _) => 0,
        (Ordering::Equal, _) => if even { 0 } else { 1 },
        (Ordering::Greater, Ordering::Less) => 1,
        (Ordering::Greater, Ordering::Equal) => if even { 2 } else { 1 },
        (Ordering::Greater, Ordering::Greater) => 2,
    }
}
