// The ends of an interval of means.
ghost use Rattle.std.specs.Prelude.{◌≡◌, ◌<◌, ◌≤◌};
ghost use Rattle.std.specs.Prelude.{IfSome};
ghost use Rattle.ss_bounds.specs.Corners.{order_of, sum_at};
ghost use Rattle.ss_bounds.specs.Means.{better};

use crate::fraction::{Fraction, at_most};
use crate::lines::{high_sum, low_sum};
use crate::split::Split;

// Which end of an interval is sought.
#[derive(Clone, Copy, Debug, PartialEq, Eq)]
pub enum Side {
    Least,
    Greatest,
}

// The least sum, or the greatest, of so many values of a window.
pub fn sum_at(side: Side, split: Split, x: u64) -> i128
    requires { x ≤ split.count }
    ensures { result ≡ sum_at side split x }
{
    match side {
        Side::Least => low_sum(split, x),
        Side::Greatest => high_sum(split, x),
    }
}

// Of two means the lesser one, or the greater; one alone where the other is missing.
pub fn better(side: Side, a: Option<Fraction>, b: Option<Fraction>) -> Option<Fraction>
    requires first { IfSome a (λ f. 0 < f.under) }
    requires second { IfSome b (λ f. 0 < f.under) }
    ensures value { result ≡ better (order_of side) a b }
    ensures some { IfSome result (λ f. 0 < f.under) }
{
    match (a, b) {
        (Some(a), Some(b)) => if comes_first(side, a, b) {
            Some(a)
        } else {
            Some(b)
        },
        (None, b) => b,
        (a, None) => a,
    }
}

fn comes_first(side: Side, a: Fraction, b: Fraction) -> bool
    requires first { 0 < a.under }
    requires second { 0 < b.under }
    ensures { result ≡ order_of side a b }
{
    match side {
        Side::Least => at_most(a, b),
        Side::Greatest => at_most(b, a),
    }
}
