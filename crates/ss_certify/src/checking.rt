// Whether a certificate is of a window, and right.
ghost use Rattle.std.specs.Prelude.{◌≡◌, ◌↔◌, ◌+◌, ◌-◌, ◌≤◌, ◌+ℤ◌, ◌⊎◌, IsTrue};
ghost use Rattle.ss_bounds.specs.Split.{least_count, greatest_count};
ghost use Rattle.ss_base.specs.declared.limits.TheConstants.{MOST_VALUES};
ghost use Rattle.ss_certify.specs.Checked.{Certifies, HasFewInside, HasValues, IsOf};
ghost use Rattle.ss_certify.specs.Runs.{HaveValues, LieBetween, Occurs, run_count, run_total};

use crate::Cert;
use crate::runs::{contains, count, have_values, lie_between, total};
use ss_bounds::{Split, count_bounds};
use ss_query::Cut;

// Whether two windows have the same figures.
fn is_same(a: Split, b: Split) -> bool
    ensures { IsTrue result ↔ (a ≡ b) }
{
    a.count == b.count
        && a.sum == b.sum
        && a.min == b.min
        && a.max == b.max
        && a.ends == b.ends
        && a.inside == b.inside
        && a.outside == b.outside
}

// Whether it names the window.
fn names(cert: &Cert, cut: &Cut) -> bool
    ensures { IsTrue result ↔ ((cert.now.first ≡ cut.now.first) × (cert.now.last ≡ cut.now.last) × (cert.now.split ≡ cut.now.split)) }
{
    cert.first == cut.first && cert.last == cut.last && is_same(cert.split, cut.split)
}

// Whether so many of the window's values may lie in the range.
fn is_in_range(cert: &Cert, split: Split) -> bool
    ensures { IsTrue result ↔ ((least_count split ≤ cert.now.x) × (cert.now.x ≤ greatest_count split)) }
{
    let (fewest, most) = count_bounds(split);
    fewest <= cert.x && cert.x <= most
}

// Whether no run is empty, and so many values lie inside the range, and the others outside it.
fn has_numbers(cert: &Cert, split: Split) -> bool
    requires { cert.now.x ≤ greatest_count split }
    ensures few { IsTrue result → run_count cert.now.inside.items + run_count cert.now.outside.items ≤ MOST_VALUES }
    ensures value { IsTrue result ↔ (HaveValues cert.now.inside.items × HaveValues cert.now.outside.items
        × (run_count cert.now.inside.items ≡ cert.now.x) × (run_count cert.now.outside.items ≡ split.count - cert.now.x)) }
{
    let inside = cert.inside.as_slice();
    let outside = cert.outside.as_slice();
    have_values(inside)
        && have_values(outside)
        && count(inside) == u128::from(cert.x)
        && count(outside) == u128::from(split.count - cert.x)
}

// Whether all values lie from the least to the greatest of the window.
fn all_lie_between(cert: &Cert, split: Split) -> bool
    ensures { IsTrue result ↔ (LieBetween split.min split.max cert.now.inside.items × LieBetween split.min split.max cert.now.outside.items) }
{
    lie_between(cert.inside.as_slice(), split.min, split.max)
        && lie_between(cert.outside.as_slice(), split.min, split.max)
}

// Whether a value occurs.
fn occurs(cert: &Cert, value: i64) -> bool
    ensures { IsTrue result ↔ (Occurs value cert.now.inside.items ⊎ Occurs value cert.now.outside.items) }
{
    contains(cert.inside.as_slice(), value) || contains(cert.outside.as_slice(), value)
}

// Whether the least and the greatest value of the window occur.
fn ends_occur(cert: &Cert, split: Split) -> bool
    ensures { IsTrue result ↔ ((Occurs split.min cert.now.inside.items ⊎ Occurs split.min cert.now.outside.items)
        × (Occurs split.max cert.now.inside.items ⊎ Occurs split.max cert.now.outside.items)) }
{
    occurs(cert, split.min) && occurs(cert, split.max)
}

// What all values add up to.
fn sum(cert: &Cert) -> i128
    requires { run_count cert.now.inside.items + run_count cert.now.outside.items ≤ MOST_VALUES }
    ensures { result ≡ (run_total cert.now.inside.items +ℤ run_total cert.now.outside.items) }
{
    total(cert.inside.as_slice()) + total(cert.outside.as_slice())
}

// Whether this is the sum of the window.
fn has_window_sum(cert: &Cert, split: Split) -> bool
    requires { run_count cert.now.inside.items + run_count cert.now.outside.items ≤ MOST_VALUES }
    ensures { IsTrue result ↔ ((run_total cert.now.inside.items +ℤ run_total cert.now.outside.items) ≡ split.sum) }
{
    sum(cert) == split.sum
}

// Whether it is of the window, with so many values as may lie in the range and outside it.
fn is_of(cert: &Cert, cut: &Cut) -> bool
    ensures few { IsTrue result → run_count cert.now.inside.items + run_count cert.now.outside.items ≤ MOST_VALUES }
    ensures inside { IsTrue result → HasFewInside cert.now }
    ensures value { IsTrue result ↔ IsOf cut.now cert.now }
{
    names(cert, cut) && is_in_range(cert, cut.split) && has_numbers(cert, cut.split)
}

// Whether its values are such as the window may hold.
fn has_values(cert: &Cert, split: Split) -> bool
    requires { run_count cert.now.inside.items + run_count cert.now.outside.items ≤ MOST_VALUES }
    ensures { IsTrue result ↔ HasValues split cert.now }
{
    all_lie_between(cert, split) && ends_occur(cert, split) && has_window_sum(cert, split)
}

/// Whether a certificate is of a window that a range splits, and its values are such as the window may hold.
pub fn certifies(cert: &Cert, cut: &Cut) -> bool
    ensures value { IsTrue result ↔ Certifies cut.now cert.now }
    ensures few { IsTrue result → HasFewInside cert.now }
{
    is_of(cert, cut) && has_values(cert, cut.split)
}
