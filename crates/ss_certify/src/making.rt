// The evidence for an end of an answer, from what is known of a stream.
ghost use Rattle.std.specs.Prelude.{◌≡◌, ◌≤◌, ◌^◌, [], ◌∷◌, All, IfSome, None, unsigned_abs};
ghost use Rattle.ss_bounds.specs.Extremes.{listed};
ghost use Rattle.ss_bounds.specs.Parted.{CanBeParted};
ghost use Rattle.ss_bounds.specs.Split.{IsSplit};
ghost use Rattle.ss_query.specs.Asked.{IsFewMarked};
ghost use Rattle.ss_certify.specs.Checked.{HasFewInside};
ghost use Rattle.ss_certify.specs.Made.{attaining, certificate_of, certificate_with, certificates_of, evidence_of, inside_sum};

use crate::fill::fill;
use crate::values::{answer, certified, known, with_certified};
use crate::{Cert, Evidence};
use arrayvec::ArrayVec;
use ss_bounds::{
    Fraction, Split, count_bounds, greatest_mean_at, greatest_sum_at, high_sum, least_mean_at,
    least_sum_at, low_sum, with_values,
};
use ss_catalog::{End, Kind};
use ss_query::{Cut, Seen};

// The least number of values in the range with which this end is attained: of the sum, of the mean with what is known and some values
// of the other window, or else of the numbers.
fn attaining(kind: Kind, end: End, known: Fraction, split: Split, other: Option<Split>) -> u64
    requires near { unsigned_abs known.over ≤ 2 ^ 106 }
    requires few { known.under ≤ 2 ^ 42 }
    ensures { result ≡ attaining kind end known split (listed None other) }
{
    let (fewest, most) = count_bounds(split);
    match (kind, end) {
        (Kind::Sum, End::Lo) => least_sum_at(split),
        (Kind::Sum, End::Hi) => greatest_sum_at(split),
        (Kind::Mean, End::Lo) => least_mean_at(known, split, other),
        (Kind::Mean, End::Hi) => greatest_mean_at(known, split, other),
        (_, End::Lo) => fewest,
        (_, End::Hi) => most,
    }
}

// What x values in the range add up to.
fn sum_inside(kind: Kind, end: End, split: Split, x: u64) -> i128
    requires { x ≤ split.count }
    ensures { result ≡ inside_sum kind end split x }
{
    match (kind, end) {
        (Kind::Sum | Kind::Mean, End::Hi) => high_sum(split, x),
        _ => low_sum(split, x),
    }
}

// The certificate with x values in the range, which add up to `sum`.
fn certificate_with(cut: Cut, x: u64, sum: i128) -> Cert
    requires { CanBeParted cut.split x sum }
    ensures value { result ≡ certificate_with cut x sum }
    ensures few { HasFewInside result }
{
    let split = cut.split;
    Cert {
        first: cut.first,
        last: cut.last,
        split,
        x,
        inside: fill(x, sum, split.min, split.max),
        outside: fill(split.count - x, split.sum - sum, split.min, split.max),
    }
}

// Says for the proof alone what holds of a window that may be there.
fn look(split: &Option<Split>)
    ensures { IfSome split.now IsSplit }
{
    if let Some(split) = split {
        let _count = split.count;
    }
}

// The certificate of a window that the range splits: with the least number of its values in the range that attains this end, beside what
// is known and some values of the other window.
fn certificate(kind: Kind, end: End, known: Fraction, cut: Cut, other: Option<Split>) -> Cert
    requires near { unsigned_abs known.over ≤ 2 ^ 106 }
    requires few { known.under ≤ 2 ^ 42 }
    ensures value { result ≡ certificate_of kind end known cut (listed None other) }
    ensures few { HasFewInside result }
{
    let split = cut.split;
    // Read for the proof alone: with a field comes what holds of each split.
    let _count = split.count;
    look(&other);
    let x = attaining(kind, end, known, split, other);
    let sum = sum_inside(kind, end, split, x);
    certificate_with(cut, x, sum)
}

// The one of the only window that the range splits.
fn certificates_of_one(kind: Kind, end: End, known: Fraction, cut: Cut) -> ArrayVec<Cert, 2>
    requires near { unsigned_abs known.over ≤ 2 ^ 105 }
    requires few { known.under ≤ 2 ^ 41 }
    ensures value { result.items ≡ certificates_of kind end known (cut ∷ []) }
    ensures each { All HasFewInside result.items }
{
    let mut certs = ArrayVec::new();
    certs.push(certificate(kind, end, known, cut, None));
    certs
}

// Those of two windows: with the values of the older one known, the newer one's attain the end.
fn certificates_of_two(
    kind: Kind,
    end: End,
    known: Fraction,
    older: Cut,
    newer: Cut,
) -> ArrayVec<Cert, 2>
    requires near { unsigned_abs known.over ≤ 2 ^ 105 }
    requires few { known.under ≤ 2 ^ 41 }
    ensures value { result.items ≡ certificates_of kind end known (older ∷ newer ∷ []) }
    ensures each { All HasFewInside result.items }
{
    let first = certificate(kind, end, known, older, Some(newer.split));
    let known = with_values(known, certified(&first));
    let mut certs = ArrayVec::new();
    certs.push(first);
    certs.push(certificate(kind, end, known, newer, None));
    certs
}

// Those of the windows that the range splits.
fn certificates(
    kind: Kind,
    end: End,
    known: Fraction,
    left: Option<Cut>,
    right: Option<Cut>,
) -> ArrayVec<Cert, 2>
    requires near { unsigned_abs known.over ≤ 2 ^ 105 }
    requires few { known.under ≤ 2 ^ 41 }
    ensures value { result.items ≡ certificates_of kind end known (listed left right) }
    ensures each { All HasFewInside result.items }
{
    match (left, right) {
        (None, None) => ArrayVec::new(),
        (Some(cut), None) | (None, Some(cut)) => certificates_of_one(kind, end, known, cut),
        (Some(older), Some(newer)) => certificates_of_two(kind, end, known, older, newer),
    }
}

/// The evidence for an end of what is answered from what is known.
pub fn evidence(seen: &Seen, kind: Kind, end: End) -> Evidence
    requires { IsFewMarked seen.now.marked }
    ensures { result ≡ evidence_of kind end seen.now }
{
    let known = known(seen);
    let certs = certificates(kind, end, known, seen.left, seen.right);
    Evidence {
        answer: answer(kind, with_certified(known, certs.as_slice())),
        known,
        certs,
    }
}
