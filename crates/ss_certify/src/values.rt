// The values that an answer is made of, by their sum and count: those that are known, and those of certificates.
ghost use Rattle.std.specs.Prelude.{◌≡◌, ◌^◌, ◌<◌, ◌≤◌, pos, unsigned_abs, All, length};
ghost use Rattle.ss_base.specs.declared.limits.TheConstants.{MOST_VALUES};
ghost use Rattle.std.specs.Option.{option_map_or};
ghost use Rattle.ss_query.specs.Asked.{IsFewMarked, values_seen};
ghost use Rattle.ss_base.specs.Near.{IsNear};
ghost use Rattle.ss_certify.specs.Evidence.{answer_from, certified, with_certified};
ghost use Rattle.ss_certify.specs.Checked.{HasFewInside};
ghost use Rattle.ss_summary.specs.Figures.{Figures};

use crate::runs::total;
use crate::{Answer, Cert};
use ss_base::MOST_VALUES;
use ss_bounds::{Fraction, lowest_mean, with_values};
use ss_catalog::Kind;
use ss_query::Seen;
use ss_summary::Summary;

// How many values the windows have that lie whole in the range.
fn whole_count(whole: Option<Summary>) -> u64
    ensures value { result ≡ option_map_or (λ (f : Figures). f.count) whole 0 }
    ensures few { result ≤ MOST_VALUES }
{
    match whole {
        None => 0,
        Some(summary) => summary.count,
    }
}

// What these add up to.
fn whole_sum(whole: Option<Summary>) -> i128
    ensures value { result ≡ option_map_or (λ (f : Figures). f.sum) whole (pos 0) }
    ensures near { unsigned_abs result < 2 ^ 104 }
{
    match whole {
        None => 0,
        Some(summary) => summary.sum,
    }
}

/// The values that are known to lie in the range.
pub fn known(seen: &Seen) -> Fraction
    requires { IsFewMarked seen.now.marked }
    ensures value { result ≡ values_seen seen.now }
    ensures near { unsigned_abs result.over ≤ 2 ^ 105 }
    ensures few { result.under ≤ 2 ^ 41 }
{
    Fraction {
        over: whole_sum(seen.whole) + seen.marked.sum,
        under: whole_count(seen.whole) + seen.marked.count,
    }
}

/// The values of a certificate in the range.
pub fn certified(cert: &Cert) -> Fraction
    requires { HasFewInside cert.now }
    ensures value { result ≡ certified cert.now }
    ensures near { unsigned_abs result.over ≤ 2 ^ 104 }
    ensures few { result.under ≤ 2 ^ 40 }
{
    Fraction {
        over: total(cert.inside.as_slice()),
        under: cert.x,
    }
}

/// Some values with those of two certificates, at the most, in the range.
pub fn with_certified(known: Fraction, certs: &[Cert]) -> Fraction
    requires near { unsigned_abs known.over ≤ 2 ^ 105 }
    requires many { known.under ≤ 2 ^ 41 }
    requires few { length certs.now ≤ 2 }
    requires each { All HasFewInside certs.now }
    ensures { result ≡ with_certified known certs.now }
{
    match certs {
        [] => known,
        [cert] => with_values(known, certified(cert)),
        [first, second, ..] => {
            with_values(with_values(known, certified(first)), certified(second))
        }
    }
}

/// What is answered of some values.
pub fn answer(kind: Kind, values: Fraction) -> Answer
    ensures { result ≡ answer_from kind values }
{
    match kind {
        Kind::Sum => Answer::Sum(values.over),
        Kind::Mean => Answer::Mean(lowest_mean(values)),
        _ => Answer::Count(values.under),
    }
}
