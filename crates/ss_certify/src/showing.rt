// Whether evidence shows that an end of an answer can't be narrower, filters aside.
ghost use Rattle.std.specs.Prelude.{◌≡◌, ◌↔◌, [], ◌∷◌, All, IsTrue, Some};
ghost use Rattle.ss_bounds.specs.Extremes.{listed};
ghost use Rattle.ss_query.specs.Asked.{IsFewMarked, outcome_seen, values_seen};
ghost use Rattle.ss_certify.specs.Evidence.{AllCertify, IsEvidence, answer_from, end_asked, mean_end, with_certified};
ghost use Rattle.ss_certify.specs.Checked.{HasFewInside};

use crate::checking::certifies;
use crate::values::{answer, known, with_certified};
use crate::{Answer, Cert, Evidence};
use ss_bounds::{Fraction, Mean};
use ss_catalog::{End, Kind};
use ss_query::{Cut, Outcome, Seen, outcome_seen};

// Whether these are a certificate of this window, and no further ones.
fn certify_one(certs: &[Cert], cut: &Cut) -> bool
    ensures value { IsTrue result ↔ AllCertify (cut.now ∷ []) certs.now }
    ensures few { IsTrue result → All HasFewInside certs.now }
{
    match certs {
        [cert] => certifies(cert, cut),
        _ => false,
    }
}

// Whether these are a certificate of each of two windows, in order, and no further ones.
fn certify_two(certs: &[Cert], older: &Cut, newer: &Cut) -> bool
    ensures value { IsTrue result ↔ AllCertify (older.now ∷ newer.now ∷ []) certs.now }
    ensures few { IsTrue result → All HasFewInside certs.now }
{
    match certs {
        [first, second] => certifies(first, older) && certifies(second, newer),
        _ => false,
    }
}

// Whether these are a certificate of each of the windows that the range splits, in order, and no further ones.
fn all_certify(left: Option<Cut>, right: Option<Cut>, certs: &[Cert]) -> bool
    ensures value { IsTrue result ↔ AllCertify (listed left right) certs.now }
    ensures few { IsTrue result → All HasFewInside certs.now }
{
    match (left, right) {
        (None, None) => certs.is_empty(),
        (Some(cut), None) | (None, Some(cut)) => certify_one(certs, &cut),
        (Some(older), Some(newer)) => certify_two(certs, &older, &newer),
    }
}

// Whether what is known exactly and the values of the certificates in the range have this answer.
fn answers(seen: &Seen, kind: Kind, w: &Evidence) -> bool
    requires marked { IsFewMarked seen.now.marked }
    requires each { All HasFewInside w.now.certs.items }
    ensures { IsTrue result ↔ ((w.now.known ≡ values_seen seen.now) × (w.now.answer ≡ answer_from kind (with_certified w.now.known w.now.certs.items))) }
{
    let known = known(seen);
    w.known == known && w.answer == answer(kind, with_certified(known, w.certs.as_slice()))
}

// An end of what is known of a mean, if there may be one.
fn mean_end(end: End, known: Mean) -> Option<Fraction>
    ensures { result ≡ mean_end end known }
{
    match (end, known) {
        (_, Mean::Nothing) => None,
        (End::Lo, Mean::Sure { lo, .. } | Mean::Maybe { lo, .. }) => Some(lo),
        (End::Hi, Mean::Sure { hi, .. } | Mean::Maybe { hi, .. }) => Some(hi),
    }
}

// An end of what is answered, if there are certificates of it.
fn end_asked(end: End, outcome: Outcome) -> Option<Answer>
    ensures { result ≡ end_asked end outcome }
{
    match (end, outcome) {
        (End::Lo, Outcome::Count { lo, .. }) => Some(Answer::Count(lo)),
        (End::Hi, Outcome::Count { hi, .. }) => Some(Answer::Count(hi)),
        (End::Lo, Outcome::Sum { lo, .. }) => Some(Answer::Sum(lo)),
        (End::Hi, Outcome::Sum { hi, .. }) => Some(Answer::Sum(hi)),
        (End::Lo, Outcome::Mean(known)) => Some(Answer::Mean(mean_end(End::Lo, known))),
        (End::Hi, Outcome::Mean(known)) => Some(Answer::Mean(mean_end(End::Hi, known))),
        _ => None,
    }
}

// Whether this is the end that is asked for.
fn is_asked(seen: &Seen, kind: Kind, end: End, answer: Answer) -> bool
    requires { IsFewMarked seen.now.marked }
    ensures { IsTrue result ↔ (end_asked end (outcome_seen kind seen.now) ≡ Some answer) }
{
    end_asked(end, outcome_seen(*seen, kind)) == Some(answer)
}

/// Whether evidence shows, from what is known of a stream, that an end of its answer can't be narrower, filters aside: there is
/// a certificate of each window that the range splits, and with what is known exactly their values give this end.
pub fn shows(seen: &Seen, kind: Kind, end: End, w: &Evidence) -> bool
    requires { IsFewMarked seen.now.marked }
    ensures { IsTrue result ↔ IsEvidence kind end seen.now w.now }
{
    all_certify(seen.left, seen.right, w.certs.as_slice())
        && answers(seen, kind, w)
        && is_asked(seen, kind, end, w.answer)
}
