// Evidence for an end of an answer: what is made, and what is found to show the end.
ghost use Rattle.std.specs.Prelude.{IfSome, IsTrue};
ghost use Rattle.ss_catalog.specs.Queries.{is_certified};

use crate::applying::READINGS;
use crate::passing::pass;
use crate::running::{Question, Running, crowd, fresh, play, reopen};
use arrayvec::{ArrayString, ArrayVec};
use ss_bounds::{Fraction, Split};
use ss_catalog::{End, Kind, Name, Query, Refusal};
use ss_certify::{Answer, Cert, Evidence, Run, check, head, make, side};
use ss_report::reply_text;
use ss_store::AskError::{self, Disk, Refused, Stopped};
use ss_store::OpenError;
use std::alloc::Global;
use std::test::Fail;

// The query, if there are certificates of its answers.
fn query_of(question: Question) -> Option<Query>
    ensures { IfSome result (λ query. IsTrue (is_certified query.kind)) }
{
    let (letter, kind, from, to) = question;
    let name = Name::of(&[letter])?;
    if !kind.is_certified() {
        return None;
    }
    Some(Query {
        name,
        kind,
        from,
        to,
    })
}

// The evidence that is made, or why none is. `None` is for what has no evidence, and for a call of the disk where it is refused
// or the store has stopped.
fn made(running: &mut Running, question: Question, end: End) -> Option<Result<Evidence, AskError>> {
    let query = query_of(question)?;
    let before = running.disk.calls();
    let answer = make(&mut running.store, &mut running.disk, &query, end);
    match answer {
        Err(Refused(_) | Stopped) if running.disk.calls() != before => None,
        _ => Some(answer),
    }
}

// Whether evidence is found to show the end, or why it isn't looked at. `None` is as above.
fn shown(
    running: &mut Running,
    question: Question,
    end: End,
    evidence: &Evidence,
) -> Option<Result<bool, AskError>> {
    let query = query_of(question)?;
    let before = running.disk.calls();
    let answer = check(&mut running.store, &mut running.disk, &query, end, evidence);
    match answer {
        Err(Refused(_) | Stopped) if running.disk.calls() != before => None,
        _ => Some(answer),
    }
}

fn has_head(evidence: &Evidence, line: &str) -> bool {
    let mut text = ArrayString::new();
    reply_text(&head(evidence), &mut text);
    text.as_str() == line
}

fn has_side(cert: &Cert, inner: bool, line: &str) -> bool {
    let mut text = ArrayString::new();
    reply_text(&side(cert, inner), &mut text);
    text.as_str() == line
}

// The lines of a certificate.
type Sides = (&'static str, &'static str);

fn has_sides(certs: &[Cert], sides: &[Sides]) -> bool {
    for (cert, (inside, outside)) in certs.iter().zip(sides) {
        if !has_side(cert, true, inside) || !has_side(cert, false, outside) {
            return false;
        }
    }
    certs.len() == sides.len()
}

// The lines of the evidence for an end of an answer.
type Told = (Question, End, &'static str, &'static [Sides]);

const MEAN: Question = (b'a', Kind::Mean, 25, 55);

const TOLD: [Told; 6] = [
    (
        (b'a', Kind::Sum, 10, 25),
        End::Lo,
        "certify -5 0 1\n",
        &[("inside 1 4 2 -3*1 -2*1\n", "outside 1 4 2 8*2\n")],
    ),
    (
        (b'a', Kind::Sum, 25, 55),
        End::Hi,
        "certify 25 0 2\n",
        &[
            ("inside 1 4 2 8*2\n", "outside 1 4 2 -3*1 -2*1\n"),
            ("inside 5 6 1 9*1\n", "outside 5 6 1 2*1\n"),
        ],
    ),
    ((b'a', Kind::Count, 10, 40), End::Lo, "certify 4 4 0\n", &[]),
    (
        MEAN,
        End::Hi,
        "certify 17/2 0 0 2\n",
        &[
            ("inside 1 4 1 8*1\n", "outside 1 4 3 -3*1 -2*1 8*1\n"),
            ("inside 5 6 1 9*1\n", "outside 5 6 1 2*1\n"),
        ],
    ),
    (
        (b'a', Kind::Mean, 0, 100),
        End::Lo,
        "certify 29/7 29 7 0\n",
        &[],
    ),
    (
        (b'a', Kind::Mean, 80, 90),
        End::Hi,
        "certify none 0 0 0\n",
        &[],
    ),
];

// Whether the evidence that is made has these lines, and is found to show the end.
fn is_told(running: &mut Running, told: &Told) -> bool {
    let (question, end, head, sides) = told;
    match made(running, *question, *end) {
        Some(Ok(evidence)) => {
            has_head(&evidence, head)
                && has_sides(evidence.certs.as_slice(), sides)
                && shown(running, *question, *end, &evidence) == Some(Ok(true))
        }
        _ => false,
    }
}

// The first row that is told otherwise.
fn first_untold(running: &mut Running) -> Option<usize> {
    play(running, &READINGS);
    for (row, told) in TOLD.iter().enumerate() {
        if !is_told(running, told) {
            return Some(row);
        }
    }
    None
}

fn told_after_readings(alloc: Global) -> Result<Option<usize>, OpenError> {
    let mut running = fresh(alloc)?;
    Ok(first_untold(&mut running))
}

#[test]
fn evidence_is_made_and_shows_the_end(rt: HostRuntime) -> Result<(), Fail> {
    pass(told_after_readings(rt.alloc())?)
}

const SUM: Question = (b'a', Kind::Sum, 10, 25);

// 5, -3, 8 and 1 at the times 10, 20, 30 and 40, from 10 to 25.
const FOUR: Split = Split {
    count: 4,
    sum: 11,
    min: -3,
    max: 8,
    ends: 1,
    inside: 15,
    outside: 14,
};

// The sum, and that of what is known; the first and last position and how many values are in the range; two runs inside and one outside,
// each a value and how many of it.
type Numbers = (i128, i128, u64, u64, u64, [(i64, u64); 3]);

// Those for the least sum.
const LEAST: Numbers = (-5, 0, 1, 4, 2, [(-3, 1), (-2, 1), (8, 2)]);

// Evidence with one certificate.
type Claim = (Split, Numbers);

const RIGHT: Claim = (FOUR, LEAST);

// Each with one number changed by one.
const WRONG: [Claim; 18] = [
    (FOUR, (-4, 0, 1, 4, 2, [(-3, 1), (-2, 1), (8, 2)])),
    (FOUR, (-5, 1, 1, 4, 2, [(-3, 1), (-2, 1), (8, 2)])),
    (FOUR, (-5, 0, 2, 4, 2, [(-3, 1), (-2, 1), (8, 2)])),
    (FOUR, (-5, 0, 1, 5, 2, [(-3, 1), (-2, 1), (8, 2)])),
    (Split { count: 5, ..FOUR }, LEAST),
    (Split { sum: 12, ..FOUR }, LEAST),
    (Split { min: -4, ..FOUR }, LEAST),
    (Split { max: 9, ..FOUR }, LEAST),
    (Split { ends: 0, ..FOUR }, LEAST),
    (Split { inside: 16, ..FOUR }, LEAST),
    (
        Split {
            outside: 15,
            ..FOUR
        },
        LEAST,
    ),
    (FOUR, (-5, 0, 1, 4, 3, [(-3, 1), (-2, 1), (8, 2)])),
    (FOUR, (-5, 0, 1, 4, 2, [(-2, 1), (-2, 1), (8, 2)])),
    (FOUR, (-5, 0, 1, 4, 2, [(-3, 2), (-2, 1), (8, 2)])),
    (FOUR, (-5, 0, 1, 4, 2, [(-3, 1), (-1, 1), (8, 2)])),
    (FOUR, (-5, 0, 1, 4, 2, [(-3, 1), (-2, 2), (8, 2)])),
    (FOUR, (-5, 0, 1, 4, 2, [(-3, 1), (-2, 1), (9, 2)])),
    (FOUR, (-5, 0, 1, 4, 2, [(-3, 1), (-2, 1), (8, 3)])),
];

fn run_of(run: (i64, u64)) -> Run {
    let (value, times) = run;
    Run { value, times }
}

fn cert_of(claim: Claim) -> Cert {
    let (split, (_, _, first, last, x, runs)) = claim;
    let mut inside = ArrayVec::new();
    inside.push(run_of(runs[0]));
    inside.push(run_of(runs[1]));
    let mut outside = ArrayVec::new();
    outside.push(run_of(runs[2]));
    Cert {
        first,
        last,
        split,
        x,
        inside,
        outside,
    }
}

// A sum of no known values.
fn known_sum(over: i128) -> Fraction {
    Fraction { over, under: 0 }
}

fn evidence_of(claim: Claim) -> Evidence {
    let (_, (answer, base, _, _, _, _)) = claim;
    let mut certs = ArrayVec::new();
    certs.push(cert_of(claim));
    Evidence {
        answer: Answer::Sum(answer),
        known: known_sum(base),
        certs,
    }
}

// The same with its certificate left out.
fn bare(claim: Claim) -> Evidence {
    let (_, (answer, base, _, _, _, _)) = claim;
    Evidence {
        answer: Answer::Sum(answer),
        known: known_sum(base),
        certs: ArrayVec::new(),
    }
}

// Whether evidence for the least sum is found to show it.
fn is_found(running: &mut Running, evidence: &Evidence, shows: bool) -> bool {
    shown(running, SUM, End::Lo, evidence) == Some(Ok(shows))
}

// The first row that is found otherwise, and behind the rows the right numbers, or these without the certificate.
fn first_misjudged(running: &mut Running) -> Option<usize> {
    play(running, &READINGS);
    for (row, claim) in WRONG.iter().enumerate() {
        if !is_found(running, &evidence_of(*claim), false) {
            return Some(row);
        }
    }
    if is_found(running, &evidence_of(RIGHT), true) && is_found(running, &bare(RIGHT), false) {
        None
    } else {
        Some(WRONG.len())
    }
}

fn misjudged_after_readings(alloc: Global) -> Result<Option<usize>, OpenError> {
    let mut running = fresh(alloc)?;
    Ok(first_misjudged(&mut running))
}

#[test]
fn evidence_with_one_number_changed_shows_nothing(rt: HostRuntime) -> Result<(), Fail> {
    pass(misjudged_after_readings(rt.alloc())?)
}

// What may be said of the greatest mean, and whether the values that are made for it show that.
const MEANS: [(Answer, bool); 5] = [
    (Answer::Mean(Some(Fraction { over: 17, under: 2 })), true),
    (Answer::Mean(Some(Fraction { over: 34, under: 4 })), false),
    (Answer::Mean(None), false),
    (Answer::Sum(17), false),
    (Answer::Count(2), false),
];

// Whether the evidence for the greatest mean shows an answer, or not.
fn is_shown(running: &mut Running, answer: Answer, shows: bool) -> bool {
    match made(running, MEAN, End::Hi) {
        Some(Ok(evidence)) => {
            let other = Evidence { answer, ..evidence };
            shown(running, MEAN, End::Hi, &other) == Some(Ok(shows))
        }
        _ => false,
    }
}

// The first row that is found otherwise.
fn first_mean_misjudged(running: &mut Running) -> Option<usize> {
    play(running, &READINGS);
    for (row, (answer, shows)) in MEANS.iter().enumerate() {
        if !is_shown(running, *answer, *shows) {
            return Some(row);
        }
    }
    None
}

fn mean_misjudged_after_readings(alloc: Global) -> Result<Option<usize>, OpenError> {
    let mut running = fresh(alloc)?;
    Ok(first_mean_misjudged(&mut running))
}

#[test]
fn evidence_of_a_mean_shows_it_in_lowest_terms_alone(rt: HostRuntime) -> Result<(), Fail> {
    pass(mean_misjudged_after_readings(rt.alloc())?)
}

#[derive(Clone, Copy)]
enum Call {
    ToMake,
    ToCheck,
}

use Call::{ToCheck, ToMake};

// A call that isn't answered, and why.
type Failing = (Call, Question, AskError);

const UNKNOWN: AskError = Refused(Refusal::Unknown);

const RANGE: AskError = Refused(Refusal::Range);

// No name but `a` has a stream. The first call that is not refused finds that the disk fails, and the next ones that the store
// has stopped.
const UNMADE: [Failing; 9] = [
    (ToMake, (b'x', Kind::Sum, 10, 25), UNKNOWN),
    (ToCheck, (b'x', Kind::Sum, 10, 25), UNKNOWN),
    (ToMake, (b'x', Kind::Sum, 25, 10), UNKNOWN),
    (ToCheck, (b'x', Kind::Sum, 25, 10), UNKNOWN),
    (ToMake, (b'a', Kind::Sum, 25, 10), RANGE),
    (ToCheck, (b'a', Kind::Sum, 25, 10), RANGE),
    (ToMake, SUM, Disk),
    (ToMake, SUM, Stopped),
    (ToCheck, SUM, Stopped),
];

const UNCHECKED: [Failing; 3] = [
    (ToCheck, SUM, Disk),
    (ToCheck, SUM, Stopped),
    (ToMake, SUM, Stopped),
];

fn is_not_made(running: &mut Running, question: Question, error: AskError) -> bool {
    match made(running, question, End::Lo) {
        Some(Err(found)) => found == error,
        _ => false,
    }
}

fn is_not_checked(running: &mut Running, question: Question, error: AskError) -> bool {
    shown(running, question, End::Lo, &evidence_of(RIGHT)) == Some(Err(error))
}

fn fails(running: &mut Running, failing: Failing) -> bool {
    let (call, question, error) = failing;
    match call {
        ToMake => is_not_made(running, question, error),
        ToCheck => is_not_checked(running, question, error),
    }
}

// The first row that fails otherwise, on a disk that fails from here on.
fn first_unfailing(running: &mut Running, rows: &[Failing]) -> Option<usize> {
    running.disk.stop_after(0);
    for (row, failing) in rows.iter().enumerate() {
        if !fails(running, *failing) {
            return Some(row);
        }
    }
    None
}

// The same, of a store that reads each window in its slot.
fn unfailing(
    alloc: Global,
    running: &mut Running,
    rows: &[Failing],
) -> Result<Option<usize>, OpenError> {
    play(running, &READINGS);
    crowd(running);
    reopen(alloc, running)?;
    Ok(first_unfailing(running, rows))
}

fn unfailing_after_readings(alloc: Global, rows: &[Failing]) -> Result<Option<usize>, OpenError> {
    let mut running = fresh(alloc)?;
    unfailing(alloc, &mut running, rows)
}

#[test]
fn evidence_is_not_made(rt: HostRuntime) -> Result<(), Fail> {
    pass(unfailing_after_readings(rt.alloc(), &UNMADE)?)
}

#[test]
fn evidence_is_not_checked(rt: HostRuntime) -> Result<(), Fail> {
    pass(unfailing_after_readings(rt.alloc(), &UNCHECKED)?)
}
