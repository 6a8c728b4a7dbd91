// Evidence as replies.
ghost use Rattle.std.specs.Prelude.{◌≡◌, ◌-◌, get_or, if◌then◌else◌, pos};
ghost use Rattle.ss_certify.specs.Told.{head_of, three_runs, side_of};

use crate::{Answer, Cert, Evidence};
use ss_model::Run;
use ss_report::{Reply, Side};

// The run at a place, or one of no values behind the last.
fn run_at(runs: &[Run], place: usize) -> Run
    ensures { result ≡ get_or runs.now place (record { value = pos 0; times = 0 }) }
{
    if place < runs.len() {
        return runs[place];
    }
    Run { value: 0, times: 0 }
}

// Three runs: these, and behind them runs of no values.
fn three_runs(runs: &[Run]) -> [Run; 3]
    ensures { result ≡ three_runs runs.now }
{
    [run_at(runs, 0), run_at(runs, 1), run_at(runs, 2)]
}

// The runs inside the range, or those outside it.
fn runs(cert: &Cert, inner: bool) -> [Run; 3]
    ensures { result ≡ three_runs (if inner then cert.now.inside.items else cert.now.outside.items) }
{
    if inner {
        three_runs(cert.inside.as_slice())
    } else {
        three_runs(cert.outside.as_slice())
    }
}

// How many values these are.
fn value_count(cert: &Cert, inner: bool) -> u64
    ensures { result ≡ (if inner then cert.now.x else cert.now.split.count - cert.now.x) }
{
    if inner {
        cert.x
    } else {
        cert.split.count.saturating_sub(cert.x)
    }
}

/// The line of an end of an answer: this end, what is known exactly, and how many windows the range splits.
pub fn head(w: &Evidence) -> Reply
    ensures { result ≡ head_of w.now }
{
    let known = w.known;
    let count = w.certs.len() as u32;
    match w.answer {
        Answer::Count(answer) => Reply::CertifyHead {
            answer: i128::from(answer),
            base: i128::from(known.under),
            count,
        },
        Answer::Sum(answer) => Reply::CertifyHead {
            answer,
            base: known.over,
            count,
        },
        Answer::Mean(answer) => Reply::CertifyMeanHead {
            answer,
            known,
            count,
        },
    }
}

/// The line of the values of a certificate in the range, or of those outside it.
pub fn side(cert: &Cert, inner: bool) -> Reply
    ensures { result ≡ side_of cert.now inner }
{
    Reply::Side(Side {
        inner,
        first: cert.first,
        last: cert.last,
        values: value_count(cert, inner),
        runs: runs(cert, inner),
    })
}
