// What is answered of the values in a range, from what is known of them.
ghost use Rattle.std.specs.Prelude.{◌≡◌, ◌+◌, ◌*◌, ◌≤◌};
ghost use Rattle.ss_base.specs.Near.{IsNear};
ghost use Rattle.ss_base.specs.declared.limits.TheConstants.{MOST_VALUES};
ghost use Rattle.ss_query.specs.Asked.{IsFewMarked, counts_of, counts_seen, figures_of, outcome_seen, seen_count, seen_sum, sums_of, sums_seen};

use crate::Cut;
use crate::asking::Seen;
use crate::means::{mean_guessed, mean_seen};
use ss_bounds::{
    Split, count_bounds, count_guess, greater, lesser, max_bounds, min_bounds, sum_bounds,
    sum_guess,
};
use ss_catalog::Kind;
use ss_landmarks::Tally;
use ss_model::Outcome;
use ss_summary::Summary;

// How many values are known: those of the windows that lie whole in the range, and those of landmarks.
pub fn known_count(whole: Option<Summary>, marked: Tally) -> u64
    requires { IsFewMarked marked }
    ensures value { result ≡ seen_count whole marked }
    ensures few { result ≤ 2 * MOST_VALUES }
{
    match whole {
        None => marked.count,
        Some(summary) => summary.count + marked.count,
    }
}

// What the sum of these is.
pub fn known_sum(whole: Option<Summary>, marked: Tally) -> i128
    requires { IsFewMarked marked }
    ensures value { result ≡ seen_sum whole marked }
    ensures near { IsNear result }
{
    match whole {
        None => marked.sum,
        Some(summary) => summary.sum + marked.sum,
    }
}

// How many values of a cut window may lie in the range, where there is one.
fn counts_of(cut: Option<Cut>) -> (u64, u64)
    ensures value { result ≡ counts_of cut }
    ensures few { (result.0 ≤ MOST_VALUES) × (result.1 ≤ MOST_VALUES) }
{
    match cut {
        None => (0, 0),
        Some(cut) => count_bounds(cut.split),
    }
}

// Which sums they may have.
fn sums_of(cut: Option<Cut>) -> (i128, i128)
    ensures value { result ≡ sums_of cut }
    ensures near { IsNear result.0 × IsNear result.1 }
{
    match cut {
        None => (0, 0),
        Some(cut) => {
            let split = cut.split;
            // Read for the proof alone: with a field comes what holds of each split.
            let _count = split.count;
            sum_bounds(split)
        }
    }
}

// Its figures, where there is one.
pub fn figures_of(cut: Option<Cut>) -> Option<Split>
    ensures { result ≡ figures_of cut }
{
    match cut {
        None => None,
        Some(cut) => Some(cut.split),
    }
}

// From how many to how many values lie in the range.
fn counts_seen(seen: Seen) -> (u64, u64)
    requires { IsFewMarked seen.marked }
    ensures { result ≡ counts_seen seen }
{
    let known = known_count(seen.whole, seen.marked);
    let left = counts_of(seen.left);
    let right = counts_of(seen.right);
    (known + left.0 + right.0, known + left.1 + right.1)
}

// From which to which sum they have.
fn sums_seen(seen: Seen) -> (i128, i128)
    requires { IsFewMarked seen.marked }
    ensures { result ≡ sums_seen seen }
{
    let known = known_sum(seen.whole, seen.marked);
    let left = sums_of(seen.left);
    let right = sums_of(seen.right);
    (known + left.0 + right.0, known + left.1 + right.1)
}

// How many values lie in the range.
fn count_seen(seen: Seen) -> Outcome
    requires { IsFewMarked seen.marked }
    ensures { result ≡ outcome_seen Kind.Count seen }
{
    let (lo, hi) = counts_seen(seen);
    Outcome::Count { lo, hi }
}

// What their sum is.
fn sum_seen(seen: Seen) -> Outcome
    requires { IsFewMarked seen.marked }
    ensures { result ≡ outcome_seen Kind.Sum seen }
{
    let (lo, hi) = sums_seen(seen);
    Outcome::Sum { lo, hi }
}

// How many values lie in the range, and the likeliest number.
fn count_guessed(seen: Seen) -> Outcome
    requires { IsFewMarked seen.marked }
    ensures { result ≡ outcome_seen Kind.CountGuess seen }
{
    let known = i128::from(known_count(seen.whole, seen.marked));
    let left = figures_of(seen.left);
    let right = figures_of(seen.right);
    let guess = count_guess(known, left, right);
    let (lo, hi) = counts_seen(seen);
    Outcome::Estimate {
        lo: i128::from(lo),
        guess,
        hi: i128::from(hi),
    }
}

// What their sum is, and the likeliest one.
fn sum_guessed(seen: Seen) -> Outcome
    requires { IsFewMarked seen.marked }
    ensures { result ≡ outcome_seen Kind.SumGuess seen }
{
    let known = known_sum(seen.whole, seen.marked);
    let left = figures_of(seen.left);
    let right = figures_of(seen.right);
    let guess = sum_guess(known, left, right);
    let (lo, hi) = sums_seen(seen);
    Outcome::Estimate { lo, guess, hi }
}

// What the least of them is.
fn least_seen(seen: Seen) -> Outcome
    ensures { result ≡ outcome_seen Kind.Min seen }
{
    let whole = match seen.whole {
        None => None,
        Some(summary) => Some(summary.min),
    };
    let left = figures_of(seen.left);
    let right = figures_of(seen.right);
    Outcome::Min(min_bounds(lesser(whole, seen.marked.least), left, right))
}

// What the greatest of them is.
fn greatest_seen(seen: Seen) -> Outcome
    ensures { result ≡ outcome_seen Kind.Max seen }
{
    let whole = match seen.whole {
        None => None,
        Some(summary) => Some(summary.max),
    };
    let left = figures_of(seen.left);
    let right = figures_of(seen.right);
    Outcome::Max(max_bounds(greater(whole, seen.marked.greatest), left, right))
}

/// What is answered from what is known.
pub fn outcome_seen(seen: Seen, kind: Kind) -> Outcome
    requires { IsFewMarked seen.marked }
    ensures { result ≡ outcome_seen kind seen }
{
    match kind {
        Kind::Count => count_seen(seen),
        Kind::Sum => sum_seen(seen),
        Kind::Min => least_seen(seen),
        Kind::Max => greatest_seen(seen),
        Kind::Mean => mean_seen(seen),
        Kind::Has { .. } => Outcome::Has(seen.presence),
        Kind::CountGuess => count_guessed(seen),
        Kind::SumGuess => sum_guessed(seen),
        Kind::MeanGuess => mean_guessed(seen),
    }
}
