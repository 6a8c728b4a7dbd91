// What is answered of the mean of the values in a range, from what is known.
ghost use Rattle.std.specs.Prelude.{◌≡◌, ◌^◌, ◌≤◌};
ghost use Rattle.ss_base.specs.Near.{IsNear};
ghost use Rattle.ss_query.specs.Asked.{IsFewMarked, outcome_seen, values_seen};

use crate::answering::{figures_of, known_count, known_sum};
use crate::asking::Seen;
use ss_bounds::{Fraction, mean_bounds, mean_guess};
use ss_catalog::Kind;
use ss_model::Outcome;

// The sum and the count of what is known.
fn values_seen(seen: Seen) -> Fraction
    requires { IsFewMarked seen.marked }
    ensures value { result ≡ values_seen seen }
    ensures near { IsNear result.over }
    ensures few { result.under ≤ 2 ^ 62 }
{
    Fraction {
        over: known_sum(seen.whole, seen.marked),
        under: known_count(seen.whole, seen.marked),
    }
}

// What their mean is.
pub fn mean_seen(seen: Seen) -> Outcome
    requires { IsFewMarked seen.marked }
    ensures { result ≡ outcome_seen Kind.Mean seen }
{
    let left = figures_of(seen.left);
    let right = figures_of(seen.right);
    let known = values_seen(seen);
    Outcome::Mean(mean_bounds(known, left, right))
}

// What it is, and the likeliest one.
pub fn mean_guessed(seen: Seen) -> Outcome
    requires { IsFewMarked seen.marked }
    ensures { result ≡ outcome_seen Kind.MeanGuess seen }
{
    let left = figures_of(seen.left);
    let right = figures_of(seen.right);
    let known = values_seen(seen);
    Outcome::MeanEstimate(mean_guess(known, left, right))
}
