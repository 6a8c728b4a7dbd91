// The likeliest mean of the values in a range.
ghost use Rattle.std.specs.Prelude.{◌≡◌, ◌^◌, ◌<◌, ◌≤◌, pos, IfSome};
ghost use Rattle.ss_base.specs.Near.{IsNear};
ghost use Rattle.ss_bounds.specs.Extremes.{listed};
ghost use Rattle.ss_bounds.specs.Split.{IsSplit};
ghost use Rattle.ss_bounds.specs.MeanGuess.{brought, mean_guess, quotient_guess};

use crate::fraction::{Fraction, at_most};
use crate::guess::{count_guess, sum_guess};
use crate::lowest::lowest;
use crate::mean::{Mean, MeanGuess};
use crate::means::mean_bounds;
use crate::split::Split;

/// The same as `mean_bounds` with the likeliest mean: the guess of the sum over the guess of the count, brought between the ends.
pub fn mean_guess(known: Fraction, left: Option<Split>, right: Option<Split>) -> MeanGuess
    requires near { IsNear known.over }
    requires few { known.under ≤ 2 ^ 62 }
    ensures { result ≡ mean_guess known (listed left right) }
{
    let guess = lowest(quotient_guess(known, &left, &right));
    match mean_bounds(known, left, right) {
        Mean::Nothing => MeanGuess::Nothing,
        Mean::Sure { lo, hi } => MeanGuess::Sure {
            lo,
            guess: brought(lo, hi, guess),
            hi,
        },
        Mean::Maybe { lo, hi } => MeanGuess::Maybe {
            lo,
            guess: brought(lo, hi, guess),
            hi,
        },
    }
}

// The guess of the sum over the guess of the count, from 1 on.
fn quotient_guess(known: Fraction, left: &Option<Split>, right: &Option<Split>) -> Fraction
    requires near { IsNear known.over }
    requires few { known.under ≤ 2 ^ 62 }
    ensures value { result ≡ quotient_guess known (listed left.now right.now) }
    ensures some { 0 < result.under }
{
    look(left);
    look(right);
    let count = count_guess(i128::from(known.under), *left, *right);
    Fraction {
        over: sum_guess(known.over, *left, *right),
        under: (count as u64).max(1),
    }
}

// Says for the proof alone what holds of each split window.
fn look(split: &Option<Split>)
    ensures { IfSome split.now IsSplit }
{
    if let Some(split) = split {
        let _count = split.count;
    }
}

// A fraction brought between two ends.
fn brought(lo: Fraction, hi: Fraction, fraction: Fraction) -> Fraction
    requires low { 0 < lo.under }
    requires high { 0 < hi.under }
    requires some { 0 < fraction.under }
    ensures { result ≡ brought lo hi fraction }
{
    if at_most(fraction, lo) {
        lo
    } else if at_most(hi, fraction) {
        hi
    } else {
        fraction
    }
}
