// Summaries of timestamped values.
use crate::Filter;
use crate::filter::words_fit;
use crate::possible::{has_bits, has_sum, has_times};
use ss_base::{LAST_TIME, MOST_VALUES};
use std::marker::Model;

/// Figures such as one or more values with rising times have. Times and values are whole numbers, and the sum never wraps.
/// Every `Summary` meets the conditions of possible figures, `IsPossible` (docs/DEFINITIONS.md, "Possible summaries"): at
/// least one value and at most 2^40, no more of them than times from the first to the last, no time above 2^62, a sum
/// that this count allows between the least and the greatest, and a filter that has the bits of these two. Which values it
/// is of, only contracts say, as those of `one` and `join`.
#[derive(Clone, Copy, Debug)]
pub struct Summary {
    pub count: u64,
    pub sum: i128,
    pub min: i64,
    pub max: i64,
    pub t_first: u64,
    pub t_last: u64,
    pub filter: Filter,
}

impl Model for Summary {
    ghost use Rattle.ss_summary.specs.Figures.{Figures, IsPossible};

    ghost Value = { Figures };

    ghost view = { λ s. record {
      count = s.count;
      sum = s.sum;
      min = s.min;
      max = s.max;
      t_first = s.t_first;
      t_last = s.t_last;
      filter = s.filter;
    } };

    ghost invariant = { λ s. IsPossible (record {
      count = s.count;
      sum = s.sum;
      min = s.min;
      max = s.max;
      t_first = s.t_first;
      t_last = s.t_last;
      filter = s.filter;
    }) };

    ghost inverse = { λ f. record {
      count = f.count;
      sum = f.sum;
      min = f.min;
      max = f.max;
      t_first = f.t_first;
      t_last = f.t_last;
      filter = f.filter;
    } };
}

impl Summary {
    ghost use Rattle.std.specs.Prelude.{◌≡◌, ◌↔◌, ◌+◌, ◌<◌, ◌≤◌, ℕ, ℤ, List, [], ◌∷◌, ◌++◌, IsSome, IfSome};
    ghost use Rattle.ss_summary.specs.Figures.{Figures, IsPossible};
    ghost use Rattle.ss_summary.specs.Points.{Point, New};
    ghost use Rattle.ss_summary.specs.Summaries.{summary_of, Summarizes, joined};

    /// The summary of the value `v` at the time `t`.
    pub fn one(t: u64, v: i64) -> Summary
        requires { t ≤ LAST_TIME }
        ensures { result ≡ summary_of ((t, v, New) ∷ []) }
    {
        Summary {
            count: 1,
            sum: i128::from(v),
            min: v,
            max: v,
            t_first: t,
            t_last: t,
            filter: Filter::of(v),
        }
    }

    /// The summary of the values of both, where all of the second's times are greater.
    pub fn join(a: Summary, b: Summary) -> Summary
        requires later { a.t_last < b.t_first }
        requires few { a.count + b.count ≤ MOST_VALUES }
        ensures exact { result ≡ joined a b }
        ensures lists { (xs ys : List Point) → Summarizes a xs → Summarizes b ys
            → Summarizes result (xs ++ ys) }
    {
        Summary {
            count: a.count + b.count,
            sum: a.sum + b.sum,
            min: a.min.min(b.min),
            max: a.max.max(b.max),
            t_first: a.t_first,
            t_last: b.t_last,
            filter: Filter::union(a.filter, b.filter),
        }
    }

    /// The summary that has these figures, if they are possible. No sum is too large to be asked for.
    pub fn of(
        count: u64,
        sum: i128,
        min: i64,
        max: i64,
        t_first: u64,
        t_last: u64,
        filter: Filter,
    ) -> Option<Summary>
        ensures possible { IsSome result
            ↔ IsPossible (record { count = count; sum = sum; min = min; max = max; t_first = t_first; t_last = t_last; filter = filter }) }
        ensures figures { IfSome result (λ summary. summary
            ≡ record { count = count; sum = sum; min = min; max = max; t_first = t_first; t_last = t_last; filter = filter }) }
    {
        if !has_times(count, t_first, t_last)
            || !has_sum(count, sum, min, max)
            || !has_bits(filter, min, max)
        {
            return None;
        }
        words_fit(filter);
        Some(Summary {
            count,
            sum,
            min,
            max,
            t_first,
            t_last,
            filter,
        })
    }
}
