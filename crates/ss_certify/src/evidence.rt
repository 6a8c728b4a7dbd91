// Why an end of an answer can't be narrower, filters aside.
use arrayvec::ArrayVec;
use ss_bounds::{Fraction, Split};
use ss_model::Run;

/// What a window that the range splits may hold: the positions of its first and last value, its figures, how many of its
/// values lie in the range, and these values and the others, each from the least to the greatest.
#[derive(Debug, Drop)]
pub struct Cert {
    pub first: u64,
    pub last: u64,
    pub split: Split,
    pub x: u64,
    pub inside: ArrayVec<Run, 3>,
    pub outside: ArrayVec<Run, 3>,
}

/// What is answered of the values in a range: one number or, where no value lies there, that there is no mean.
#[derive(Clone, Copy, Debug, PartialEq, Eq)]
pub enum Answer {
    /// How many they are.
    Count(u64),
    /// Their sum.
    Sum(i128),
    /// Their mean, in lowest terms, if there is any value.
    Mean(Option<Fraction>),
}

/// An end of an answer, the sum and the count of what is known without the windows that the range splits, and what these may
/// hold, oldest first.
#[derive(Debug, Drop)]
pub struct Evidence {
    pub answer: Answer,
    pub known: Fraction,
    pub certs: ArrayVec<Cert, 2>,
}

// A window of two values 0 without times between them, neither of which is in the range.
impl Default for Cert {
    ghost use Rattle.std.specs.Prelude.{◌≡◌, pos, []};

    ghost is_default = { λ cert. cert ≡ record {
      first = 0;
      last = 0;
      split = record { count = 2; sum = pos 0; min = pos 0; max = pos 0; ends = 0; inside = 0; outside = 0 };
      x = 0;
      inside = record { items = [] };
      outside = record { items = [] };
    } };

    fn default() -> Cert {
        Cert {
            first: 0,
            last: 0,
            split: Split {
                count: 2,
                sum: 0,
                min: 0,
                max: 0,
                ends: 0,
                inside: 0,
                outside: 0,
            },
            x: 0,
            inside: ArrayVec::new(),
            outside: ArrayVec::new(),
        }
    }
}
