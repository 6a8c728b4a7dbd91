// A window that a range splits.
use std::marker::Model;

/// A window with a value in a range and one outside it: the count, sum, least and greatest of all its values; `ends`, how
/// many of its first and last time lie in the range; `inside` and `outside`, how many times strictly between those two lie
/// in the range and outside it, where only times count that no landmark covers.
/// Every `Split` meets the conditions of `IsSplit` (docs/DEFINITIONS.md, "Split windows").
#[derive(Clone, Copy, Debug)]
pub struct Split {
    pub count: u64,
    pub sum: i128,
    pub min: i64,
    pub max: i64,
    pub ends: u64,
    pub inside: u64,
    pub outside: u64,
}

impl Model for Split {
    ghost use Rattle.ss_bounds.specs.Split.{SplitFigures, IsSplit};

    ghost Value = { SplitFigures };

    ghost view = { λ s. record {
      count = s.count;
      sum = s.sum;
      min = s.min;
      max = s.max;
      ends = s.ends;
      inside = s.inside;
      outside = s.outside;
    } };

    ghost invariant = { λ s. IsSplit (record {
      count = s.count;
      sum = s.sum;
      min = s.min;
      max = s.max;
      ends = s.ends;
      inside = s.inside;
      outside = s.outside;
    }) };

    ghost inverse = { λ f. record {
      count = f.count;
      sum = f.sum;
      min = f.min;
      max = f.max;
      ends = f.ends;
      inside = f.inside;
      outside = f.outside;
    } };
}
