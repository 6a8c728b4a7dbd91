// What is asked of a stream step by step.
ghost use Rattle.std.specs.Prelude.{◌≡◌, ◌<◌, ◌≤◌};
ghost use Rattle.ss_catalog.specs.Series.{IsSeriesInRange, row_count, row_query, rows_in};

use crate::{Kind, Name, Query};
use ss_base::LAST_TIME;

/// A query for the values of a stream whose times are `from` at the least and `to` at the most, in rows: each is about
/// `step` times, one row after the other, and the last one about those that are left.
/// docs/DEFINITIONS.md ("Series") says which times these are.
#[derive(Clone, Copy, Debug, PartialEq, Eq)]
pub struct Series {
    pub name: Name,
    pub kind: Kind,
    pub from: u64,
    pub to: u64,
    pub step: u64,
}

/// How many rows the range `from..=to` has, with `step` times in each but the last.
pub fn rows_in(from: u64, to: u64, step: u64) -> u64
    requires to { to ≤ LAST_TIME }
    requires some { 0 < step }
    ensures { result ≡ rows_in from to step }
{
    if to < from {
        return 0;
    }
    (to - from) / step + 1
}

impl Series {
    /// How many rows it has: none where its range ends before it begins.
    pub fn rows(&self) -> u32
        requires { IsSeriesInRange self.now }
        ensures { result ≡ row_count self.now }
    {
        rows_in(self.from, self.to, self.step) as u32
    }

    /// The query of a row, counted from 0.
    pub fn row(&self, row: u32) -> Query
        requires series { IsSeriesInRange self.now }
        requires row { row < row_count self.now }
        ensures { result ≡ row_query self.now row }
    {
        let from = self.from + u64::from(row) * self.step;
        let last = from + (self.step - 1);
        Query {
            name: self.name,
            kind: self.kind,
            from,
            to: last.min(self.to),
        }
    }
}
