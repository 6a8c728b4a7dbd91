// What is answered to a query.
use ss_bounds::{Extreme, Mean, MeanGuess};

/// What is known of whether a value is among those asked for.
#[derive(Clone, Copy, Debug, PartialEq, Eq)]
pub enum Presence {
    /// It isn't.
    Absent,
    /// It is.
    Present,
    /// It may be.
    Maybe,
}

/// The answer to a query: an interval that holds the truth, over all values of the stream in the range, or, of one value, what
/// is known of whether it is one of these.
/// docs/DEFINITIONS.md ("Queries: the truth and the answer") says which one.
#[derive(Clone, Copy, Debug, PartialEq, Eq)]
pub enum Outcome {
    /// From `lo` to `hi` values.
    Count { lo: u64, hi: u64 },
    /// A sum from `lo` to `hi`.
    Sum { lo: i128, hi: i128 },
    /// What is known of the least value.
    Min(Extreme),
    /// What is known of the greatest value.
    Max(Extreme),
    /// What is known of the mean.
    Mean(Mean),
    /// What is known of whether a value is there.
    Has(Presence),
    /// A count or a sum from `lo` to `hi`, and the likeliest one.
    Estimate { lo: i128, guess: i128, hi: i128 },
    /// What is known of the mean, and the likeliest one.
    MeanEstimate(MeanGuess),
}
