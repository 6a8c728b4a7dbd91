// The interval of a least or a greatest value.

/// What is known of the least or the greatest value in a range.
#[derive(Clone, Copy, Debug, PartialEq, Eq)]
pub enum Extreme {
    /// No value lies in the range.
    Nothing,
    /// Some value lies there, and the one asked for is at least `lo` and at most `hi`.
    Sure { lo: i64, hi: i64 },
    /// No value lies there, or the one asked for is at least `lo` and at most `hi`.
    Maybe { lo: i64, hi: i64 },
}
