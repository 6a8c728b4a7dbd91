// A window that the range of a query splits.
use ss_bounds::Split;

/// A window that a range of times splits: the positions of its first and last value, counted from 1, and what is known of
/// how its values lie in the range.
#[derive(Clone, Copy, Debug)]
pub struct Cut {
    pub first: u64,
    pub last: u64,
    pub split: Split,
}
