// Memory that devices take ahead.

/// The most calls, and the most bytes, for which a device in memory takes memory ahead.
pub const MOST_SPARE: u64 = 1 << 32;
