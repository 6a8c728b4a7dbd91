// Numbers that are rules of more than one crate.

/// The most values that a stream takes outside landmarks, and so the most that a window holds.
pub const MOST_VALUES: u64 = 1 << 40;

/// A time is a whole number up to this one, in a unit of the caller's.
pub const LAST_TIME: u64 = 1 << 62;

/// A slot of the store has this many bytes, and so has a record.
pub const SLOT_SIZE: usize = 128;

/// How many sessions an input can speak for.
pub const MOST_SESSIONS: u8 = 8;
