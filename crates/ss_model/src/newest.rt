// What is known of the newest value of a stream.

/// What is known of a value: its time, and from which to which it lies.
#[derive(Clone, Copy, Debug, PartialEq, Eq)]
pub struct Known {
    pub at: u64,
    pub lo: i64,
    pub hi: i64,
}

/// How far a stream has come, and what is known of its newest value. Times are those of events.
/// docs/DEFINITIONS.md ("The newest value, and values kept exactly") says which one.
#[derive(Clone, Copy, Debug, PartialEq, Eq)]
pub enum Newest {
    /// Nothing has happened in it since its `create`.
    Nothing,
    /// It has a last time, and took no value.
    Time(u64),
    /// Its last time, the time of its newest value, and from which to which this value lies.
    Value {
        last: u64,
        at: u64,
        lo: i64,
        hi: i64,
    },
}
