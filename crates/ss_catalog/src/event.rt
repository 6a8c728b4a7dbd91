// What changes a store.
use crate::{Name, Params};

/// What a stream is asked to take. Times are whole numbers up to `LAST_TIME`, in a unit of the caller's.
/// docs/DEFINITIONS.md ("Histories") says which events a store accepts.
#[derive(Clone, Copy, Debug, PartialEq, Eq)]
pub enum Event {
    /// A new stream.
    Create { name: Name, params: Params },
    /// A value of a stream at a time.
    Value { name: Name, t: u64, v: i64 },
    /// A landmark of a stream opens: the values from here on are kept one by one.
    Open { name: Name, t: u64 },
    /// The open landmark of a stream closes.
    Close { name: Name, t: u64 },
    /// A stream is dropped with all that it holds.
    Drop { name: Name },
}
