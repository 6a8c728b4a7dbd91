// The values that the definitions and the crates above share.
use ss_catalog::{Name, Params, StreamId};
use ss_summary::Summary;

/// A store holds at most this many records: one for each stream, each window, each landmark and each
/// value of a landmark.
pub const MOST_RECORDS: u32 = 1 << 20;

/// Values that stand together: the position of the first, counted from 1, and their summary.
#[derive(Clone, Copy, Debug)]
pub struct Window {
    pub first: u64,
    pub summary: Summary,
}

/// What an accepted event answers of its stream: how many values it has outside landmarks, and how many windows stand.
#[derive(Clone, Copy, Debug, PartialEq, Eq)]
pub struct Ack {
    pub n: u64,
    pub k: u32,
}

/// A stream as `list` shows it: its number, name and parameters, how many values it has outside landmarks, how many
/// windows hold them, how many landmarks it has and how many values these hold.
#[derive(Clone, Copy, Debug)]
pub struct StreamRow {
    pub id: StreamId,
    pub name: Name,
    pub params: Params,
    pub n: u64,
    pub k: u32,
    pub landmarks: u32,
    pub values: u32,
}

/// A window as it is read: the positions of its first and last value, counted from 1, and its summary.
#[derive(Clone, Copy, Debug)]
pub struct Placed {
    pub first: u64,
    pub last: u64,
    pub summary: Summary,
}

/// Values that are equal: the value, and how many of it.
#[derive(Clone, Copy, Debug, Default, PartialEq, Eq)]
pub struct Run {
    pub value: i64,
    pub times: u64,
}
