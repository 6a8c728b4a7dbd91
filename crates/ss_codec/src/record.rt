// What a slot may hold.
use ss_catalog::{Name, Params};
use ss_summary::Summary;

// The first byte of a record says its kind. In a free slot it is 0.
pub const STREAM: u8 = 1;

pub const WINDOW: u8 = 2;

pub const LANDMARK: u8 = 3;

pub const VALUE: u8 = 4;

// The second byte of a stream's record says the family of its target.
pub const EXPONENTIAL: u8 = 1;

pub const POWER_LAW: u8 = 2;

// The fourth byte of a stream's record says whether the stream stands or was dropped.
pub const STANDING: u8 = 0;

pub const DROPPED: u8 = 1;

// The second byte of a window's record says whether its filter has all bits or is spelled by its words.
pub const ALL_BITS: u8 = 0;

pub const BY_WORDS: u8 = 1;

// The second byte of a landmark's record says whether it is open or closed.
pub const OPEN: u8 = 1;

pub const CLOSED: u8 = 2;

// Where the name of a stream begins.
pub const NAME: usize = 24;

// Where the step of a stream's windows stands, behind the longest name.
pub const STEP: usize = 56;

/// What the bytes of a slot say. docs/FORMAT.md ("Records") has the places of the fields.
#[derive(Clone, Copy, Debug)]
pub enum Record {
    /// Nothing.
    Free,
    /// A stream: its number, its name, the parameters of its target, and whether it was dropped.
    Stream {
        id: u32,
        name: Name,
        params: Params,
        dropped: bool,
    },
    /// A window of a stream: the stream's number, the position of the window's first value, and the summary of all its
    /// values. Positions count the stream's values from 1.
    Window {
        id: u32,
        first: u64,
        summary: Summary,
    },
    /// A landmark of a stream: the stream's number, the landmark's number, how many values it has, 0 as long as it is open,
    /// when it opens, and when it closes if it is closed. Numbers count the stream's landmarks from 1.
    Landmark {
        id: u32,
        number: u32,
        values: u32,
        start: u64,
        finish: Option<u64>,
    },
    /// A value of a landmark: the stream's number, the landmark's number, the value's index, its time, and what it is.
    /// Indexes count the landmark's values from 1.
    Value {
        id: u32,
        number: u32,
        index: u32,
        t: u64,
        v: i64,
    },
}
