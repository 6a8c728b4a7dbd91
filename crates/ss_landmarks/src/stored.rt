// How landmarks and their values are held. Times are whole numbers in the caller's unit.

// A landmark that is closed, the slot of its record, how many values it has, and how many times before it are free.
#[derive(Clone, Copy, Debug)]
pub struct Closed {
    pub start: u64,
    pub finish: u64,
    pub slot: u32,
    pub values: usize,
    pub free_before: u64,
}

// The landmark that is open, the slot of its record, how many values the landmarks before it have, and how many times
// before it are free.
#[derive(Clone, Copy, Debug)]
pub struct Opened {
    pub start: u64,
    pub slot: u32,
    pub values_before: usize,
    pub free_before: u64,
}

// A value of a landmark, and the slot of its record.
#[derive(Clone, Copy, Debug)]
pub struct StoredValue {
    pub t: u64,
    pub v: i64,
    pub slot: u32,
}
