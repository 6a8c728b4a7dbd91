// What stands in a line, and where.

/// A place in a line. It is good from the `push` that gives it to the `cut_out` that takes it, whatever else comes and
/// goes. Then it may be given again.
#[derive(Clone, Copy, Debug, PartialEq, Eq)]
pub struct At(pub u32);

/// A window of a stream: the positions of its first and its last value, counted from 1, the times of these two, and the slot
/// of its record.
#[derive(Clone, Copy, Debug, PartialEq, Eq)]
pub struct Entry {
    pub first: u64,
    pub last: u64,
    pub t_first: u64,
    pub t_last: u64,
    pub slot: u32,
}
