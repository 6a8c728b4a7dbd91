// Where a journal stands.

// What may be done with a journal.
#[derive(Clone, Copy, Debug, PartialEq, Eq)]
pub enum Phase {
    // The file isn't formatted.
    Unborn,
    // The file is formatted, and its gates may be open.
    Born,
    // The file is formatted, and the gate after the entries in use is closed. Later ones may be open.
    Settled,
    // A call has failed. There is no further call.
    Stopped,
}
