// Records as they are read from slots.
use ss_codec::Record;

/// A record, and the slot where it lies.
#[derive(Clone, Copy, Debug)]
pub struct Found {
    pub slot: u32,
    pub holds: Record,
}
