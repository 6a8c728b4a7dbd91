// The streams that were read.
use ss_parts::StreamParts;

/// The streams that stand, in the order of their numbers, and the slots of all records of dropped streams: first those of
/// windows, of landmarks and of their values, rising, and then those of the streams themselves, rising.
#[derive(Drop)]
pub struct Parts {
    pub streams: Vec<StreamParts>,
    pub doomed: Vec<u32>,
}
