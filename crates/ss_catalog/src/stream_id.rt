// The number of a stream.

/// The number of a stream, from 0. A new stream has 0 where none stands, and else one more than the greatest that stands.
#[derive(Clone, Copy, Debug, PartialEq, Eq)]
pub struct StreamId(pub u32);
