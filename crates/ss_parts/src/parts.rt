// A stream as it is held in memory.
ghost use Rattle.std.specs.Prelude.{◌≡◌};

use ss_catalog::{Name, StreamId};
use ss_landmarks::Landmarks;
use ss_line::Line;
use ss_targets::Target;

/// A stream as a store holds it: what its record says and in which slot it lies, the greatest time that it has, its windows
/// in order, each as its positions and the slot of its record, and its landmarks with their values and the slot of each record.
#[derive(Drop)]
pub struct StreamParts {
    pub id: StreamId,
    pub name: Name,
    pub target: Target,
    pub slot: u32,
    pub last_time: Option<u64>,
    pub line: Line,
    pub landmarks: Landmarks,
}

/// The number of a stream.
pub fn number_of(stream: &StreamParts) -> u32
    ensures { result ≡ stream.now.id.0 }
{
    stream.id.0
}
