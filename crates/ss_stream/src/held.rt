// One stream of a store.
use ss_line::At;
use ss_parts::StreamParts;
use ss_schedule::Index;

/// A stream as the store holds it: what its records say, and when its windows are joined and where they stand by time.
#[derive(Drop)]
pub struct HeldStream {
    pub part: StreamParts,
    pub index: Index,
}

impl HeldStream {
    ghost use Rattle.ss_parts.specs.Held.{RiseToLast};
    ghost use Rattle.ss_parts.specs.Places.{BeginsAt, BeginsNear};
    ghost use Rattle.ss_stream.specs.Indexed.{IsTimed};

    /// Where a walk over the windows begins that looks for times from one on: at the last window that begins then or before, or
    /// else at the first one. It takes a number of steps that grows as the logarithm of how many windows there are.
    pub fn start(&self, from: u64) -> Option<At>
        requires timed { IsTimed self.now.part.line.entries self.now.index.times }
        requires times { RiseToLast self.now.part }
        ensures begins { BeginsAt self.now.part.line.entries from result }
        // Of the windows from there on only the first one may begin by that time.
        ensures near { BeginsNear self.now.part.line.entries from result }
    {
        match self.index.times.seek(from) {
            Some(at) => Some(at),
            None => self.part.line.first(),
        }
    }
}
