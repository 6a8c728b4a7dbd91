// What a store has: its streams, and the windows of each.
use super::Store;
use ss_base::Steps;
use ss_catalog::{Name, StreamId};
use ss_line::At;
use ss_model::StreamRow;
use ss_stream::values_held;
use std::marker::Brand;
use std::sync::ledger::{Blank, Ledger};

impl Store {
    ghost use Rattle.std.specs.Prelude.{◌≡◌, ◌+◌, ◌<◌, List, length, map, slice_get, option_map, Some, IsSome, IfSome};
    ghost use Rattle.ss_line.specs.Line.{StandsIn, index_of, place_at};
    ghost use Rattle.ss_model.specs.Shown.{row_of};
    ghost use Rattle.ss_model.specs.Standing.{IsState};
    ghost use Rattle.ss_model.specs.State.{Stream};
    ghost use Rattle.ss_parts.specs.Held.{AllAgree};
    ghost use Rattle.ss_store.specs.Kept.{part_named, part_numbered, row_of_held};
    ghost use Rattle.ss_base.specs.Steps.{IsFresh};

    /// How many streams stand.
    pub fn streams(&self) -> u32
        ensures { result ≡ length self.now.streams }
    {
        self.catalog.len()
    }

    /// The number of the stream of a name, if it stands.
    pub fn find(&self, name: &Name) -> Option<StreamId>
        ensures number { result ≡ option_map (λ part. part.id) (part_named name.now self.now.streams) }
        ensures same { IfSome result (λ id. part_numbered id.0 self.now.streams ≡ part_named name.now self.now.streams) }
        ensures stands { IfSome result (λ id. IsSome (part_numbered id.0 self.now.streams)) }
    {
        self.catalog.find(name)
    }

    /// The stream at a place, from 0 in order of creation, as it is listed.
    pub fn stream(&self, place: u32) -> StreamRow
        requires { place < length self.now.streams }
        ensures held { option_map row_of_held (slice_get self.now.streams place) ≡ Some result }
        ensures row { (streams : List Stream) → IsState streams → AllAgree self.now.streams streams →
            slice_get (map row_of streams) place ≡ Some result }
    {
        self.stream_in::<Brand>(place, Blank::new(1))
    }

    // The same, with a counter.
    fn stream_in<L: Ledger>(&self, place: u32, blank: Blank) -> StreamRow
        requires fresh { IsFresh L.name L.parts blank }
        requires place { place < length self.now.streams }
        ensures held { option_map row_of_held (slice_get self.now.streams place) ≡ Some result }
        ensures row { (streams : List Stream) → IsState streams → AllAgree self.now.streams streams →
            slice_get (map row_of streams) place ≡ Some result }
    {
        let stream = &self.streams[place as usize].part;
        StreamRow {
            id: stream.id,
            name: stream.name,
            params: stream.target.params(),
            n: values_held(stream, &mut Steps::<L>::new(blank)),
            k: stream.line.len(),
            landmarks: stream.landmarks.count(),
            values: stream.landmarks.values(),
        }
    }

    /// How many windows the stream of a number has.
    pub fn windows(&self, id: StreamId) -> u32
        requires { IsSome (part_numbered id.0 self.now.streams) }
        ensures { IfSome (part_numbered id.0 self.now.streams) (λ part. result ≡ length part.line.entries) }
    {
        self.part(id).line.len()
    }

    /// The oldest window of the stream of a number, if it has one.
    pub fn window_first(&self, id: StreamId) -> Option<At>
        requires { IsSome (part_numbered id.0 self.now.streams) }
        ensures at { IfSome (part_numbered id.0 self.now.streams) (λ part. result ≡ place_at part.line.entries 0) }
        ensures stands { IfSome (part_numbered id.0 self.now.streams) (λ part. IfSome result (StandsIn part.line.entries)) }
        ensures index { IfSome (part_numbered id.0 self.now.streams) (λ part.
            IfSome result (λ at. index_of part.line.entries at ≡ 0)) }
    {
        self.part(id).line.first()
    }

    /// The window after one of the stream of a number, if there is one.
    pub fn window_after(&self, id: StreamId, at: At) -> Option<At>
        requires stands { IsSome (part_numbered id.0 self.now.streams) }
        requires at { IfSome (part_numbered id.0 self.now.streams) (λ part. StandsIn part.line.entries at) }
        ensures at { IfSome (part_numbered id.0 self.now.streams) (λ part.
            result ≡ place_at part.line.entries (index_of part.line.entries at + 1)) }
        ensures stands { IfSome (part_numbered id.0 self.now.streams) (λ part. IfSome result (StandsIn part.line.entries)) }
        ensures index { IfSome (part_numbered id.0 self.now.streams) (λ part.
            IfSome result (λ after. index_of part.line.entries after ≡ index_of part.line.entries at + 1)) }
    {
        self.after_in::<Brand>(id, at, Blank::new(1))
    }

    // The same, with a counter.
    fn after_in<L: Ledger>(&self, id: StreamId, at: At, blank: Blank) -> Option<At>
        requires fresh { IsFresh L.name L.parts blank }
        requires stands { IsSome (part_numbered id.0 self.now.streams) }
        requires at { IfSome (part_numbered id.0 self.now.streams) (λ part. StandsIn part.line.entries at) }
        ensures at { IfSome (part_numbered id.0 self.now.streams) (λ part.
            result ≡ place_at part.line.entries (index_of part.line.entries at + 1)) }
        ensures stands { IfSome (part_numbered id.0 self.now.streams) (λ part. IfSome result (StandsIn part.line.entries)) }
        ensures index { IfSome (part_numbered id.0 self.now.streams) (λ part.
            IfSome result (λ after. index_of part.line.entries after ≡ index_of part.line.entries at + 1)) }
    {
        let line = &self.part(id).line;
        // Asked for the proof alone: with its length comes what holds of each line.
        let _len = line.len();
        line.neighbours(at, &mut Steps::<L>::new(blank)).1
    }
}
