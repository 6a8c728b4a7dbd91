// The store of all streams.
mod append;
mod apply;
mod ask;
mod create;
mod drop;
mod events;
mod list;
mod mark;
mod newest;
mod open;
mod read;
mod see;
mod times;
mod values;

use crate::place::place_of;
use ss_catalog::{Catalog, StreamId};
use ss_parts::StreamParts;
use ss_records::Records;
use ss_stream::HeldStream;
use std::marker::Model;
pub use values::ValueRange;

/// Named streams on a disk that the store doesn't hold: each call takes the disk, as the last such call left it. In memory it
/// keeps of each stream what its record says, of each window the positions, the times and the slot, and of each two neighbouring
/// windows when they may first be one. docs/DEFINITIONS.md has what a content stands for, and which
/// events are refused. After a call that answers `Disk` or `Changed` the store has stopped.
#[derive(Drop)]
pub struct Store {
    streams: Vec<HeldStream>,
    catalog: Catalog,
    records: Records,
    stopped: bool,
}

impl Model for Store {
    ghost use Rattle.std.specs.Prelude.{◌≡◌, false, All};
    ghost use Rattle.ss_stream.specs.Held.{held_parts};
    ghost use Rattle.ss_stream.specs.Indexed.{IsScheduled};
    ghost use Rattle.ss_store.specs.Kept.{IsSound, StoreState};

    ghost Value = { StoreState };

    ghost view = { λ s. record { streams = held_parts s.streams.items; records = s.records; stopped = s.stopped } };

    ghost invariant = { λ s.
        IsSound (record { streams = held_parts s.streams.items; records = s.records; stopped = s.stopped }) s.catalog
        × (s.stopped ≡ false → All IsScheduled s.streams.items) };
}

impl Store {
    ghost use Rattle.std.specs.Prelude.{◌≡◌, ◌≤◌, ◌<◌, ◌↔◌, false, length, slice_get, Some, IsTrue, IsNone, IsSome, IfSome};
    ghost use Rattle.ss_records.specs.Live.{lowest_free};
    ghost use Rattle.ss_model.specs.Refusals.{has_all_records};
    ghost use Rattle.ss_store.specs.Kept.{live_held, part_numbered};

    // The slot for one more record, if there is one.
    fn free_slot(&self) -> Option<u32>
        requires { self.now.stopped ≡ false }
        ensures least { result ≡ lowest_free self.now.records.live }
        ensures full { IsNone result ↔ IsTrue (has_all_records (live_held self.now.streams)) }
        ensures low { IfSome result (λ slot. slot ≤ live_held self.now.streams) }
    {
        // Asked for the proof alone: with the slots that are live comes what holds of all records.
        let _live = self.records.live();
        self.records.lowest_free()
    }

    // The place of the stream of a number, from 0.
    fn place(&self, id: StreamId) -> usize
        requires { IsSome (part_numbered id.0 self.now.streams) }
        ensures inside { result < length self.now.streams }
        ensures at { slice_get self.now.streams result ≡ part_numbered id.0 self.now.streams }
    {
        place_of(&self.streams, id)
    }

    // What the records of the stream of a number say.
    fn part(&self, id: StreamId) -> &StreamParts
        requires { IsSome (part_numbered id.0 self.now.streams) }
        ensures { part_numbered id.0 self.now.streams ≡ Some result.now }
    {
        let place = self.place(id);
        &self.streams[place].part
    }
}
