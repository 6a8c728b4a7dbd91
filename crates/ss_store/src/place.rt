// Where a stream stands among those of rising numbers.
ghost use Rattle.std.specs.Prelude.{◌≡◌, ◌<◌, ◌↔◌, length, slice_get, IsTrue, IsNone, IsSome, IfSome};
ghost use Rattle.std.specs.List.Sorted.{IsStrictlyIncreasing};
ghost use Rattle.ss_model.specs.State.{next_number};
ghost use Rattle.ss_model.specs.Refusals.{has_all_streams};
ghost use Rattle.ss_stream.specs.Held.{held_parts};
ghost use Rattle.ss_store.specs.Kept.{numbers_held, part_numbered};

use ss_catalog::{LAST_STREAM, MOST_STREAMS, StreamId};
use ss_parts::number_of;
use ss_stream::HeldStream;

// The place of the stream of a number, from 0: by halves, since numbers rise in order of creation.
pub fn place_of(streams: &[HeldStream], id: StreamId) -> usize
    requires rising { IsStrictlyIncreasing (numbers_held (held_parts streams.now)) }
    requires stands { IsSome (part_numbered id.0 (held_parts streams.now)) }
    ensures inside { result < length streams.now }
    ensures at { slice_get (held_parts streams.now) result ≡ part_numbered id.0 (held_parts streams.now) }
{
    let mut low = 0;
    let mut high = streams.len();
    while 1 < high - low {
        let middle = low + (high - low) / 2;
        if number_of(&streams[middle].part) <= id.0 {
            low = middle;
        } else {
            high = middle;
        }
    }
    low
}

// The number of a new stream, if there is a place and a number for one.
pub fn next_id(streams: &[HeldStream]) -> Option<StreamId>
    requires { IsStrictlyIncreasing (numbers_held (held_parts streams.now)) }
    ensures none { IsNone result ↔ IsTrue (has_all_streams (numbers_held (held_parts streams.now))) }
    ensures value { IfSome result (λ id. id.0 ≡ next_number (numbers_held (held_parts streams.now))) }
{
    if streams.len() >= MOST_STREAMS as usize {
        return None;
    }
    match streams.last() {
        None => Some(StreamId(0)),
        Some(last) => {
            let number = number_of(&last.part);
            if number == LAST_STREAM {
                None
            } else {
                Some(StreamId(number + 1))
            }
        }
    }
}
