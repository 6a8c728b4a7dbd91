// What C calls. library/c/held.h has it in C's words.
use crate::answer::{Why, series_of};
use crate::handle::Handle;
use crate::image::Next;
use crate::kept::Kept;
use crate::opening::open;
use crate::shapes::{CAck, CInterval, CNewest, CTarget, ack, kind};
use ss_connection::Taken;
use std::alloc::Global;

// A call is done.
const DONE: i32 = 0;

// What a call answers.
fn answer(done: Result<(), Why>) -> i32 {
    match done {
        Ok(()) => DONE,
        Err(why) => why.number(),
    }
}

// The same, with what it found in its place.
fn hand_out<T: Copy>(found: Result<T, Why>, place: &mut T) -> i32 {
    match found {
        Ok(found) => {
            *place = found;
            DONE
        }
        Err(why) => why.number(),
    }
}

// How many values were taken, what the stream has then, and why the next one wasn't.
fn hand_out_taken(found: Taken, taken: &mut usize, acked: &mut CAck) -> i32 {
    *taken = found.count;
    if let Some(last) = found.last {
        *acked = ack(last);
    }
    match found.refusal {
        Some(refusal) => Why::Refused(refusal).number(),
        None => DONE,
    }
}

// The number of what C is to do next, with where and how many bytes.
fn hand_out_next(next: Next, at: &mut u64, count: &mut usize) -> i32 {
    match next {
        Next::Nothing => 0,
        Next::Sync => 1,
        Next::Write {
            at: place,
            count: bytes,
        } => {
            *at = place;
            *count = bytes;
            2
        }
        Next::Room(bytes) => {
            *count = bytes;
            3
        }
    }
}

/// Opens the store of a file that holds these bytes. The handle holds a box then, but where there was no memory or the call can't be meant.
#[unsafe(no_mangle)]
pub extern "C" fn summarystore_held_open(
    alloc: Global,
    content: &[u8],
    flags: u32,
    handle: &mut Handle,
) -> i32 {
    match open(alloc, content, flags) {
        Ok(kept) => {
            let stopped = kept.status();
            *handle = Handle::of(kept);
            stopped
        }
        Err(why) => why.number(),
    }
}

/// Lets the box go, with all that waits.
#[unsafe(no_mangle)]
pub extern "C" fn summarystore_held_free(alloc: Global, handle: &mut Handle) {
    drop(handle.take(alloc));
}

/// Takes what is to be done next to the file: 0 says nothing, 1 a sync, 2 a write of so many bytes, which are in the room, from a place on,
/// and 3 a room of so many bytes.
#[unsafe(no_mangle)]
pub extern "C" fn summarystore_held_take(
    alloc: Global,
    handle: &mut Handle,
    at: &mut u64,
    room: &mut [u8],
    count: &mut usize,
) -> i32 {
    let Some(mut kept) = handle.take(alloc) else {
        return 0;
    };
    let next = kept.take(room);
    *handle = Handle::of(kept);
    hand_out_next(next, at, count)
}

/// Why the connection has stopped, or 0 where it goes on.
#[unsafe(no_mangle)]
pub extern "C" fn summarystore_held_status(alloc: Global, handle: &mut Handle) -> i32 {
    let Some(kept) = handle.take(alloc) else {
        return Why::Misuse.number();
    };
    let status = kept.status();
    *handle = Handle::of(kept);
    status
}

/// Puts what there is to say of it into the room, and answers how many bytes these are.
#[unsafe(no_mangle)]
pub extern "C" fn summarystore_held_message(
    alloc: Global,
    handle: &mut Handle,
    room: &mut [u8],
) -> usize {
    let Some(kept) = handle.take(alloc) else {
        return 0;
    };
    let count = kept.tell(alloc, room);
    *handle = Handle::of(kept);
    count
}

/// Does a line of the grammar, and puts the front of its reply into the room.
#[unsafe(no_mangle)]
pub extern "C" fn summarystore_held_call(
    alloc: Global,
    handle: &mut Handle,
    line: &[u8],
    room: &mut [u8],
    filled: &mut usize,
) -> i32 {
    let Some(mut kept) = handle.take(alloc) else {
        return Why::Misuse.number();
    };
    let called = kept.call(line, room);
    *handle = Handle::of(kept);
    hand_out(called, filled)
}

/// Puts what follows of the reply to the last line into the room.
#[unsafe(no_mangle)]
pub extern "C" fn summarystore_held_next(
    alloc: Global,
    handle: &mut Handle,
    room: &mut [u8],
    filled: &mut usize,
) -> i32 {
    let Some(mut kept) = handle.take(alloc) else {
        return Why::Misuse.number();
    };
    let called = kept.next(room);
    *handle = Handle::of(kept);
    hand_out(called, filled)
}

/// Makes a stream.
#[unsafe(no_mangle)]
pub extern "C" fn summarystore_held_create(
    alloc: Global,
    handle: &mut Handle,
    name: &[u8],
    target: &CTarget,
    acked: &mut CAck,
) -> i32 {
    let Some(mut kept) = handle.take(alloc) else {
        return Why::Misuse.number();
    };
    let created = kept.create(name, target);
    *handle = Handle::of(kept);
    hand_out(created, acked)
}

/// Takes a value.
#[unsafe(no_mangle)]
pub extern "C" fn summarystore_held_append(
    alloc: Global,
    handle: &mut Handle,
    name: &[u8],
    time: u64,
    value: i64,
    acked: &mut CAck,
) -> i32 {
    let Some(mut kept) = handle.take(alloc) else {
        return Why::Misuse.number();
    };
    let appended = kept.append(name, time, value);
    *handle = Handle::of(kept);
    hand_out(appended, acked)
}

/// Takes values, each at its time, until one is refused.
#[unsafe(no_mangle)]
pub extern "C" fn summarystore_held_append_many(
    alloc: Global,
    handle: &mut Handle,
    name: &[u8],
    times: &[u64],
    values: &[i64],
    taken: &mut usize,
    acked: &mut CAck,
) -> i32 {
    let Some(mut kept) = handle.take(alloc) else {
        return Why::Misuse.number();
    };
    let appended = kept.append_many(name, times, values);
    *handle = Handle::of(kept);
    match appended {
        Ok(found) => hand_out_taken(found, taken, acked),
        Err(why) => why.number(),
    }
}

/// Brings what waits to the disk.
#[unsafe(no_mangle)]
pub extern "C" fn summarystore_held_seal(alloc: Global, handle: &mut Handle) -> i32 {
    let Some(mut kept) = handle.take(alloc) else {
        return Why::Misuse.number();
    };
    let sealed = kept.seal();
    *handle = Handle::of(kept);
    answer(sealed)
}

/// What is known of the values with times from `from` to `to`.
#[unsafe(no_mangle)]
pub extern "C" fn summarystore_held_query(
    alloc: Global,
    handle: &mut Handle,
    name: &[u8],
    kind: u32,
    from: u64,
    to: u64,
    found: &mut CInterval,
) -> i32 {
    let Some(mut kept) = handle.take(alloc) else {
        return Why::Misuse.number();
    };
    let queried = kept.query(name, kind, from, to);
    *handle = Handle::of(kept);
    hand_out(queried, found)
}

/// The same, with the likeliest number.
#[unsafe(no_mangle)]
pub extern "C" fn summarystore_held_estimate(
    alloc: Global,
    handle: &mut Handle,
    name: &[u8],
    kind: u32,
    from: u64,
    to: u64,
    found: &mut CInterval,
) -> i32 {
    let Some(mut kept) = handle.take(alloc) else {
        return Why::Misuse.number();
    };
    let estimated = kept.estimate(name, kind, from, to);
    *handle = Handle::of(kept);
    hand_out(estimated, found)
}

/// The queries of `step` times each, from `from` on.
#[unsafe(no_mangle)]
pub extern "C" fn summarystore_held_series(
    alloc: Global,
    handle: &mut Handle,
    name: &[u8],
    number: u32,
    from: u64,
    to: u64,
    step: u64,
    rows: &mut [CInterval],
    count: &mut usize,
) -> i32 {
    let Some(mut kept) = handle.take(alloc) else {
        return Why::Misuse.number();
    };
    let series = match kind(number) {
        Some(kind) => series_of(name, kind, from, to, step),
        None => Err(Why::Misuse),
    };
    let asked = kept.series(series, rows);
    *handle = Handle::of(kept);
    hand_out(asked, count)
}

/// Whether one of these values is `value`.
#[unsafe(no_mangle)]
pub extern "C" fn summarystore_held_has(
    alloc: Global,
    handle: &mut Handle,
    name: &[u8],
    value: i64,
    from: u64,
    to: u64,
    found: &mut u32,
) -> i32 {
    let Some(mut kept) = handle.take(alloc) else {
        return Why::Misuse.number();
    };
    let asked = kept.has(name, value, from, to);
    *handle = Handle::of(kept);
    hand_out(asked, found)
}

/// How far a stream has come, and what is known of its newest value.
#[unsafe(no_mangle)]
pub extern "C" fn summarystore_held_last(
    alloc: Global,
    handle: &mut Handle,
    name: &[u8],
    found: &mut CNewest,
) -> i32 {
    let Some(mut kept) = handle.take(alloc) else {
        return Why::Misuse.number();
    };
    let asked = kept.last(name);
    *handle = Handle::of(kept);
    hand_out(asked, found)
}

/// How many streams stand.
#[unsafe(no_mangle)]
pub extern "C" fn summarystore_held_streams(
    alloc: Global,
    handle: &mut Handle,
    found: &mut usize,
) -> i32 {
    let Some(mut kept) = handle.take(alloc) else {
        return Why::Misuse.number();
    };
    let asked = kept.streams();
    *handle = Handle::of(kept);
    hand_out(asked, found)
}
