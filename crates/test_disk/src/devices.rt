// The devices in memory, called through the bounds that the crates above use.
mod ahead;
mod mem_disk;

ghost use Rattle.std.specs.Prelude.{◌<◌, ◌≤◌, length};

use crate::passing::{pass, pass_if};
use ss_journal::JournalError;
use ss_outside::{Failed, MemSink, MemSource, Sink, Source, SteadySink, SteadySource};
use std::alloc::{AllocError, Global};
use std::test::Fail;

const BYTES: [u8; 10] = [1, 2, 3, 4, 5, 6, 7, 8, 9, 10];

fn source_of(alloc: Global, bytes: &[u8], piece: usize) -> Result<MemSource, AllocError>
    requires { 0 < piece }
{
    Ok(MemSource::new(alloc, bytes.to_vec(alloc)?, piece))
}

// The last of bytes that count on from this one, or 255 if they don't.
fn counted(from: u8, bytes: &[u8]) -> u8 {
    let mut last = from;
    for byte in bytes {
        if *byte != last.saturating_add(1) {
            return 255;
        }
        last = *byte;
    }
    last
}

// Whether 15 reads into a buffer of 4 bytes give the bytes from 1 to this one in order, and then none at least five times.
fn gives<S: Source>(source: &mut S, last: usize) -> Result<bool, JournalError> {
    let mut buffer = [0; 4];
    let mut given = 0u8;
    for _ in 0..15 {
        let count = source.read(&mut buffer)?;
        given = counted(given, &buffer[..count]);
    }
    Ok(usize::from(given) == last)
}

fn gives_in_pieces(alloc: Global, length: usize, piece: usize) -> Result<bool, JournalError>
    requires piece { 0 < piece }
    requires length { length ≤ 10 }
{
    let mut source = source_of(alloc, &BYTES[..length], piece)?;
    gives(&mut source, length)
}

fn gives_steadily(alloc: Global, length: usize, piece: usize) -> Result<bool, JournalError>
    requires piece { 0 < piece }
    requires length { length ≤ 10 }
{
    let mut source = SteadySource::new(BYTES[..length].to_vec(alloc)?, piece);
    gives(&mut source, length)
}

// The first length and piece, of three pieces for each of ten lengths, with which not all is given in order.
fn first_wrong(alloc: Global) -> Result<Option<usize>, JournalError> {
    for n in 0..30usize {
        let piece = match n % 3 {
            0 => 1,
            1 => 3,
            _ => 4096,
        };
        let length = 1 + n / 3;
        if !gives_in_pieces(alloc, length, piece)? || !gives_steadily(alloc, length, piece)? {
            return Ok(Some(n));
        }
    }
    Ok(None)
}

#[test]
fn a_source_gives_its_bytes_in_order_and_then_none(rt: HostRuntime) -> Result<(), Fail> {
    pass(first_wrong(rt.alloc()))
}

const READS: [(Result<usize, Failed>, [u8; 4]); 7] = [
    (Ok(3), [1, 2, 3, 0]),
    (Err(Failed), [1, 2, 3, 0]),
    (Ok(3), [4, 5, 6, 0]),
    (Ok(3), [7, 8, 9, 0]),
    (Err(Failed), [7, 8, 9, 0]),
    (Ok(1), [10, 8, 9, 0]),
    (Ok(0), [10, 8, 9, 0]),
];

// Whether reads into one buffer answer as the rows say.
fn answers<S: Source>(source: &mut S) -> bool {
    let mut buffer = [0; 4];
    for (answer, bytes) in &READS {
        if source.read(&mut buffer) != *answer || buffer != *bytes {
            return false;
        }
    }
    true
}

fn goes_on(alloc: Global) -> Result<bool, JournalError> {
    let failing = [1, 4].to_vec(alloc)?;
    let mut source = source_of(alloc, &BYTES, 3)?;
    source.fail_at(failing);
    Ok(answers(&mut source))
}

#[test]
fn a_listed_read_fails_and_the_next_goes_on(rt: HostRuntime) -> Result<(), Fail> {
    pass_if(goes_on(rt.alloc()))
}

fn put<K: Sink>(sink: &mut K, piece: &[u8]) -> Result<usize, Failed>
    requires { 0 < length piece.now }
{
    sink.put(piece)
}

// Whether the second of three puts fails.
fn second_fails<K: Sink>(sink: &mut K) -> bool {
    put(sink, &[1, 2, 3]) == Ok(3)
        && put(sink, &[4, 5, 6]) == Err(Failed)
        && put(sink, &[7, 8, 9]) == Ok(3)
}

// Whether the other two are held then.
fn holds_two(sink: &mut MemSink) -> bool {
    let failed = second_fails(sink);
    failed && sink.short() == 0 && sink.held() == [1, 2, 3, 7, 8, 9].as_slice()
}

fn holds_others(alloc: Global) -> Result<bool, JournalError> {
    let failing = [1].to_vec(alloc)?;
    let mut sink = MemSink::new(alloc);
    sink.fail_at(failing);
    Ok(holds_two(&mut sink))
}

#[test]
fn a_listed_put_fails_and_the_next_goes_on(rt: HostRuntime) -> Result<(), Fail> {
    pass_if(holds_others(rt.alloc()))
}

// How many bytes a sink holds after puts of 2 and 64 with these answers, and how many of them found no memory.
fn left_by(first: Result<usize, Failed>, second: Result<usize, Failed>) -> (usize, u64) {
    match (first, second) {
        (Ok(_), Ok(_)) => (66, 0),
        (Ok(_), Err(Failed)) => (2, 1),
        (Err(Failed), Ok(_)) => (64, 1),
        (Err(Failed), Err(Failed)) => (0, 2),
    }
}

fn left_in<K: Sink>(sink: &mut K) -> (usize, u64) {
    let first = put(sink, &[1, 2]);
    let second = put(sink, &[7; 64]);
    left_by(first, second)
}

fn holds_what_it_took(sink: &mut MemSink) -> bool {
    let left = left_in(sink);
    (sink.held().len(), sink.short()) == left
}

fn holds_steadily(sink: &mut SteadySink) -> bool {
    let left = left_in(sink);
    (sink.held().len(), sink.short()) == left
}

fn holds_both(alloc: Global) -> bool {
    let mut sink = MemSink::new(alloc);
    let mut steady = SteadySink::new(alloc);
    holds_what_it_took(&mut sink) && holds_steadily(&mut steady)
}

// Passes with and without memory: run it with each allocation failing in turn.
#[test]
fn a_put_without_memory_leaves_what_was_held(rt: HostRuntime) -> Result<(), Fail> {
    pass_if(Ok(holds_both(rt.alloc())))
}
