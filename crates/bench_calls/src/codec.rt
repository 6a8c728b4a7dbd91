// Windows, encoded and decoded.
ghost use Rattle.std.specs.Prelude.{IsTrue};
ghost use Rattle.ss_codec.specs.Record.{is_valid};

use crate::timing::{micros_since, now};
use ss_codec::{Record, decode, encode, which_windows_are_valid};
use ss_summary::Summary;
use std::rt::Clock;

// How many windows are encoded and decoded.
const CODINGS: u32 = 1_000_000;

// The window of one value, whose stream, position, time and value the number gives.
fn window_of(k: u32) -> Record
    ensures { IsTrue (is_valid result) }
{
    which_windows_are_valid();
    Record::Window {
        id: k,
        first: u64::from(k) + 1,
        summary: Summary::one(u64::from(k), i64::from(k)),
    }
}

// Encodes so many windows, and answers the sum of one byte of each.
fn encode_many() -> u64 {
    let mut sum = 0u64;
    for k in 0..CODINGS {
        let bytes = encode(&window_of(k));
        sum = sum.saturating_add(u64::from(bytes[(k % 128) as usize]));
    }
    sum
}

// Decodes the bytes of so many windows, and answers how many are records.
fn decode_many() -> u32 {
    let mut bytes = encode(&window_of(1));
    let mut found = 0u32;
    for k in 0..CODINGS {
        bytes[7] = (k % 256) as u8;
        if decode(&bytes).is_some() {
            found = found.saturating_add(1);
        }
    }
    found
}

/// The microseconds of encoding a window.
pub fn encode_time<R: Clock>(rt: &R) -> f64 {
    let begin = now(rt);
    let sum = encode_many();
    micros_since(rt, &begin, sum > 0) / f64::from(CODINGS)
}

/// The microseconds of decoding a window.
pub fn decode_time<R: Clock>(rt: &R) -> f64 {
    let begin = now(rt);
    let found = decode_many();
    micros_since(rt, &begin, found == CODINGS) / f64::from(CODINGS)
}
