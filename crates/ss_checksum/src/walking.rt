// The checksum of bytes: sixteen at a time, then eight, then four, and the last one by one.
ghost use Rattle.std.specs.Prelude.{◌≡◌, ◌++◌, fold};
ghost use Rattle.ss_checksum.specs.Checksum.{after_bytes, checksum};

use crate::steps::{with_byte, with_eight, with_four, with_sixteen};

// With more bytes, sixteen at a time.
fn by_sixteens(start: u32, quads: &[[[u8; 4]; 4]]) -> u32
    ensures { result ≡ fold (fold after_bytes) start quads.now }
{
    let mut state = start;
    'quads: for [one, two, three, four] in quads {
        state = with_sixteen(state, one, two, three, four);
    }
    state
}

// With more bytes, eight at a time.
fn by_eights(start: u32, pairs: &[[[u8; 4]; 2]]) -> u32
    ensures { result ≡ fold (fold after_bytes) start pairs.now }
{
    let mut state = start;
    'pairs: for [front, back] in pairs {
        state = with_eight(state, front, back);
    }
    state
}

// With more bytes, four at a time.
fn by_fours(start: u32, fours: &[[u8; 4]]) -> u32
    ensures { result ≡ fold after_bytes start fours.now }
{
    let mut state = start;
    'fours: for four in fours {
        state = with_four(state, four);
    }
    state
}

// With more bytes, one at a time.
fn by_bytes(start: u32, bytes: &[u8]) -> u32
    ensures { result ≡ after_bytes start bytes.now }
{
    let mut state = start;
    'bytes: for byte in bytes {
        state = with_byte(state, *byte);
    }
    state
}

// With more bytes.
fn after_bytes(start: u32, bytes: &[u8]) -> u32
    ensures { result ≡ after_bytes start bytes.now }
{
    let (fours, rest) = bytes.as_chunks::<4>();
    let (quads, few) = fours.as_chunks::<4>();
    let (pairs, last) = few.as_chunks::<2>();
    by_bytes(
        by_fours(by_eights(by_sixteens(start, quads), pairs), last),
        rest,
    )
}

/// The CRC-32C of some bytes and of others behind them. docs/DEFINITIONS.md ("Checksums") has its definition.
pub fn checksum(front: &[u8], back: &[u8]) -> u32
    ensures { result ≡ checksum (front.now ++ back.now) }
{
    after_bytes(after_bytes(u32::MAX, front), back) ^ u32::MAX
}
