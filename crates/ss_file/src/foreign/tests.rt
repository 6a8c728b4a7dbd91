// Which files are foreign.
use super::is_foreign;
use crate::made_up_system::MadeUpSystem;
use std::alloc::{AllocError, Global};

// The length of a file, its first bytes, where a byte of it is 1 while all others are 0, and whether it is foreign.
const FOREIGN: [(usize, &[u8], usize, bool); 13] = [
    (0, b"", 0, false),
    (1, b"\x07", 0, false),
    (36864, b"\0", 36863, false),
    (36865, b"\0", 36863, false),
    (36865, b"\0", 36864, true),
    (50000, b"\0", 49999, true),
    (50000, b"\0SSTORE01", 40960, true),
    (50000, b"\xa4SSTORE01", 40959, true),
    (50000, b"\xa5SSTORE01", 40959, false),
    (50000, b"\xa4SSTORE02", 40959, true),
    (50000, b"\xa5SSTORE02", 40959, false),
    (50000, b"\xa4SSTORE03", 40959, false),
    (50000, b"film", 40959, false),
];

// Puts bytes into a file, a one, and zeros up to its length.
fn fill(
    system: &mut MadeUpSystem,
    length: usize,
    first: &[u8],
    one: usize,
) -> Result<(), AllocError> {
    for place in 0..length {
        let byte = match first.get(place) {
            Some(byte) => *byte,
            None => u8::from(place == one),
        };
        system.bytes.push(byte)?;
    }
    Ok(())
}

// Whether it is told whether a file is foreign that holds this.
fn tells(
    system: &mut MadeUpSystem,
    length: usize,
    first: &[u8],
    one: usize,
    foreign: bool,
) -> bool {
    fill(system, length, first, one).is_ok() && is_foreign(system).unwrap_or(!foreign) == foreign
}

fn is_told(alloc: Global, length: usize, first: &[u8], one: usize, foreign: bool) -> bool {
    let mut system = MadeUpSystem::new(alloc);
    tells(&mut system, length, first, one, foreign)
}

fn all_are_told(alloc: Global) -> bool {
    for (length, first, one, foreign) in &FOREIGN {
        if !is_told(alloc, *length, first, *one, *foreign) {
            return false;
        }
    }
    true
}

#[test]
fn a_foreign_file_is_told(rt: HostRuntime) {
    assert!(rt; all_are_told(rt.alloc()));
}
