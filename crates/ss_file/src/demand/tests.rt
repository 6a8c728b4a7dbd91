// Which stores are refused before a run.
use super::{Demand, meet};
use crate::file_disk::FileDisk;
use crate::made_up_system::{MadeUpSystem, PATH};
use crate::opening::Missing;
use std::alloc::{AllocError, Global};
use std::test::Fail;

const REFUSED: &str = "the store is plain, and --checked wants a checked one";

// The first bytes of a file, its length with zeros behind them, what is asked of it, and what is said to be wrong.
const ASKED: [(&[u8], usize, Demand, &str); 10] = [
    (b"\xa5SSTORE01", 36864, Demand::Make, REFUSED),
    (b"\xa5SSTORE01", 36864, Demand::Look, REFUSED),
    (b"\xa5SSTORE01", 36864, Demand::Nothing, ""),
    (b"\xa5SSTORE02", 36864, Demand::Make, ""),
    (b"\xa5SSTORE02", 36864, Demand::Look, ""),
    (b"", 0, Demand::Make, ""),
    (b"", 0, Demand::Look, ""),
    (b"\0SSTORE01", 9, Demand::Look, ""),
    (b"hello", 5, Demand::Make, ""),
    (b"hello", 5, Demand::Look, ""),
];

// A system with such a file.
fn system_of(alloc: Global, first: &[u8], length: usize) -> Result<MadeUpSystem, AllocError> {
    let mut system = MadeUpSystem::new(alloc);
    for place in 0..length {
        system.bytes.push(first.get(place).copied().unwrap_or(0))?;
    }
    Ok(system)
}

// Whether these words say what is wrong with it.
fn is_said(disk: &mut FileDisk<MadeUpSystem>, demand: Demand, words: &str) -> bool {
    meet(disk, demand);
    match disk.why() {
        Some(reason) => reason.trouble.words() == words,
        None => words == "",
    }
}

fn all_are_said(alloc: Global) -> Result<bool, AllocError> {
    for (first, length, demand, words) in &ASKED {
        let path = String::from_str(alloc, PATH)?;
        let mut disk = FileDisk::new(system_of(alloc, first, *length)?, path, Missing::Make);
        if !is_said(&mut disk, *demand, words) {
            return Ok(false);
        }
    }
    Ok(true)
}

#[test]
fn a_plain_store_is_refused_where_a_checked_one_is_wanted(rt: HostRuntime) -> Result<(), Fail> {
    assert!(rt; all_are_said(rt.alloc())?);
    Ok(())
}
