// Checked stores: which files become such, and what of damage they tell.
use super::files::{File, disk_of, disk_with};
use super::runs::{opened, run, settled};
use crate::passing::{pass, pass_if};
use ss_base::SLOT_SIZE;
use ss_journal::{Journal, JournalError, Page, is_plain, make_checked};
use ss_outside::{Disk, MemDisk};
use std::alloc::Global;
use std::test::Fail;

// A file, whether a plain store stands there, and what it begins with once it was to be a checked store.
type Row = (File, bool, &'static [u8]);

const ROWS: [Row; 10] = [
    (File::Begun(b"", 0), false, b"\0SSTORE02"),
    (File::Begun(b"", 1), false, b"\0SSTORE02"),
    (File::Begun(b"\0", 2), false, b"\0SSTORE02"),
    (File::Begun(b"\0SSTORE01", 37120), false, b"\0SSTORE02"),
    (File::Begun(b"\x01SSTORE02", 9), false, b"\x01SSTORE02"),
    (File::Begun(b"\x01SSTORE01", 9), true, b"\x01SSTORE01"),
    (File::Begun(b"\xA5SSTORE01", 36863), false, b"\xA5SSTORE01"),
    (File::Formed(&[], &[3]), true, b"\xA5SSTORE01"),
    (File::Begun(b"\xA5SSTORE02", 36864), false, b"\xA5SSTORE02"),
    (File::Begun(b"hello", 5), false, b"hello"),
];

fn is_asked(disk: &mut MemDisk, plain: bool, front: &[u8]) -> bool {
    is_plain(disk) == Ok(plain)
        && make_checked(disk) == Ok(!plain)
        && disk.content().starts_with(front)
}

fn first_other(alloc: Global) -> Result<Option<usize>, JournalError> {
    for (k, (file, plain, front)) in ROWS.iter().enumerate() {
        let mut disk = disk_with(alloc, file)?;
        if !is_asked(&mut disk, *plain, front) {
            return Ok(Some(k));
        }
    }
    Ok(None)
}

#[test]
fn files_become_checked_stores(rt: HostRuntime) -> Result<(), Fail> {
    pass(first_other(rt.alloc()))
}

// A checked store of two slots. The first is full of 7, and the second of another byte, if that isn't 0, by an entry in use.
fn committed(alloc: Global, second: u8) -> Result<MemDisk, JournalError> {
    let mut disk = disk_with(alloc, &File::Begun(b"\0", 37120))?;
    make_checked(&mut disk)?;
    run(alloc, &mut disk, (7, second))?;
    Ok(disk)
}

// Flips one bit of the byte at a place, another one at the next.
fn flipped(bytes: &mut [u8], place: usize) {
    if let Some(byte) = bytes.get_mut(place) {
        *byte ^= 1u8.wrapping_shl((place % 8) as u32);
    }
}

// The last bytes of a slot.
fn last_of(bytes: &[u8; SLOT_SIZE]) -> [u8; 4] {
    [bytes[124], bytes[125], bytes[126], bytes[127]]
}

// Those of the first slot, as they are read.
fn last_bytes<D: Disk>(alloc: Global, disk: &mut D) -> Result<[u8; 4], JournalError> {
    let mut journal = opened(alloc, disk)?;
    let bytes = journal.read(disk, 0)?;
    Ok(last_of(&bytes))
}

fn is_told_in_slot(alloc: Global, bytes: &[u8]) -> Result<bool, JournalError> {
    let mut disk = disk_of(alloc, bytes)?;
    Ok(last_bytes(alloc, &mut disk)? != [7; 4])
}

fn is_told_in_entry(alloc: Global, bytes: &[u8]) -> Result<bool, JournalError> {
    let mut disk = disk_of(alloc, bytes)?;
    match Journal::open(alloc, &mut disk) {
        Err(error) => Ok(error == JournalError::BadEntry { n: 0 }),
        Ok(_) => Ok(false),
    }
}

// Whether a bit that is flipped is told at each of these places.
fn are_told(
    alloc: Global,
    whole: &[u8],
    from: usize,
    to: usize,
    in_slot: bool,
) -> Result<bool, JournalError> {
    let mut bytes = whole.to_vec(alloc)?;
    for place in from..to {
        flipped(&mut bytes, place);
        let told = if in_slot {
            is_told_in_slot(alloc, &bytes)?
        } else {
            is_told_in_entry(alloc, &bytes)?
        };
        if !told {
            return Ok(false);
        }
        flipped(&mut bytes, place);
    }
    Ok(true)
}

// The gate of the entry has no part in its check.
fn entry_tells(alloc: Global) -> Result<bool, JournalError> {
    let disk = committed(alloc, 0)?;
    are_told(alloc, disk.content(), 513, 1056, false)
}

fn slot_tells(alloc: Global) -> Result<bool, JournalError> {
    let mut disk = committed(alloc, 0)?;
    settled(alloc, &mut disk)?;
    if last_bytes(alloc, &mut disk)? != [7; 4] {
        return Ok(false);
    }
    are_told(alloc, disk.content(), 36864, 36992, true)
}

#[test]
fn a_bit_of_a_checked_entry_is_told(rt: HostRuntime) -> Result<(), Fail> {
    pass_if(entry_tells(rt.alloc()))
}

#[test]
fn a_bit_of_a_checked_slot_is_told(rt: HostRuntime) -> Result<(), Fail> {
    pass_if(slot_tells(rt.alloc()))
}

// The first page.
fn page_of<D: Disk>(alloc: Global, disk: &mut D) -> Result<Page, JournalError> {
    let mut journal = opened(alloc, disk)?;
    Ok(journal.read_page(disk, 0)?)
}

// Whether the first slots of a page are full of these bytes, the second asked for first, and each twice.
fn are_full(page: &mut Page, first: u8, second: u8) -> bool {
    for _ in 0..2 {
        if page.slot(1) != [second; SLOT_SIZE] || page.slot(0) != [first; SLOT_SIZE] {
            return false;
        }
    }
    true
}

// Whether it says so before the first slot is written over, if it is asked then, and after that.
fn says(page: &mut Page, asked: bool) -> bool {
    if asked && !are_full(page, 7, 8) {
        return false;
    }
    page.put(0, &[9; SLOT_SIZE]);
    are_full(page, 9, 8)
}

fn is_said<D: Disk>(alloc: Global, disk: &mut D, asked: bool) -> Result<bool, JournalError> {
    let mut page = page_of(alloc, disk)?;
    Ok(says(&mut page, asked))
}

fn page_says(alloc: Global) -> Result<bool, JournalError> {
    let mut disk = committed(alloc, 8)?;
    settled(alloc, &mut disk)?;
    Ok(is_said(alloc, &mut disk, true)? && is_said(alloc, &mut disk, false)?)
}

#[test]
fn a_checked_page_says_its_slots_in_any_order(rt: HostRuntime) -> Result<(), Fail> {
    pass_if(page_says(rt.alloc()))
}

// Whether the first slot tells that it is damaged, each time that it is asked for, and the second is as it was.
fn tells_first(page: &mut Page) -> bool {
    let first = page.slot(0);
    last_of(&first) != [7; 4] && page.slot(1) == [8; SLOT_SIZE] && page.slot(0) == first
}

fn is_told_in_page(alloc: Global, bytes: &[u8]) -> Result<bool, JournalError> {
    let mut disk = disk_of(alloc, bytes)?;
    let mut page = page_of(alloc, &mut disk)?;
    Ok(tells_first(&mut page))
}

fn page_tells(alloc: Global) -> Result<bool, JournalError> {
    let mut disk = committed(alloc, 8)?;
    settled(alloc, &mut disk)?;
    let mut bytes = disk.content().to_vec(alloc)?;
    flipped(&mut bytes, 36914);
    is_told_in_page(alloc, &bytes)
}

#[test]
fn a_damaged_slot_leaves_those_beside_it(rt: HostRuntime) -> Result<(), Fail> {
    pass_if(page_tells(rt.alloc()))
}
