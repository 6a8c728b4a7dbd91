// Files that open or don't.
use super::files::{File, Map, bytes_of, disk_of, disk_with, holds};
use crate::passing::{pass, pass_if};
use ss_journal::JournalError;
use ss_outside::Disk;
use std::alloc::{AllocError, Global};
use std::test::Fail;

// What files begin with that are no store, and their length.
const NO_STORES: [(&[u8], usize); 5] = [
    (b"\xA5SSTORE03", 37120),
    (b"\xA5TSTORE01", 37120),
    (b"\x01SSTORE03", 37120),
    (b"\x01SSTORE0", 8),
    (b"\x01", 2),
];

fn is_refused<D: Disk>(alloc: Global, disk: &mut D, error: JournalError) -> bool {
    match holds(alloc, disk, &[]) {
        Ok(_) => false,
        Err(found) => found == error,
    }
}

fn refuses(alloc: Global, file: File, error: JournalError) -> Result<bool, JournalError> {
    let mut disk = disk_with(alloc, &file)?;
    Ok(is_refused(alloc, &mut disk, error))
}

fn first_store(alloc: Global) -> Result<Option<usize>, JournalError> {
    for (k, (head, length)) in NO_STORES.iter().enumerate() {
        if !refuses(alloc, File::Begun(head, *length), JournalError::NotAStore)? {
            return Ok(Some(k));
        }
    }
    Ok(None)
}

#[test]
fn what_is_no_store_is_refused(rt: HostRuntime) -> Result<(), Fail> {
    pass(first_store(rt.alloc()))
}

// An entry puts past the next slot.
#[test]
fn a_bad_entry_is_refused(rt: HostRuntime) -> Result<(), Fail> {
    let file = File::Formed(&[2, 3], &[3]);
    pass_if(refuses(rt.alloc(), file, JournalError::BadEntry { n: 0 }))
}

// The map of a formatted file of the slots 3 and 4, cut to a length, or no store.
fn map_when_cut(length: usize) -> Result<Map<'static>, JournalError> {
    match length {
        0..=1 | 36864..=36991 => Ok(&[]),
        36992..=37119 => Ok(&[3]),
        37120 => Ok(&[3, 4]),
        _ => Err(JournalError::NotAStore),
    }
}

// Whether a file cut to a length opens as is said of it.
fn is_as_cut<D: Disk>(alloc: Global, disk: &mut D, length: usize) -> Result<bool, JournalError> {
    match map_when_cut(length) {
        Ok(map) => holds(alloc, disk, map),
        Err(error) => Ok(is_refused(alloc, disk, error)),
    }
}

fn opens_as_cut(alloc: Global, bytes: &[u8]) -> Result<bool, JournalError> {
    let mut disk = disk_of(alloc, bytes)?;
    is_as_cut(alloc, &mut disk, bytes.len())
}

// The first length at which a file opens otherwise.
fn first_length(alloc: Global, whole: &[u8]) -> Result<Option<usize>, JournalError> {
    for length in 0..=whole.len() {
        if !opens_as_cut(alloc, &whole[..length])? {
            return Ok(Some(length));
        }
    }
    Ok(None)
}

fn first_cut(alloc: Global) -> Result<Option<usize>, JournalError> {
    let whole = bytes_of(alloc, &File::Formed(&[], &[3, 4]))?;
    first_length(alloc, &whole)
}

#[test]
fn a_formed_file_is_cut_to_each_length(rt: HostRuntime) -> Result<(), Fail> {
    pass(first_cut(rt.alloc()))
}

const TEXTS: [(JournalError, &str); 4] = [
    (JournalError::Disk, "disk failed"),
    (JournalError::NotAStore, "not a store"),
    (JournalError::BadEntry { n: 5 }, "damaged entry 5"),
    (JournalError::OutOfMemory, "out of memory"),
];

fn says(alloc: Global, error: JournalError, text: &str) -> Result<bool, AllocError> {
    Ok(format!(in alloc; "{error}")?.as_str() == text)
}

fn first_other_text(alloc: Global) -> Result<Option<usize>, JournalError> {
    for (k, (error, text)) in TEXTS.iter().enumerate() {
        if !says(alloc, *error, text)? {
            return Ok(Some(k));
        }
    }
    Ok(None)
}

#[test]
fn an_error_says_what_is_wrong(rt: HostRuntime) -> Result<(), Fail> {
    pass(first_other_text(rt.alloc()))
}
