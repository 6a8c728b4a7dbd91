// Files, and the maps for which they stand.
ghost use Rattle.std.specs.Prelude.{◌≡◌, IsTrue, OnOk};
ghost use Rattle.ss_outside.specs.Disk.{OfContent};
ghost use Rattle.ss_journal.specs.Kept.{IsKept, IsRunning};

use ss_journal::{Journal, JournalError};
use ss_outside::{Disk, MemDisk};
use std::alloc::{AllocError, Global};

// The byte that fills each slot below the extent. The other slots are zeros.
pub type Map<'a> = &'a [u8];

#[derive(Clone, Copy)]
pub enum File {
    // What it begins with, and its length. The other bytes are a5.
    Begun(&'static [u8], usize),
    // Its first entries, open ones of a single put, and its slots. An entry is its slot and its byte: with 0 there is none.
    Formed(&'static [u8], Map<'static>),
}

fn set(bytes: &mut [u8], place: usize, new: &[u8]) {
    for (k, byte) in new.iter().enumerate() {
        if let Some(held) = bytes.get_mut(place.wrapping_add(k)) {
            *held = *byte;
        }
    }
}

// The most slots of a map that are compared.
const MOST: usize = 300;

// An open entry of a single put.
pub fn set_entry(bytes: &mut [u8], n: usize, slot: u8, byte: u8) {
    let place = n.wrapping_mul(544).wrapping_add(512);
    set(bytes, place, &[0xA5, 1, 0, 0, 0, slot]);
    set(bytes, place.wrapping_add(6), &[byte; 128]);
}

fn set_entries(bytes: &mut [u8], entries: &[u8]) {
    let mut slot = 0u8;
    for (k, byte) in entries.iter().enumerate() {
        if k % 2 == 0 {
            slot = *byte;
        } else if *byte != 0 {
            set_entry(bytes, k / 2, slot, *byte);
        }
    }
}

pub fn bytes_of(alloc: Global, file: &File) -> Result<Vec<u8>, AllocError> {
    match file {
        File::Begun(head, length) => {
            let mut bytes = vec![in alloc; 0xA5; *length]?;
            set(&mut bytes, 0, head);
            Ok(bytes)
        }
        File::Formed(entries, slots) => {
            let mut bytes = vec![in alloc; 0; 36864]?;
            set(&mut bytes, 0, b"\xA5SSTORE01");
            set_entries(&mut bytes, entries);
            for slot in *slots {
                bytes.extend_from_slice(&[*slot; 128])?;
            }
            Ok(bytes)
        }
    }
}

pub fn disk_of(alloc: Global, bytes: &[u8]) -> Result<MemDisk, AllocError> {
    MemDisk::new(alloc, bytes.to_vec(alloc)?)
}

pub fn disk_with(alloc: Global, file: &File) -> Result<MemDisk, AllocError> {
    MemDisk::new(alloc, bytes_of(alloc, file)?)
}

// Whether a file is so long, and so many of its first three entries are in use: those before the first closed gate.
pub fn is_file(disk: &MemDisk, length: usize, in_use: usize) -> bool {
    let bytes = disk.content();
    for n in 0..3usize {
        let place = 512 + n * 544;
        if place >= bytes.len() || n <= in_use && (bytes[place] == 0xA5) != (n < in_use) {
            return false;
        }
    }
    bytes.len() == length
}

// How many of a file's entries are in use.
pub fn entries_in(disk: &MemDisk) -> usize {
    let bytes = disk.content();
    for n in 0..64usize {
        if bytes.get(512 + n * 544).copied() != Some(0xA5) {
            return n;
        }
    }
    64
}

pub fn byte_at(map: Map<'_>, slot: usize) -> u8 {
    if slot < map.len() { map[slot] } else { 0 }
}

fn is_filled(bytes: &[u8; 128], byte: u8) -> bool {
    *bytes == [byte; 128]
}

// Whether a journal has this map.
pub fn has<D: Disk>(journal: &mut Journal, disk: &mut D, map: Map<'_>) -> Result<bool, JournalError>
    requires running { IsRunning journal.old }
    requires one_disk { OfContent (D.seen disk.old) (IsKept journal.old) }
    ensures journal { OnOk result (journal.new ≡ journal.old) }
    ensures one_disk { OfContent (D.seen disk.new) (λ content. OnOk result (IsKept journal.new content)) }
{
    // Two slots at least.
    let mut is_right = journal.extent() as usize == map.len();
    for slot in 0..map.len().max(2).min(MOST) {
        let bytes = journal.read(disk, slot as u32)?;
        is_right = is_right && is_filled(&bytes, byte_at(map, slot));
    }
    Ok(is_right)
}

// Whether the disk opens with this map.
pub fn holds<D: Disk>(alloc: Global, disk: &mut D, map: Map<'_>) -> Result<bool, JournalError> {
    let mut journal = Journal::open(alloc, disk)?;
    has(&mut journal, disk, map)
}

// Whether there was memory too.
pub fn is_held<D: Disk>(alloc: Global, disk: &mut D, map: Map<'_>) -> bool {
    matches!(holds(alloc, disk, map), Ok(true))
}
