// Pages, each against the map of its file and against reads of its slots.
ghost use Rattle.std.specs.Prelude.{◌<◌};
ghost use Rattle.ss_outside.specs.Disk.{OfContent};
ghost use Rattle.ss_journal.specs.Kept.{IsKept, IsRunning};

use super::files::{File, Map, byte_at, bytes_of, disk_of};
use super::runs::{opened, settled};
use crate::passing::pass;
use ss_base::SLOT_SIZE;
use ss_journal::{Journal, JournalError, MOST_PAGES, PAGE_SLOTS, Page};
use ss_outside::{Disk, MemDisk};
use std::alloc::Global;
use std::test::Fail;

// A file, how many bytes of its end are cut off, a page, and the map.
type Row = (File, usize, u16, Map<'static>);

const FORTY: [u8; 40] = [
    100, 101, 102, 103, 104, 105, 106, 107, 108, 109, 110, 111, 112, 113, 114, 115, 116, 117, 118,
    119, 120, 121, 122, 123, 124, 125, 126, 127, 128, 129, 130, 131, 132, 133, 134, 135, 136, 137,
    138, 139,
];

// The first 31 of them.
const WHOLE: [u8; 31] = [
    100, 101, 102, 103, 104, 105, 106, 107, 108, 109, 110, 111, 112, 113, 114, 115, 116, 117, 118,
    119, 120, 121, 122, 123, 124, 125, 126, 127, 128, 129, 130,
];

// All of them after puts of 1 into slot 31, of 2 and then 4 into slot 33, and of 3 into slot 40, which is next.
const AFTER: [u8; 41] = [
    100, 101, 102, 103, 104, 105, 106, 107, 108, 109, 110, 111, 112, 113, 114, 115, 116, 117, 118,
    119, 120, 121, 122, 123, 124, 125, 126, 127, 128, 129, 130, 1, 132, 4, 134, 135, 136, 137, 138,
    139, 3,
];

const PUTS: &[u8] = &[31, 1, 33, 2, 40, 3, 33, 4];

const ROWS: [Row; 13] = [
    // It isn't formatted, and holds other bytes than zeros.
    (File::Begun(b"\0", 45056), 0, 0, &[]),
    // The file ends in the page, before it, and long before it.
    (File::Formed(&[], &[3, 4]), 0, 0, &[3, 4]),
    (File::Formed(&[], &[3, 4]), 0, 1, &[3, 4]),
    (File::Formed(&[], &[3, 4]), 0, 32767, &[3, 4]),
    // It ends within a slot, which counts as zeros.
    (File::Formed(&[], &[3, 4]), 1, 0, &[3]),
    (File::Formed(&[], &[3, 4]), 127, 0, &[3]),
    (File::Formed(&[], &FORTY), 1025, 0, &WHOLE),
    // One entry puts into that slot, or into the one before it.
    (File::Formed(&[1, 6], &[3, 4]), 1, 0, &[3, 6]),
    (File::Formed(&[0, 6], &[3, 4]), 1, 0, &[6]),
    // Entries put into slots of both pages, and into one slot twice.
    (File::Formed(PUTS, &FORTY), 0, 0, &AFTER),
    (File::Formed(PUTS, &FORTY), 0, 1, &AFTER),
    (File::Formed(PUTS, &FORTY), 0, 2, &AFTER),
    // One slot is put twice, and none is in the file.
    (File::Formed(&[0, 4, 1, 5, 0, 6], &[]), 0, 0, &[6, 5]),
];

// Whether slot number k of a page is what was read of it, and filled with this byte.
fn is_slot(page: &mut Page, k: u32, read: &[u8; SLOT_SIZE], byte: u8) -> bool
    requires { k < PAGE_SLOTS }
{
    page.slot(k) == *read && *read == [byte; SLOT_SIZE]
}

// Whether a page has the bytes of the map, as reads of its slots have.
fn is_page<D: Disk>(
    journal: &mut Journal,
    disk: &mut D,
    page: u32,
    map: Map<'_>,
) -> Result<bool, JournalError>
    requires running { IsRunning journal.old }
    requires page { page < MOST_PAGES }
    requires one_disk { OfContent (D.seen disk.old) (IsKept journal.old) }
{
    let mut bytes = journal.read_page(disk, page)?;
    for k in 0..PAGE_SLOTS {
        let slot = PAGE_SLOTS * page + k;
        let read = journal.read(disk, slot)?;
        if !is_slot(&mut bytes, k, &read, byte_at(map, slot as usize)) {
            return Ok(false);
        }
    }
    Ok(true)
}

// Whether it has before the disk is settled.
fn was_page<D: Disk>(
    alloc: Global,
    disk: &mut D,
    page: u32,
    map: Map<'_>,
) -> Result<bool, JournalError>
    requires { page < MOST_PAGES }
{
    let mut journal = opened(alloc, disk)?;
    is_page(&mut journal, disk, page, map)
}

// Whether it has before the disk is settled and after it.
fn stays_page<D: Disk>(
    alloc: Global,
    disk: &mut D,
    page: u32,
    map: Map<'_>,
) -> Result<bool, JournalError>
    requires { page < MOST_PAGES }
{
    let before = was_page(alloc, disk, page, map)?;
    let mut journal = settled(alloc, disk)?;
    Ok(before && is_page(&mut journal, disk, page, map)?)
}

// How many calls of the disk reading a page makes.
fn calls_of(alloc: Global, disk: &mut MemDisk, page: u32) -> Result<u64, JournalError>
    requires { page < MOST_PAGES }
{
    let mut journal = opened(alloc, disk)?;
    let before = disk.calls();
    journal.read_page(disk, page)?;
    Ok(disk.calls().wrapping_sub(before))
}

// Whether the page is as the row says, by one call of the disk, or by none where the file isn't formatted.
fn goes(alloc: Global, disk: &mut MemDisk, row: &Row) -> Result<bool, JournalError> {
    let page = u32::from(row.2).min(MOST_PAGES - 1);
    let calls = if matches!(row.0, File::Begun(_, _)) {
        0
    } else {
        1
    };
    let made = calls_of(alloc, disk, page)?;
    Ok(stays_page(alloc, disk, page, row.3)? && made == calls)
}

fn is_so(alloc: Global, bytes: &[u8], row: &Row) -> Result<bool, JournalError> {
    let mut disk = disk_of(alloc, &bytes[..bytes.len().saturating_sub(row.1)])?;
    goes(alloc, &mut disk, row)
}

fn is_row(alloc: Global, row: &Row) -> Result<bool, JournalError> {
    let bytes = bytes_of(alloc, &row.0)?;
    is_so(alloc, &bytes, row)
}

fn first_wrong(alloc: Global) -> Result<Option<usize>, JournalError> {
    for (k, row) in ROWS.iter().enumerate() {
        if !is_row(alloc, row)? {
            return Ok(Some(k));
        }
    }
    Ok(None)
}

#[test]
fn a_page_has_the_bytes_of_its_slots(rt: HostRuntime) -> Result<(), Fail> {
    pass(first_wrong(rt.alloc()))
}
