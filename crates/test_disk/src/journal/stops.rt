// Runs that stop at a call of the disk, and what a crash leaves then.
use super::files::{File, Map, bytes_of, disk_of, disk_with, is_file, is_held};
use super::runs::{Commit, NOTHING, ROWS, Row, SHARED, run};
use crate::passing::{pass, pass_if};
use ss_journal::JournalError;
use ss_outside::{Choice, Disk, MemDisk};
use std::alloc::{AllocError, Global};
use std::test::Fail;

// Whether the disk stands for the first map before a run, and for the second after it.
pub fn turns<D: Disk>(
    alloc: Global,
    disk: &mut D,
    commit: Commit,
    before: Map<'_>,
    after: Map<'_>,
) -> bool {
    let was = is_held(alloc, disk, before);
    let ran = run(alloc, disk, commit).is_ok();
    let is = is_held(alloc, disk, after);
    was && ran && is
}

// Whether a run over the row's file goes as the row says.
fn goes(alloc: Global, disk: &mut MemDisk, row: &Row) -> bool {
    let turned = turns(alloc, disk, row.commit, row.before, row.after);
    turned && is_file(disk, row.length, row.in_use)
}

fn is_so(alloc: Global, row: &Row) -> Result<bool, JournalError> {
    let mut disk = disk_with(alloc, &row.file)?;
    Ok(goes(alloc, &mut disk, row))
}

pub const CRASHES: [Choice; 5] = [
    Choice::Lost,
    Choice::Kept,
    Choice::Fill(0),
    Choice::Fill(0xA5),
    Choice::Fill(0xFF),
];

// Whether the disk opens with one of the maps, and with the same one once it is settled.
fn keeps_one<D: Disk>(alloc: Global, disk: &mut D, maps: &[Map<'_>]) -> bool {
    for map in maps {
        if is_held(alloc, disk, map) {
            return run(alloc, disk, NOTHING).is_ok() && is_held(alloc, disk, map);
        }
    }
    false
}

// Whether a crash leaves one of the maps.
fn leaves_one(
    alloc: Global,
    disk: &MemDisk,
    choice: Choice,
    maps: &[Map<'_>],
) -> Result<bool, JournalError> {
    let mut left = disk.crash(choice)?;
    Ok(keeps_one(alloc, &mut left, maps))
}

// Whether there was memory, and each crash leaves one of the maps.
pub fn survives(alloc: Global, disk: &MemDisk, maps: &[Map<'_>]) -> Result<bool, JournalError> {
    for choice in CRASHES {
        if !leaves_one(alloc, disk, choice, maps)? {
            return Ok(false);
        }
    }
    Ok(disk.short() == 0)
}

// The same of a crash of a settling that stops at this call, after a first crash.
pub fn survives_again(
    alloc: Global,
    disk: &MemDisk,
    choice: Choice,
    stop: u64,
    maps: &[Map<'_>],
) -> Result<bool, JournalError> {
    let mut left = disk.crash(choice)?;
    left.stop_from(stop);
    let _ = run(alloc, &mut left, NOTHING);
    survives(alloc, &left, maps)
}

// The same of each first crash.
pub fn survives_twice(
    alloc: Global,
    disk: &MemDisk,
    stop: u64,
    maps: &[Map<'_>],
) -> Result<bool, JournalError> {
    for choice in CRASHES {
        if !survives_again(alloc, disk, choice, stop, maps)? {
            return Ok(false);
        }
    }
    Ok(true)
}

// Whether the row's run comes to its end, if what it does leaves the map before it or the one after.
fn ended(alloc: Global, disk: &mut MemDisk, row: &Row) -> Result<Option<bool>, JournalError> {
    let maps = [row.after, row.before];
    let ended = run(alloc, disk, row.commit).is_ok();
    let count = if ended { 1 } else { 2 };
    let safe = survives(alloc, disk, &maps[..count])?;
    Ok(if safe { Some(ended) } else { None })
}

// The same of a run over these bytes that stops.
fn ends(alloc: Global, bytes: &[u8], row: &Row, stop: u64) -> Result<Option<bool>, JournalError> {
    let mut disk = disk_of(alloc, bytes)?;
    disk.stop_from(stop);
    ended(alloc, &mut disk, row)
}

// The number of calls of the row's run over these bytes, or 0 if a stop leaves neither the map before nor the one after.
fn calls(alloc: Global, bytes: &[u8], row: &Row) -> Result<u64, JournalError> {
    for stop in 0..200 {
        match ends(alloc, bytes, row, stop)? {
            Some(true) => return Ok(stop),
            Some(false) => {}
            None => return Ok(0),
        }
    }
    Ok(0)
}

fn calls_of(alloc: Global, row: &Row) -> Result<u64, JournalError> {
    let bytes = bytes_of(alloc, &row.file)?;
    calls(alloc, &bytes, row)
}

fn first_wrong(alloc: Global, rows: &[Row]) -> Result<Option<usize>, JournalError> {
    for (k, row) in rows.iter().enumerate() {
        if !is_so(alloc, row)? || calls_of(alloc, row)? == 0 {
            return Ok(Some(k));
        }
    }
    Ok(None)
}

#[test]
fn a_run_gives_the_map_after_it_and_each_stop_one_of_both(rt: HostRuntime) -> Result<(), Fail> {
    pass(first_wrong(rt.alloc(), &ROWS))
}

// What a crash leaves.
fn left_image(alloc: Global, disk: &MemDisk, choice: Choice) -> Result<Vec<u8>, AllocError> {
    disk.crash(choice)?.content().to_vec(alloc)
}

// The number of calls of the row's run over what a crash leaves, or 0.
fn calls_after(
    alloc: Global,
    disk: &MemDisk,
    row: &Row,
    choice: Choice,
) -> Result<u64, JournalError> {
    let bytes = left_image(alloc, disk, choice)?;
    calls(alloc, &bytes, row)
}

fn crashes_are_safe(alloc: Global, disk: &MemDisk, row: &Row) -> Result<bool, JournalError> {
    for choice in CRASHES {
        if calls_after(alloc, disk, row, choice)? == 0 {
            return Ok(false);
        }
    }
    Ok(true)
}

// Whether each crash of a run that stops at this call leaves a file of which the same is true.
fn is_safe_twice(alloc: Global, bytes: &[u8], row: &Row, stop: u64) -> Result<bool, JournalError> {
    let mut disk = disk_of(alloc, bytes)?;
    disk.stop_from(stop);
    let _ = run(alloc, &mut disk, row.commit);
    crashes_are_safe(alloc, &disk, row)
}

// Whether each stop of the row's run over these bytes is followed safely by another.
fn are_safe_twice(alloc: Global, bytes: &[u8], row: &Row) -> Result<bool, JournalError> {
    let stops = calls(alloc, bytes, row)?;
    for stop in 0..stops {
        if !is_safe_twice(alloc, bytes, row, stop)? {
            return Ok(false);
        }
    }
    Ok(stops > 0)
}

fn survives_two_stops(alloc: Global, row: &Row) -> Result<bool, JournalError> {
    let bytes = bytes_of(alloc, &row.file)?;
    are_safe_twice(alloc, &bytes, row)
}

#[test]
fn a_second_stop_leaves_the_map_too(rt: HostRuntime) -> Result<(), Fail> {
    pass_if(survives_two_stops(rt.alloc(), &SHARED))
}

// A file that isn't formatted: what it begins with, its length, and its map.
type Unborn = (&'static [u8], usize, Map<'static>);

const UNBORN: [Unborn; 10] = [
    (b"", 0, &[]),
    // One byte, whatever it is.
    (b"\xA5", 1, &[]),
    (b"\x01", 1, &[]),
    // After 0 may stand anything.
    (b"\0", 2, &[]),
    (b"\0TSTORE01", 36863, &[]),
    (b"\0", 37119, &[0]),
    (b"\0SSTORE01", 37120, &[0, 0]),
    // After another closed gate the magic has to stand.
    (b"\x01SSTORE01", 9, &[]),
    (b"\x01SSTORE01", 36863, &[]),
    (b"\xFFSSTORE01", 37120, &[0, 0]),
];

// Settling formats the file, and leaves its map.
fn birth_row(unborn: &Unborn) -> Row {
    Row {
        file: File::Begun(unborn.0, unborn.1),
        commit: NOTHING,
        before: unborn.2,
        after: unborn.2,
        length: if unborn.1 < 36864 { 36864 } else { unborn.1 },
        in_use: 0,
    }
}

fn is_born(alloc: Global, unborn: &Unborn) -> Result<bool, JournalError> {
    let row = birth_row(unborn);
    Ok(is_so(alloc, &row)? && calls_of(alloc, &row)? > 0)
}

fn first_unborn(alloc: Global) -> Result<Option<usize>, JournalError> {
    for (k, unborn) in UNBORN.iter().enumerate() {
        if !is_born(alloc, unborn)? {
            return Ok(Some(k));
        }
    }
    Ok(None)
}

#[test]
fn a_birth_leaves_zeros_at_each_stop(rt: HostRuntime) -> Result<(), Fail> {
    pass(first_unborn(rt.alloc()))
}

// The calls before the second sync of a commit: 3 of open, 1 of settle, a write, a sync and a write.
const SECOND_SYNC: u64 = 7;

// The same before the first sync, where an entry is in use when the disk is opened: 4 of open, 5 of settle, a write.
const NEXT_SYNC: u64 = 10;

// Whether a crash leaves the map.
fn leaves(
    alloc: Global,
    disk: &MemDisk,
    choice: Choice,
    map: Map<'_>,
) -> Result<bool, JournalError> {
    let mut left = disk.crash(choice)?;
    Ok(is_held(alloc, &mut left, map))
}

// A file of one slot.
fn one_slot(alloc: Global) -> Result<MemDisk, AllocError> {
    disk_with(alloc, &File::Formed(&[], &[3]))
}

// Whether a run that commits 7 into its slot fails by the disk.
fn fails<D: Disk>(alloc: Global, disk: &mut D) -> bool {
    matches!(run(alloc, disk, (7, 0)), Err(JournalError::Disk))
}

// Whether a run fails, and the bytes of the gate decide which map a crash leaves.
fn gate_decides(alloc: Global, disk: &mut MemDisk) -> Result<bool, JournalError> {
    let failed = fails(alloc, disk);
    let closed = leaves(alloc, disk, Choice::Fill(0), &[3])?;
    let open = leaves(alloc, disk, Choice::Fill(0xA5), &[7])?;
    Ok(failed && closed && open)
}

fn decides(alloc: Global) -> Result<bool, JournalError> {
    let mut disk = one_slot(alloc)?;
    disk.stop_from(SECOND_SYNC);
    gate_decides(alloc, &mut disk)
}

#[test]
fn the_gate_alone_decides(rt: HostRuntime) -> Result<(), Fail> {
    pass_if(decides(rt.alloc()))
}

// Whether a run fails at the last sync of its commit, and a second one at the first sync, and what the first committed is
// durable then.
fn is_used_again(alloc: Global, disk: &mut MemDisk) -> Result<bool, JournalError> {
    disk.fail_at([SECOND_SYNC].to_vec(alloc)?);
    let first = fails(alloc, disk);
    let stop = disk.calls().saturating_add(NEXT_SYNC);
    disk.stop_from(stop);
    let second = fails(alloc, disk) && disk.calls() == stop.saturating_add(1);
    Ok(first && second && survives(alloc, disk, &[&[7]])?)
}

fn is_durable(alloc: Global) -> Result<bool, JournalError> {
    let mut disk = one_slot(alloc)?;
    is_used_again(alloc, &mut disk)
}

// The last sync of a commit fails. The same disk is opened and settled again, without a crash, and the first sync of the
// next commit fails: by then the first commit is durable.
#[test]
fn a_disk_is_used_again_after_a_failed_sync(rt: HostRuntime) -> Result<(), Fail> {
    pass_if(is_durable(rt.alloc()))
}
