// The disk in memory: what its calls leave, and what a crash leaves of that.
ghost use Rattle.std.specs.Prelude.{◌≤◌, length};

use crate::passing::{pass, pass_if};
use ss_journal::JournalError;
use ss_outside::{Choice, Disk, Failed, LONGEST_DISK, MemDisk};
use std::alloc::{AllocError, Global};
use std::test::Fail;

// What stands on a disk of 1, 2, 3, 4 after two bytes over 2 and 3, a sync, two bytes past the end and one byte over 1,
// where these calls are listed, and which of them failed.
struct Row {
    failing: &'static [u64],
    stop: Option<u64>,
    failed: [bool; 4],
    content: &'static [u8],
    lost: &'static [u8],
    zeros: &'static [u8],
    filled: &'static [u8],
}

const ROWS: [Row; 4] = [
    Row {
        failing: &[],
        stop: None,
        failed: [false, false, false, false],
        content: &[30, 10, 11, 4, 20, 21],
        lost: &[1, 10, 11, 4],
        zeros: &[0, 10, 11, 4, 0, 0],
        filled: &[0xA5, 10, 11, 4, 0xA5, 0xA5],
    },
    // The first write is listed: it writes nothing, and after the sync nothing of it is pending.
    Row {
        failing: &[0],
        stop: None,
        failed: [true, false, false, false],
        content: &[30, 2, 3, 4, 20, 21],
        lost: &[1, 2, 3, 4],
        zeros: &[0, 2, 3, 4, 0, 0],
        filled: &[0xA5, 2, 3, 4, 0xA5, 0xA5],
    },
    // The sync is listed: all stays pending.
    Row {
        failing: &[1],
        stop: None,
        failed: [false, true, false, false],
        content: &[30, 10, 11, 4, 20, 21],
        lost: &[1, 2, 3, 4],
        zeros: &[0, 0, 0, 4, 0, 0],
        filled: &[0xA5, 0xA5, 0xA5, 4, 0xA5, 0xA5],
    },
    // Both writes since the sync are listed: they write nothing, but their ranges are pending.
    Row {
        failing: &[],
        stop: Some(2),
        failed: [false, false, true, true],
        content: &[1, 10, 11, 4],
        lost: &[1, 10, 11, 4],
        zeros: &[0, 10, 11, 4, 0, 0],
        filled: &[0xA5, 10, 11, 4, 0xA5, 0xA5],
    },
];

// Whether a write fails that begins within the content.
fn write_fails(disk: &mut MemDisk, at: u8, bytes: &[u8; 2]) -> bool {
    usize::from(at) > disk.content().len() || disk.write_at(u64::from(at), bytes).is_err()
}

fn run(disk: &mut MemDisk) -> [bool; 4] {
    let over = write_fails(disk, 1, &[10, 11]);
    let synced = disk.sync().is_err();
    let past = write_fails(disk, 4, &[20, 21]);
    [over, synced, past, disk.write_at(0, &[30]).is_err()]
}

fn disk_of(alloc: Global) -> Result<MemDisk, AllocError> {
    MemDisk::new(alloc, [1, 2, 3, 4].to_vec(alloc)?)
}

fn leaves(disk: &MemDisk, choice: Choice, image: &[u8]) -> Result<bool, AllocError> {
    Ok(disk.crash(choice)?.content() == image)
}

// Whether each crash leaves the row's image.
fn leaves_images(disk: &MemDisk, row: &Row) -> Result<bool, AllocError> {
    let lost = leaves(disk, Choice::Lost, row.lost)?;
    let kept = leaves(disk, Choice::Kept, row.content)?;
    let zeros = leaves(disk, Choice::Fill(0), row.zeros)?;
    let filled = leaves(disk, Choice::Fill(0xA5), row.filled)?;
    Ok(lost && kept && zeros && filled)
}

// How many bytes it holds, calls it had, syncs that succeeded, and calls that found no memory.
fn counts(disk: &MemDisk) -> (usize, u64, u64, u64) {
    (
        disk.content().len(),
        disk.calls(),
        disk.syncs(),
        disk.short(),
    )
}

fn is_content(disk: &MemDisk, bytes: &[u8]) -> bool {
    disk.content() == bytes
}

// Whether the calls, and what stands on the disk after them, are as the row says.
fn runs(disk: &mut MemDisk, row: &Row) -> bool {
    let failed = run(disk);
    let syncs = u64::from(!row.failed[1]);
    failed == row.failed
        && counts(disk) == (row.content.len(), 4, syncs, 0)
        && is_content(disk, row.content)
}

fn goes(alloc: Global, disk: &mut MemDisk, row: &Row) -> Result<bool, AllocError> {
    disk.fail_at(row.failing.to_vec(alloc)?);
    if let Some(first) = row.stop {
        disk.stop_from(first);
    }
    let ran = runs(disk, row);
    Ok(leaves_images(disk, row)? && ran)
}

fn is_so(alloc: Global, row: &Row) -> Result<bool, AllocError> {
    let mut disk = disk_of(alloc)?;
    goes(alloc, &mut disk, row)
}

fn first_wrong(alloc: Global) -> Result<Option<usize>, JournalError> {
    for (k, row) in ROWS.iter().enumerate() {
        if !is_so(alloc, row)? {
            return Ok(Some(k));
        }
    }
    Ok(None)
}

#[test]
fn a_crash_leaves_the_chosen_image(rt: HostRuntime) -> Result<(), Fail> {
    pass(first_wrong(rt.alloc()))
}

// Replaces what a disk begins with, and reads on from there.
fn replace<D: Disk>(disk: &mut D, bytes: &[u8], rest: &mut [u8]) -> Result<u64, Failed>
    requires { length bytes.now ≤ LONGEST_DISK }
{
    disk.write_at(0, bytes)?;
    disk.sync()?;
    disk.read_at(2, rest)?;
    disk.len()
}

fn reads_zeros<D: Disk>(disk: &mut D) -> bool {
    let mut rest = [9; 5];
    replace(disk, &[7], &mut rest) == Ok(4) && rest == [3, 4, 0, 0, 0]
}

// Whether these calls fail: a write, a read past the end, the length.
fn has_stopped<D: Disk>(disk: &mut D) -> bool {
    let mut rest = [9; 5];
    replace(disk, &[7], &mut rest) == Err(Failed)
        && disk.read_at(1 << 40, &mut rest) == Err(Failed)
        && disk.len() == Err(Failed)
}

fn reads_past_the_end(alloc: Global) -> Result<bool, JournalError> {
    let mut disk = disk_of(alloc)?;
    let zeros = reads_zeros(&mut disk);
    disk.stop_from(4);
    let stopped = has_stopped(&mut disk);
    Ok(zeros && stopped)
}

#[test]
fn a_read_past_the_end_gives_zeros(rt: HostRuntime) -> Result<(), Fail> {
    pass_if(reads_past_the_end(rt.alloc()))
}

// Whether a write of 64 bytes and a sync after it succeed.
fn overwritten<D: Disk>(disk: &mut D) -> (bool, bool) {
    let wrote = disk.write_at(0, &[7; 64]).is_ok();
    (wrote, disk.sync().is_ok())
}

// Whether the disk is as it was where they don't.
fn is_left(disk: &mut MemDisk) -> bool {
    let (wrote, synced) = overwritten(disk);
    let length = if wrote { 64 } else { 4 };
    let short = u64::from(!wrote) + u64::from(!synced);
    counts(disk) == (length, 2, u64::from(synced), short)
}

fn leaves_the_disk(alloc: Global) -> bool {
    match disk_of(alloc) {
        Ok(mut disk) => is_left(&mut disk),
        Err(AllocError) => true,
    }
}

// Passes with and without memory: run it with each allocation failing in turn.
#[test]
fn a_call_without_memory_leaves_the_disk(rt: HostRuntime) -> Result<(), Fail> {
    pass_if(Ok(leaves_the_disk(rt.alloc())))
}
