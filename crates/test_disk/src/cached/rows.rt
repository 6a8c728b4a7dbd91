// Records whose pages are cached, read between puts that are staged, sealed and settled.
ghost use Rattle.std.specs.Prelude.{◌≡◌, OnOk};
ghost use Rattle.ss_outside.specs.Disk.{OfContent};
ghost use Rattle.ss_outside.specs.MemDisk.{view_of};
ghost use Rattle.ss_journal.specs.Kept.{IsKept, IsRunning, IsSettled};
ghost use Rattle.ss_records.specs.Kept.{AreKept};

use super::{Fill, filled, stage};
use crate::journal::files::disk_of;
use crate::journal::runs::opened;
use crate::passing::pass;
use crate::reading::read;
use ss_base::SLOT_SIZE;
use ss_journal::{Journal, JournalError, MOST_SLOTS};
use ss_outside::MemDisk;
use ss_records::Records;
use std::alloc::Global;
use std::test::Fail;

// A slot, the byte that fills it, and how many calls of the disk it takes to read it.
type Seen = (Fill, u64);

#[derive(Clone, Copy)]
enum Step {
    // A put is staged, without a call of the disk.
    Stage(Fill),
    Read(Seen),
    // What is staged is sealed, by so many calls of the disk.
    Seal(u64),
    // It is sealed, and comes into the slots.
    Settle,
}

// How many slots there are, full of 1, 2 and so on, what is done, and what a journal reads that is opened over the disk then.
type Row = (u32, &'static [Step], &'static [Fill]);

const ROWS: [Row; 8] = [
    // A slot is read, then one of the same page, and one past the extent, which is put later. Puts come into the page that is cached,
    // and stay in it when they come into their slots.
    (
        2,
        &[
            Step::Read(((1, 2), 1)),
            Step::Read(((0, 1), 0)),
            Step::Read(((2, 0), 0)),
            Step::Settle,
            Step::Read(((1, 2), 0)),
            Step::Stage((2, 9)),
            Step::Seal(4),
            Step::Read(((2, 9), 0)),
            Step::Stage((0, 5)),
            Step::Settle,
            Step::Read(((0, 5), 0)),
            Step::Read(((3, 0), 0)),
        ],
        &[(0, 5), (1, 2), (2, 9)],
    ),
    // The slot past the extent is the first of a page, which isn't cached when it is put.
    (
        32,
        &[
            Step::Read(((32, 0), 0)),
            Step::Stage((32, 9)),
            Step::Seal(4),
            Step::Read(((32, 9), 1)),
            Step::Stage((32, 8)),
            Step::Seal(4),
            Step::Read(((32, 8), 0)),
            Step::Read(((31, 32), 1)),
        ],
        &[(31, 32), (32, 8)],
    ),
    // Entries in use put into one slot twice, and none is in the file.
    (
        0,
        &[
            Step::Stage((0, 4)),
            Step::Seal(4),
            Step::Stage((1, 5)),
            Step::Seal(4),
            Step::Stage((0, 6)),
            Step::Seal(4),
            Step::Read(((0, 6), 1)),
            Step::Read(((1, 5), 0)),
            Step::Settle,
            Step::Read(((0, 6), 0)),
        ],
        &[(0, 6), (1, 5)],
    ),
    // The page is cached: puts that are staged come into it, and stay in it when they are sealed.
    (
        2,
        &[
            Step::Read(((0, 1), 1)),
            Step::Stage((1, 9)),
            Step::Read(((1, 9), 0)),
            Step::Stage((2, 8)),
            Step::Read(((2, 8), 0)),
            Step::Seal(4),
            Step::Read(((1, 9), 0)),
            Step::Read(((2, 8), 0)),
            Step::Read(((0, 1), 0)),
        ],
        &[(0, 1), (1, 9), (2, 8)],
    ),
    // It isn't: they are laid over the page that is read. Then nothing is left to seal.
    (
        2,
        &[
            Step::Stage((1, 9)),
            Step::Read(((1, 9), 1)),
            Step::Read(((0, 1), 0)),
            Step::Seal(4),
            Step::Read(((1, 9), 0)),
            Step::Seal(0),
        ],
        &[(0, 1), (1, 9)],
    ),
    // The last put into a slot counts, over an entry in use too, and also one of zeros.
    (
        2,
        &[
            Step::Stage((0, 5)),
            Step::Seal(4),
            Step::Stage((0, 6)),
            Step::Stage((0, 7)),
            Step::Read(((0, 7), 1)),
            Step::Stage((1, 0)),
            Step::Read(((1, 0), 0)),
            Step::Seal(4),
            Step::Stage((0, 8)),
            Step::Read(((0, 8), 0)),
            Step::Seal(4),
            Step::Read(((1, 0), 0)),
        ],
        &[(0, 8), (1, 0)],
    ),
    // What isn't sealed isn't on the disk.
    (
        2,
        &[
            Step::Stage((0, 5)),
            Step::Seal(4),
            Step::Stage((0, 6)),
            Step::Stage((1, 7)),
            Step::Read(((0, 6), 1)),
            Step::Read(((1, 7), 0)),
        ],
        &[(0, 5), (1, 2)],
    ),
    // There was no slot.
    (
        0,
        &[
            Step::Stage((0, 1)),
            Step::Read(((0, 1), 1)),
            Step::Seal(4),
            Step::Read(((0, 1), 0)),
        ],
        &[(0, 1)],
    ),
];

// Whether a put is staged without a call.
fn stages(records: &mut Records, disk: &mut MemDisk, fill: Fill) -> Result<bool, JournalError>
    requires settled { IsSettled records.old.journal }
    requires one_disk { OfContent (view_of disk.old) (AreKept records.old) }
    ensures settled { OnOk result (IsSettled records.new.journal) }
    ensures one_disk { OfContent (view_of disk.new) (λ content. OnOk result (AreKept records.new content)) }
{
    let before = disk.calls();
    stage(records, disk, fill)?;
    Ok(disk.calls() == before)
}

// Whether a slot reads as the row says, by so many calls.
fn is_seen(records: &mut Records, disk: &mut MemDisk, seen: Seen) -> Result<bool, JournalError>
    requires running { IsRunning records.old.journal }
    requires one_disk { OfContent (view_of disk.old) (AreKept records.old) }
    ensures journal { OnOk result (records.new.journal ≡ records.old.journal) }
    ensures one_disk { OfContent (view_of disk.new) (λ content. OnOk result (AreKept records.new content)) }
{
    let ((slot, byte), calls) = seen;
    let before = disk.calls();
    let bytes = read(records, disk, slot.min(MOST_SLOTS - 1))?;
    Ok(bytes == [byte; SLOT_SIZE] && disk.calls().wrapping_sub(before) == calls)
}

fn seals(records: &mut Records, disk: &mut MemDisk, calls: u64) -> Result<bool, JournalError>
    requires settled { IsSettled records.old.journal }
    requires one_disk { OfContent (view_of disk.old) (AreKept records.old) }
    ensures settled { OnOk result (IsSettled records.new.journal) }
    ensures one_disk { OfContent (view_of disk.new) (λ content. OnOk result (AreKept records.new content)) }
{
    let before = disk.calls();
    records.seal(disk)?;
    Ok(disk.calls().wrapping_sub(before) == calls)
}

fn settles(records: &mut Records, disk: &mut MemDisk) -> Result<bool, JournalError>
    requires settled { IsSettled records.old.journal }
    requires one_disk { OfContent (view_of disk.old) (AreKept records.old) }
    ensures settled { OnOk result (IsSettled records.new.journal) }
    ensures one_disk { OfContent (view_of disk.new) (λ content. OnOk result (AreKept records.new content)) }
{
    records.seal(disk)?;
    records.settle(disk)?;
    Ok(true)
}

fn takes(records: &mut Records, disk: &mut MemDisk, step: Step) -> Result<bool, JournalError>
    requires settled { IsSettled records.old.journal }
    requires one_disk { OfContent (view_of disk.old) (AreKept records.old) }
    ensures settled { OnOk result (IsSettled records.new.journal) }
    ensures one_disk { OfContent (view_of disk.new) (λ content. OnOk result (AreKept records.new content)) }
{
    match step {
        Step::Stage(fill) => stages(records, disk, fill),
        Step::Read(seen) => is_seen(records, disk, seen),
        Step::Seal(calls) => seals(records, disk, calls),
        Step::Settle => settles(records, disk),
    }
}

fn are_taken(
    records: &mut Records,
    disk: &mut MemDisk,
    steps: &[Step],
) -> Result<bool, JournalError>
    requires settled { IsSettled records.old.journal }
    requires one_disk { OfContent (view_of disk.old) (AreKept records.old) }
{
    for step in steps {
        if !takes(records, disk, *step)? {
            return Ok(false);
        }
    }
    Ok(true)
}

fn goes(alloc: Global, disk: &mut MemDisk, row: &Row) -> Result<bool, JournalError> {
    let mut records = filled(alloc, disk, row.0)?;
    are_taken(&mut records, disk, row.1)
}

fn are_found(
    journal: &mut Journal,
    disk: &mut MemDisk,
    found: &[Fill],
) -> Result<bool, JournalError>
    requires running { IsRunning journal.old }
    requires one_disk { OfContent (view_of disk.old) (IsKept journal.old) }
{
    for fill in found {
        let bytes = journal.read(disk, fill.0.min(MOST_SLOTS - 1))?;
        if bytes != [fill.1; SLOT_SIZE] {
            return Ok(false);
        }
    }
    Ok(true)
}

pub fn is_left(alloc: Global, disk: &mut MemDisk, found: &[Fill]) -> Result<bool, JournalError> {
    let mut journal = opened(alloc, disk)?;
    are_found(&mut journal, disk, found)
}

fn is_row(alloc: Global, row: &Row) -> Result<bool, JournalError> {
    let mut disk = disk_of(alloc, &[])?;
    let gone = goes(alloc, &mut disk, row)?;
    Ok(gone && is_left(alloc, &mut disk, row.2)?)
}

fn first_wrong(alloc: Global) -> Result<Option<usize>, JournalError> {
    for (k, row) in ROWS.iter().enumerate() {
        if !is_row(alloc, row)? {
            return Ok(Some(k));
        }
    }
    Ok(None)
}

#[test]
fn slots_are_read_from_cached_pages(rt: HostRuntime) -> Result<(), Fail> {
    pass(first_wrong(rt.alloc()))
}
