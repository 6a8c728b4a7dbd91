// Records in use, over a disk in memory.
ghost use Rattle.std.specs.Prelude.{◌≡◌, OnOk};
ghost use Rattle.ss_outside.specs.Disk.{OfContent};
ghost use Rattle.ss_journal.specs.Kept.{IsRunning, IsSealed};
ghost use Rattle.ss_records.specs.Kept.{AreAtRest, AreKept};

use crate::cached::rows::is_left;
use crate::cached::{Fill, put};
use crate::journal::files::disk_of;
use crate::passing::pass_if;
use crate::reading::fresh;
use ss_journal::JournalError;
use ss_outside::{Disk, Failed};
use ss_records::Records;
use std::alloc::Global;
use std::test::Fail;

// The number of live slots and the lowest free slot.
type Seen = (u32, u32);

fn is_seen(records: &Records, seen: Seen) -> bool {
    records.live() == seen.0 && matches!(records.lowest_free(), Some(slot) if slot == seen.1)
}

// What is put, one after the other, and what is seen then.
const STEPS: [(&[Fill], Seen); 5] = [
    (&[(0, 1)], (1, 1)),
    (&[(1, 2), (2, 3), (3, 4)], (4, 4)),
    (&[(3, 0), (1, 0)], (2, 1)),
    (&[(1, 5)], (3, 3)),
    (&[(3, 9), (2, 0), (1, 0), (0, 0)], (1, 0)),
];

fn take<D: Disk>(records: &mut Records, disk: &mut D, fills: &[Fill]) -> Result<(), Failed>
    requires settled { AreAtRest records.old }
    requires one_disk { OfContent (D.seen disk.old) (AreKept records.old) }
    ensures settled { OnOk result (AreAtRest records.new) }
    ensures one_disk { OfContent (D.seen disk.new) (λ content. OnOk result (AreKept records.new content)) }
{
    for fill in fills {
        put(records, disk, *fill)?;
    }
    Ok(())
}

// The first step after which something else is seen.
fn first_wrong_step<D: Disk>(
    records: &mut Records,
    disk: &mut D,
) -> Result<Option<usize>, JournalError>
    requires running { IsRunning records.old.journal }
    requires sealed { IsSealed records.old.journal }
    requires one_disk { OfContent (D.seen disk.old) (AreKept records.old) }
{
    records.settle(disk)?;
    'steps: for (row, (fills, left)) in STEPS.iter().enumerate() {
        take(records, disk, fills)?;
        if !is_seen(records, *left) {
            return Ok(Some(row));
        }
    }
    Ok(None)
}

fn first_wrong<D: Disk>(alloc: Global, disk: &mut D) -> Result<Option<usize>, JournalError> {
    let mut records = fresh(alloc, disk)?;
    first_wrong_step(&mut records, disk)
}

fn is_so(alloc: Global) -> Result<bool, JournalError> {
    let mut disk = disk_of(alloc, &[])?;
    let wrong = first_wrong(alloc, &mut disk)?;
    Ok(wrong.is_none() && is_left(alloc, &mut disk, &[(0, 0), (2, 0), (3, 9)])?)
}

#[test]
fn slots_are_freed_and_taken_again(rt: HostRuntime) -> Result<(), Fail> {
    pass_if(is_so(rt.alloc()))
}
