// Records whose pages are cached, against a journal over the same bytes.
ghost use Rattle.std.specs.Prelude.{◌≡◌, ◌*◌, ◌<◌, ◌≤◌, ℕ, IsTrue, IfOk, OnOk};
ghost use Rattle.ss_outside.specs.Disk.{OfContent};
ghost use Rattle.ss_outside.specs.MemDisk.{view_of};
ghost use Rattle.ss_journal.specs.Kept.{IsKept, IsRunning, IsSettled};
ghost use Rattle.ss_journal.specs.Puts.{slots_fit, IsTxn};
ghost use Rattle.ss_records.specs.Kept.{AreAtRest, AreKept};

pub mod rows;

use crate::journal::files::disk_of;
use crate::journal::runs;
use crate::passing::pass;
use crate::reading::{fresh, read};
use ss_base::SLOT_SIZE;
use ss_journal::{Journal, JournalError, MOST_SLOTS, PAGE_SLOTS, Put, Txn};
use ss_outside::{Disk, Failed, MemDisk};
use ss_records::Records;
use std::alloc::Global;
use std::test::Fail;

// A slot, and the byte that fills it.
pub type Fill = (u32, u8);

// The put, which fits where its slot isn't behind the extent.
fn txn_of(fill: Fill) -> Txn
    requires { fill.0 < MOST_SLOTS }
    ensures txn { IsTxn result.items }
    ensures fit { (extent : ℕ) → fill.0 ≤ extent → IsTrue (slots_fit result.items extent) }
{
    let mut txn = Txn::new();
    txn.push(Put {
        slot: fill.0,
        bytes: [fill.1; SLOT_SIZE],
    });
    txn
}

// Stages a put, if its slot isn't behind the lowest free one.
fn stage<D: Disk>(records: &mut Records, disk: &mut D, fill: Fill) -> Result<(), Failed>
    requires settled { IsSettled records.old.journal }
    requires one_disk { OfContent (D.seen disk.old) (AreKept records.old) }
    ensures settled { OnOk result (IsSettled records.new.journal) }
    ensures one_disk { OfContent (D.seen disk.new) (λ content. OnOk result (AreKept records.new content)) }
{
    records.make_room(disk)?;
    let Some(free) = records.lowest_free() else {
        return Ok(());
    };
    if fill.0 <= free {
        records.stage(&txn_of(fill));
    }
    Ok(())
}

// The same, sealed.
pub fn put<D: Disk>(records: &mut Records, disk: &mut D, fill: Fill) -> Result<(), Failed>
    requires settled { IsSettled records.old.journal }
    requires one_disk { OfContent (D.seen disk.old) (AreKept records.old) }
    ensures settled { OnOk result (AreAtRest records.new) }
    ensures one_disk { OfContent (D.seen disk.new) (λ content. OnOk result (AreKept records.new content)) }
{
    stage(records, disk, fill)?;
    records.seal(disk)
}

fn commit<D: Disk>(journal: &mut Journal, disk: &mut D, fill: Fill) -> Result<(), Failed>
    requires settled { IsSettled journal.old }
    requires one_disk { OfContent (D.seen disk.old) (IsKept journal.old) }
    ensures settled { OnOk result (IsSettled journal.new) }
    ensures one_disk { OfContent (D.seen disk.new) (λ content. OnOk result (IsKept journal.new content)) }
{
    if fill.0 >= MOST_SLOTS || fill.0 > journal.extent() {
        return Ok(());
    }
    runs::stage(journal, disk, &txn_of(fill))?;
    journal.seal(disk)
}

// Records over a disk that had no slot, with these bytes in the first ones, all of them in the file.
fn filled<D: Disk>(alloc: Global, disk: &mut D, slots: u32) -> Result<Records, JournalError>
    ensures settled { IfOk result AreAtRest }
    ensures one_disk { OfContent (D.seen disk.new) (λ content. IfOk result (λ records. AreKept records content)) }
{
    let mut records = fresh(alloc, disk)?;
    records.settle(disk)?;
    for slot in 0..slots {
        put(&mut records, disk, (slot, (slot % 251) as u8 + 1))?;
    }
    records.settle(disk)?;
    Ok(records)
}

// How many slots there are: 70 pages, and a page of ten slots.
const SLOTS: u32 = 2250;

// Step number k is about a slot of one of the 70 pages. Each two after one another are about the same page.
fn slot_at(k: u32) -> u32
    requires { k < 300 }
    ensures { result < 70 * 32 }
{
    k / 2 * 37 % 70 * PAGE_SLOTS + k * 11 % PAGE_SLOTS
}

// Whether the slot reads the same from both.
fn is_same<D: Disk>(
    records: &mut Records,
    disk: &mut D,
    journal: &mut Journal,
    other: &mut D,
    slot: u32,
) -> Result<bool, JournalError>
    requires slot { slot < MOST_SLOTS }
    requires settled { AreAtRest records.old × IsSettled journal.old }
    requires one_disk { OfContent (D.seen disk.old) (AreKept records.old) }
    requires other_disk { OfContent (D.seen other.old) (IsKept journal.old) }
    ensures settled { OnOk result (AreAtRest records.new × IsSettled journal.new) }
    ensures one_disk { OfContent (D.seen disk.new) (λ content. OnOk result (AreKept records.new content)) }
    ensures other_disk { OfContent (D.seen other.new) (λ content. OnOk result (IsKept journal.new content)) }
{
    let first = read(records, disk, slot)?;
    let second = journal.read(other, slot)?;
    Ok(first == second)
}

// Whether the slot reads the same after step number k, which is about it: each third step puts, and none frees the slot.
fn is_same_after<D: Disk>(
    records: &mut Records,
    disk: &mut D,
    journal: &mut Journal,
    other: &mut D,
    slot: u32,
    k: u32,
) -> Result<bool, JournalError>
    requires slot { slot < MOST_SLOTS }
    requires settled { AreAtRest records.old × IsSettled journal.old }
    requires one_disk { OfContent (D.seen disk.old) (AreKept records.old) }
    requires other_disk { OfContent (D.seen other.old) (IsKept journal.old) }
    ensures settled { OnOk result (AreAtRest records.new × IsSettled journal.new) }
    ensures one_disk { OfContent (D.seen disk.new) (λ content. OnOk result (AreKept records.new content)) }
    ensures other_disk { OfContent (D.seen other.new) (λ content. OnOk result (IsKept journal.new content)) }
{
    if k % 3 != 0 {
        return is_same(records, disk, journal, other, slot);
    }
    put(records, disk, (slot, (k % 255) as u8 + 1))?;
    commit(journal, other, (slot, (k % 255) as u8 + 1))?;
    is_same(records, disk, journal, other, slot)
}

// The first step at which another byte is read.
fn first_other<D: Disk>(
    records: &mut Records,
    disk: &mut D,
    journal: &mut Journal,
    other: &mut D,
) -> Result<Option<usize>, JournalError>
    requires settled { AreAtRest records.old × IsSettled journal.old }
    requires one_disk { OfContent (D.seen disk.old) (AreKept records.old) }
    requires other_disk { OfContent (D.seen other.old) (IsKept journal.old) }
{
    for k in 0..300u32 {
        let slot = slot_at(k);
        if !is_same_after(records, disk, journal, other, slot, k)? {
            return Ok(Some(k as usize));
        }
    }
    Ok(None)
}

// The same of records and of a journal that is opened over the bytes that they leave.
fn first_apart(
    alloc: Global,
    records: &mut Records,
    disk: &mut MemDisk,
) -> Result<Option<usize>, JournalError>
    requires settled { AreAtRest records.old }
    requires one_disk { OfContent (view_of disk.old) (AreKept records.old) }
{
    let mut other = disk_of(alloc, disk.content())?;
    let mut journal = runs::settled(alloc, &mut other)?;
    let apart = first_other(records, disk, &mut journal, &mut other)?;
    Ok(if apart.is_none() && disk.content() != other.content() {
        Some(300)
    } else {
        apart
    })
}

fn first_wrong_step(alloc: Global) -> Result<Option<usize>, JournalError> {
    let mut disk = disk_of(alloc, &[])?;
    let mut records = filled(alloc, &mut disk, SLOTS)?;
    first_apart(alloc, &mut records, &mut disk)
}

#[test]
fn cached_pages_read_as_a_journal_does(rt: HostRuntime) -> Result<(), Fail> {
    pass(first_wrong_step(rt.alloc()))
}

// Reads the first slot of each of these pages.
fn read_firsts<D: Disk>(
    records: &mut Records,
    disk: &mut D,
    pages: (u32, u32),
) -> Result<(), JournalError>
    requires most { pages.1 ≤ 70 }
    requires running { IsRunning records.old.journal }
    requires one_disk { OfContent (D.seen disk.old) (AreKept records.old) }
    ensures running { OnOk result (IsRunning records.new.journal) }
    ensures one_disk { OfContent (D.seen disk.new) (λ content. OnOk result (AreKept records.new content)) }
{
    for page in pages.0..pages.1 {
        read(records, disk, page * PAGE_SLOTS)?;
    }
    Ok(())
}

// How many calls of the disk that takes.
fn calls_of(
    records: &mut Records,
    disk: &mut MemDisk,
    pages: (u32, u32),
) -> Result<u64, JournalError>
    requires most { pages.1 ≤ 70 }
    requires running { IsRunning records.old.journal }
    requires one_disk { OfContent (view_of disk.old) (AreKept records.old) }
    ensures running { OnOk result (IsRunning records.new.journal) }
    ensures one_disk { OfContent (view_of disk.new) (λ content. OnOk result (AreKept records.new content)) }
{
    let before = disk.calls();
    read_firsts(records, disk, pages)?;
    Ok(disk.calls().wrapping_sub(before))
}

// From which page on to which, and how many calls.
const ROUNDS: [((u32, u32), u64); 7] = [
    ((0, 64), 64),
    ((0, 64), 0),
    // Page 0 was the least recently used, and then page 1.
    ((64, 65), 1),
    ((0, 1), 1),
    ((2, 64), 0),
    // Now it is page 64.
    ((1, 2), 1),
    ((64, 65), 1),
];

fn first_wrong_round(
    records: &mut Records,
    disk: &mut MemDisk,
) -> Result<Option<usize>, JournalError>
    requires running { IsRunning records.old.journal }
    requires one_disk { OfContent (view_of disk.old) (AreKept records.old) }
{
    for (k, (pages, calls)) in ROUNDS.iter().enumerate() {
        let (first, end) = *pages;
        if calls_of(records, disk, (first, end.min(70)))? != *calls {
            return Ok(Some(k));
        }
    }
    Ok(None)
}

fn first_round(alloc: Global) -> Result<Option<usize>, JournalError> {
    let mut disk = disk_of(alloc, &[])?;
    let mut records = filled(alloc, &mut disk, SLOTS)?;
    first_wrong_round(&mut records, &mut disk)
}

#[test]
fn the_least_recently_used_page_goes(rt: HostRuntime) -> Result<(), Fail> {
    pass(first_round(rt.alloc()))
}
