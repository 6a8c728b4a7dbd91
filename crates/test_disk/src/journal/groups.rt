// Groups of transactions, which are staged in memory and come to the disk together.
ghost use Rattle.std.specs.Prelude.{◌≤◌, IfOk, IfSome, IsTrue, OnOk};
ghost use Rattle.ss_outside.specs.Disk.{OfContent};
ghost use Rattle.ss_outside.specs.MemDisk.{view_of};
ghost use Rattle.ss_journal.specs.Kept.{IsKept, IsSettled};
ghost use Rattle.ss_journal.specs.Puts.{slots_fit, IsTxn};

use super::files::{File, Map, bytes_of, disk_of, entries_in, has};
use super::runs::{commit_txn, put_of, settled, stage};
use super::stops::{CRASHES, survives, survives_again};
use crate::passing::pass;
use ss_journal::{Journal, JournalError, Txn};
use ss_outside::{Disk, Failed, MemDisk};
use std::alloc::Global;
use std::test::Fail;

#[derive(Clone, Copy, PartialEq, Eq)]
enum Slots {
    // Each transaction puts into slot 0, and each second one into slot 1 too.
    Shared,
    // Each puts into the slot that is next, the first one into slot 0.
    Own,
}

// Transactions on a file of one slot: how many are sealed one by one before the group, how many the group has, after how many of
// all the entries are used up and room is made, or 0, and how many entries are in use at the end.
#[derive(Clone, Copy)]
struct Row(Slots, u32, u32, u32, usize);

// Of shared slots a group has one entry. Of slots of their own each four transactions have one.
const ROWS: [Row; 14] = [
    Row(Slots::Shared, 0, 1, 0, 1),
    Row(Slots::Shared, 0, 2, 0, 1),
    Row(Slots::Shared, 0, 63, 0, 1),
    Row(Slots::Shared, 0, 64, 0, 1),
    Row(Slots::Shared, 0, 65, 0, 1),
    Row(Slots::Shared, 0, 300, 0, 1),
    Row(Slots::Shared, 63, 2, 64, 1),
    Row(Slots::Own, 0, 1, 0, 1),
    Row(Slots::Own, 0, 2, 0, 1),
    Row(Slots::Own, 0, 63, 0, 16),
    Row(Slots::Own, 0, 64, 0, 16),
    Row(Slots::Own, 0, 65, 0, 17),
    Row(Slots::Own, 0, 300, 253, 12),
    Row(Slots::Own, 60, 14, 73, 1),
];

// The most transactions of a row.
const MOST: usize = 300;

// The byte that transaction k puts.
fn byte_of(k: u32) -> u8 {
    (k % 255) as u8 + 1
}

// The transaction that puts into slot k alone, if that fits the extent.
fn own_txn(k: u32, extent: u32) -> Option<Txn>
    ensures { IfSome result (λ txn. IsTxn txn.items × IsTrue (slots_fit txn.items extent)) }
{
    if k > extent || k as usize >= MOST {
        return None;
    }
    let mut txn = Txn::new();
    txn.push(put_of(k, byte_of(k)));
    Some(txn)
}

// Transaction k, if it fits the extent.
fn txn_of(slots: Slots, k: u32, extent: u32) -> Option<Txn>
    ensures { IfSome result (λ txn. IsTxn txn.items × IsTrue (slots_fit txn.items extent)) }
{
    if slots == Slots::Own {
        return own_txn(k, extent);
    }
    if extent == 0 {
        return None;
    }
    let second = if k % 2 == 1 { byte_of(k) } else { 0 };
    Some(commit_txn((byte_of(k), second), extent))
}

// How many slots are used after so many transactions.
fn used_after(slots: Slots, count: u32) -> usize
    ensures { result ≤ MOST }
{
    let most = if slots == Slots::Own { MOST } else { 2 };
    (count as usize).max(1).min(most)
}

// The bytes of the slots after so many transactions.
fn bytes_after(slots: Slots, count: u32) -> [u8; MOST] {
    let mut bytes = [0; MOST];
    for k in 0..count.min(MOST as u32) {
        if slots == Slots::Own {
            bytes[k as usize] = byte_of(k);
        } else {
            bytes[0] = byte_of(k);
            bytes[1] = if k % 2 == 1 { byte_of(k) } else { bytes[1] };
        }
    }
    bytes
}

// Makes room and stages transaction k, and seals it if it is one of those before the group.
fn take<D: Disk>(journal: &mut Journal, disk: &mut D, row: &Row, k: u32) -> Result<(), Failed>
    requires settled { IsSettled journal.old }
    requires one_disk { OfContent (D.seen disk.old) (IsKept journal.old) }
    ensures settled { OnOk result (IsSettled journal.new) }
    ensures one_disk { OfContent (D.seen disk.new) (λ content. OnOk result (IsKept journal.new content)) }
{
    if let Some(txn) = txn_of(row.0, k, journal.extent()) {
        stage(journal, disk, &txn)?;
    }
    if k < row.1 {
        return journal.seal(disk);
    }
    Ok(())
}

// Takes the first transactions of a row.
fn take_first<D: Disk>(
    journal: &mut Journal,
    disk: &mut D,
    row: &Row,
    count: u32,
) -> Result<(), JournalError>
    requires settled { IsSettled journal.old }
    requires one_disk { OfContent (D.seen disk.old) (IsKept journal.old) }
    ensures settled { OnOk result (IsSettled journal.new) }
    ensures one_disk { OfContent (D.seen disk.new) (λ content. OnOk result (IsKept journal.new content)) }
{
    for k in 0..count {
        take(journal, disk, row, k)?;
    }
    Ok(())
}

// A journal with them.
fn staged<D: Disk>(
    alloc: Global,
    disk: &mut D,
    row: &Row,
    count: u32,
) -> Result<Journal, JournalError>
    ensures settled { IfOk result (λ journal. IsSettled journal) }
    ensures one_disk { OfContent (D.seen disk.new) (λ content. IfOk result (λ journal. IsKept journal content)) }
{
    let mut journal = settled(alloc, disk)?;
    take_first(&mut journal, disk, row, count)?;
    Ok(journal)
}

fn seal<D: Disk>(journal: &mut Journal, disk: &mut D) -> Result<(), JournalError>
    requires settled { IsSettled journal.old }
    requires one_disk { OfContent (D.seen disk.old) (IsKept journal.old) }
    ensures settled { OnOk result (IsSettled journal.new) }
    ensures one_disk { OfContent (D.seen disk.new) (λ content. OnOk result (IsKept journal.new content)) }
{
    journal.seal(disk)?;
    Ok(())
}

// Stages and seals a group.
fn group<D: Disk>(alloc: Global, disk: &mut D, row: &Row) -> Result<(), JournalError> {
    let mut journal = staged(alloc, disk, row, row.1.saturating_add(row.2))?;
    seal(&mut journal, disk)
}

// Whether the journal shows a map before and after it is sealed.
fn shows_map<D: Disk>(
    journal: &mut Journal,
    disk: &mut D,
    map: Map<'_>,
) -> Result<bool, JournalError>
    requires settled { IsSettled journal.old }
    requires one_disk { OfContent (D.seen disk.old) (IsKept journal.old) }
{
    let before = has(journal, disk, map)?;
    seal(journal, disk)?;
    let after = has(journal, disk, map)?;
    Ok(before && after)
}

// Whether it shows the map of a group then.
fn shows<D: Disk>(alloc: Global, disk: &mut D, row: &Row) -> Result<bool, JournalError> {
    let count = row.1.saturating_add(row.2);
    let bytes = bytes_after(row.0, count);
    let mut journal = staged(alloc, disk, row, count)?;
    shows_map(&mut journal, disk, &bytes[..used_after(row.0, count)])
}

fn shows_its_map(alloc: Global, bytes: &[u8], row: &Row) -> Result<bool, JournalError> {
    let mut disk = disk_of(alloc, bytes)?;
    shows(alloc, &mut disk, row)
}

// Whether each crash of a second stop leaves one of the maps, at each call of an opening and a settling. After each of them comes
// one choice of the first crash, each in turn. Where room is made there are many calls, so each stop has one of them.
fn survives_more(
    alloc: Global,
    disk: &MemDisk,
    row: &Row,
    stop: u64,
    maps: &[Map<'_>],
) -> Result<bool, JournalError> {
    let calls = if row.3 > 0 {
        90
    } else {
        row.4.min(64) as u64 + 10
    };
    let first = if row.3 > 0 {
        stop % calls * 7 % calls
    } else {
        0
    };
    let end = if row.3 > 0 { first + 1 } else { calls };
    for second in first..end {
        let choice = CRASHES[(second.saturating_add(stop) % 5) as usize];
        if !survives_again(alloc, disk, choice, second, maps)? {
            return Ok(false);
        }
    }
    Ok(true)
}

// Whether a group that stops at this call comes to its end, if each crash leaves the map before the group or the one after
// it, and so does a second stop. Where room is made in the middle it may leave the map then.
fn ended(
    alloc: Global,
    disk: &mut MemDisk,
    row: &Row,
    stop: u64,
) -> Result<Option<bool>, JournalError> {
    let Row(slots, sealed, count, room, entries) = *row;
    let all = sealed.saturating_add(count);
    let after = bytes_after(slots, all);
    let before = bytes_after(slots, sealed);
    let middle = bytes_after(slots, room);
    let maps = [
        &after[..used_after(slots, all)],
        &before[..used_after(slots, sealed)],
        &middle[..used_after(slots, room)],
    ];
    let ended = group(alloc, disk, row).is_ok() && entries_in(disk) == entries;
    let left = if ended {
        1
    } else if room == 0 {
        2
    } else {
        3
    };
    let safe = survives(alloc, disk, &maps[..left])?
        && survives_more(alloc, disk, row, stop, &maps[..left])?;
    Ok(if safe { Some(ended) } else { None })
}

fn ends(alloc: Global, bytes: &[u8], row: &Row, stop: u64) -> Result<Option<bool>, JournalError> {
    let mut disk = disk_of(alloc, bytes)?;
    disk.stop_from(stop);
    ended(alloc, &mut disk, row, stop)
}

// How many calls come before the group.
fn calls_before(alloc: Global, bytes: &[u8], row: &Row) -> Result<u64, JournalError> {
    let mut disk = disk_of(alloc, bytes)?;
    staged(alloc, &mut disk, row, row.1)?;
    Ok(disk.calls())
}

// Whether each stop of such a group is safe, until one comes after its end.
fn stops_are_safe(alloc: Global, bytes: &[u8], row: &Row) -> Result<bool, JournalError> {
    let before = calls_before(alloc, bytes, row)?;
    for stop in 0..1000 {
        match ends(alloc, bytes, row, before.saturating_add(stop))? {
            Some(true) => return Ok(true),
            Some(false) => {}
            None => return Ok(false),
        }
    }
    Ok(false)
}

fn first_unsafe(alloc: Global) -> Result<Option<usize>, JournalError> {
    let bytes = bytes_of(alloc, &File::Formed(&[], &[0]))?;
    for (k, row) in ROWS.iter().enumerate() {
        if !shows_its_map(alloc, &bytes, row)? || !stops_are_safe(alloc, &bytes, row)? {
            return Ok(Some(k));
        }
    }
    Ok(None)
}

#[test]
fn groups_are_stopped_at_each_call(rt: HostRuntime) -> Result<(), Fail> {
    pass(first_unsafe(rt.alloc()))
}

// How many syncs the sealing of such a group takes.
fn syncs_to_seal(journal: &mut Journal, disk: &mut MemDisk) -> Result<u64, JournalError>
    requires settled { IsSettled journal.old }
    requires one_disk { OfContent (view_of disk.old) (IsKept journal.old) }
{
    let before = disk.syncs();
    seal(journal, disk)?;
    Ok(disk.syncs().saturating_sub(before))
}

fn syncs_on(alloc: Global, disk: &mut MemDisk, row: &Row) -> Result<u64, JournalError> {
    let mut journal = staged(alloc, disk, row, row.1.saturating_add(row.2))?;
    syncs_to_seal(&mut journal, disk)
}

fn syncs_of(alloc: Global, bytes: &[u8], row: &Row) -> Result<u64, JournalError> {
    let mut disk = disk_of(alloc, bytes)?;
    syncs_on(alloc, &mut disk, row)
}

fn first_slow(alloc: Global) -> Result<Option<usize>, JournalError> {
    let bytes = bytes_of(alloc, &File::Formed(&[], &[0]))?;
    for (k, row) in ROWS.iter().enumerate() {
        if syncs_of(alloc, &bytes, row)? != 2 {
            return Ok(Some(k));
        }
    }
    Ok(None)
}

#[test]
fn a_group_of_any_size_takes_two_syncs(rt: HostRuntime) -> Result<(), Fail> {
    pass(first_slow(rt.alloc()))
}
