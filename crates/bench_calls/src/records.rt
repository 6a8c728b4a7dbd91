// Records on a disk in memory.
ghost use Rattle.std.specs.Prelude.{◌≡◌, ◌<◌, ◌≤◌, IsTrue, IfOk, OnOk};
ghost use Rattle.ss_outside.specs.Disk.{OfContent};
ghost use Rattle.ss_journal.specs.Kept.{IsSettled};
ghost use Rattle.ss_records.specs.Kept.{AreAtRest, AreKept};

use crate::puts::txn_of;
use crate::timing::{micros_since, now};
use ss_journal::{Journal, JournalError, MOST_SLOTS};
use ss_outside::{Disk, Failed, MemDisk};
use ss_records::{Records, SlotSet};
use std::alloc::Global;
use std::rt::Clock;

/// The disk in memory holds each slot, and what was written of it: 400 MB for so many.
pub const MOST_RECORDS: u32 = 1_000_000;

// How many transactions are timed.
const APPLIES: u32 = 100_000;

// How many times the lowest free slot is asked for.
const LOOKS: u32 = 1_000_000;

/// The microseconds that each of them takes.
#[derive(Clone, Copy)]
pub struct Times {
    pub apply: f64,
    pub look: f64,
}

// Records over an empty disk, ready for transactions.
fn start<D: Disk>(alloc: Global, disk: &mut D) -> Result<Records, JournalError>
    ensures at_rest { IfOk result (λ records. AreAtRest records) }
    ensures one_disk { OfContent (D.seen disk.new) (λ content. IfOk result (λ records. AreKept records content)) }
{
    let journal = Journal::open(alloc, disk)?;
    if journal.extent() != 0 {
        return Err(JournalError::NotAStore);
    }
    let live = SlotSet::new(alloc)?;
    let mut records = Records::over(alloc, journal, live)?;
    records.settle(disk)?;
    Ok(records)
}

// Stages a put of one slot, or of the lowest free one where that comes before it.
fn stage<D: Disk>(records: &mut Records, disk: &mut D, slot: u32, byte: u8) -> Result<(), Failed>
    requires slot { slot < MOST_SLOTS }
    requires settled { IsSettled records.old.journal }
    requires one_disk { OfContent (D.seen disk.old) (AreKept records.old) }
    ensures settled { OnOk result (IsSettled records.new.journal) }
    ensures one_disk { OfContent (D.seen disk.new) (λ content. OnOk result (AreKept records.new content)) }
{
    records.make_room(disk)?;
    if let Some(free) = records.lowest_free() {
        records.stage(&txn_of(slot.min(free), 1, byte));
    }
    Ok(())
}

// So many live records over an empty disk, from slot 0 on, which are all in the file.
fn filled<D: Disk>(alloc: Global, disk: &mut D, count: u32) -> Result<Records, JournalError>
    requires { count ≤ MOST_RECORDS }
    ensures at_rest { IfOk result (λ records. AreAtRest records) }
    ensures one_disk { OfContent (D.seen disk.new) (λ content. IfOk result (λ records. AreKept records content)) }
{
    let mut records = start(alloc, disk)?;
    for slot in 0..count {
        stage(&mut records, disk, slot, 1)?;
    }
    records.seal(disk)?;
    records.settle(disk)?;
    Ok(records)
}

// A slot below the count: the slots from 0 on, far apart.
fn nth_slot(n: u32, count: u32) -> u32
    requires some { 0 < count }
    ensures { result < count }
{
    (u64::from(n) * 7919 % u64::from(count)) as u32
}

// Stages and seals so many transactions of one put each. Every second one frees a slot, and the next takes it again.
fn apply_many<D: Disk>(
    records: &mut Records,
    disk: &mut D,
    slots: u32,
    count: u32,
) -> Result<(), JournalError>
    requires some { 0 < slots }
    requires few { slots ≤ MOST_RECORDS }
    requires at_rest { AreAtRest records.old }
    requires one_disk { OfContent (D.seen disk.old) (AreKept records.old) }
{
    for k in 0..count {
        stage(records, disk, nth_slot(k / 2, slots), (k % 2) as u8)?;
        records.seal(disk)?;
    }
    Ok(())
}

// How many of 1,000 records are live after so many transactions, and the lowest free slot.
fn seen_of<D: Disk>(
    records: &mut Records,
    disk: &mut D,
    count: u32,
) -> Result<(u32, u32), JournalError>
    requires at_rest { AreAtRest records.old }
    requires one_disk { OfContent (D.seen disk.old) (AreKept records.old) }
{
    apply_many(records, disk, 1000, count)?;
    let lowest = records.lowest_free().unwrap_or(MOST_SLOTS);
    Ok((records.live(), lowest))
}

// The same, of the records of a disk.
fn seen_on<D: Disk>(alloc: Global, disk: &mut D, count: u32) -> Result<(u32, u32), JournalError> {
    let mut records = filled(alloc, disk, 1000)?;
    seen_of(&mut records, disk, count)
}

/// How many of 1,000 records are live after so many transactions, and the lowest free slot.
pub fn seen_after(alloc: Global, count: u32) -> Result<(u32, u32), JournalError> {
    let mut disk = MemDisk::new(alloc, Vec::new(alloc))?;
    seen_on(alloc, &mut disk, count)
}

// Asks so often for the lowest free slot, and answers the sum. Which of the two is asked hangs on the sum so far, so that
// no answer can be used again.
fn sum_of_lowest_free(records: &[Records; 2]) -> u64 {
    let mut sum = 0u64;
    for k in 0..LOOKS {
        let lowest = records[(sum % 2) as usize].lowest_free().unwrap_or(0);
        sum = sum.saturating_add(u64::from(lowest | (k & 1)));
    }
    sum
}

fn live(records: &Records) -> u32 {
    records.live()
}

// The microseconds of looks for the lowest free slot of two that are alike.
fn time_of_looks<R: Clock>(rt: &R, pair: &[Records; 2]) -> f64 {
    let begin = now(rt);
    let sum = sum_of_lowest_free(pair);
    micros_since(rt, &begin, sum > 0)
}

// So many live records, whose disk is let go.
fn records_alone(alloc: Global, count: u32) -> Result<Records, JournalError>
    requires { count ≤ MOST_RECORDS }
{
    let mut disk = MemDisk::new(alloc, Vec::new(alloc))?;
    filled(alloc, &mut disk, count)
}

// The same, of so many live records.
fn look_time<R: AllocGlobal + Clock>(rt: &R, count: u32) -> Result<f64, JournalError>
    requires { count ≤ MOST_RECORDS }
{
    let pair = [
        records_alone(rt.alloc(), count)?,
        records_alone(rt.alloc(), count)?,
    ];
    Ok(time_of_looks(rt, &pair))
}

// The microseconds of transactions over so many live records.
fn time_of_applies<R: Clock, D: Disk>(
    rt: &R,
    records: &mut Records,
    disk: &mut D,
    count: u32,
) -> f64
    requires some { 0 < count }
    requires few { count ≤ MOST_RECORDS }
    requires at_rest { AreAtRest records.old }
    requires one_disk { OfContent (D.seen disk.old) (AreKept records.old) }
{
    let begin = now(rt);
    let made = apply_many(records, disk, count, APPLIES).is_ok();
    micros_since(rt, &begin, made & (live(records) == count))
}

// The same, of the records of a disk.
fn apply_time<R: AllocGlobal + Clock, D: Disk>(
    rt: &R,
    disk: &mut D,
    count: u32,
) -> Result<f64, JournalError>
    requires some { 0 < count }
    requires few { count ≤ MOST_RECORDS }
{
    let mut records = filled(rt.alloc(), disk, count)?;
    Ok(time_of_applies(rt, &mut records, disk, count))
}

/// The times of the calls over so many live records.
pub fn record_times<R: AllocGlobal + Clock>(rt: &R, count: u32) -> Result<Times, JournalError>
    requires some { 0 < count }
    requires few { count ≤ MOST_RECORDS }
{
    let look = look_time(rt, count)? / f64::from(LOOKS);
    let mut disk = MemDisk::new(rt.alloc(), Vec::new(rt.alloc()))?;
    let apply = apply_time(rt, &mut disk, count)? / f64::from(APPLIES);
    Ok(Times { apply, look })
}
