// Commits of the journal, one after another, and reads.
ghost use Rattle.std.specs.Prelude.{◌≡◌, ◌<◌, ◌≤◌, IsTrue, IfOk, OnOk};
ghost use Rattle.ss_outside.specs.Disk.{OfContent};
ghost use Rattle.ss_journal.specs.Kept.{IsKept, IsRunning, IsSealed, IsSettled};
ghost use Rattle.ss_journal.specs.Puts.{IsTxn, slots_fit};

use crate::calls::Calls;
use crate::counted::Counted;
use crate::puts::txn_of;
use crate::timing::{FAILED, micros_since, now};
use ss_journal::{Journal, JournalError, Txn};
use ss_outside::{Disk, Failed, MemDisk};
use std::alloc::Global;
use std::rt::Clock;

/// How many commits are counted.
pub const COUNTED: u32 = 10_000;

/// The most commits that are timed. The disk in memory keeps about 900 bytes for each.
pub const MOST_COMMITS: u32 = 1_000_000;

// How many reads are timed, round all slots.
const READS: u32 = 100_000;

// The commits that come before the timed ones: the first in a process take longer.
const WARM_UP: u32 = 64;

// The commits go round this many slots.
const SLOTS: u32 = 1024;

// Brings the entries in use into their slots.
fn settle<D: Disk>(journal: &mut Journal, disk: &mut D) -> Result<(), JournalError>
    requires running { IsRunning journal.old }
    requires sealed { IsSealed journal.old }
    requires one_disk { OfContent (D.seen disk.old) (IsKept journal.old) }
    ensures settled { OnOk result (IsSettled journal.new) }
    ensures sealed { OnOk result (IsSealed journal.new) }
    ensures one_disk { OfContent (D.seen disk.new) (λ content. OnOk result (IsKept journal.new content)) }
{
    Ok(journal.settle(disk)?)
}

// A journal on the disk, ready for commits.
fn start<D: Disk>(alloc: Global, disk: &mut D) -> Result<Journal, JournalError>
    ensures settled { IfOk result (λ journal. IsSettled journal) }
    ensures sealed { IfOk result (λ journal. IsSealed journal) }
    ensures one_disk { OfContent (D.seen disk.new) (λ content. IfOk result (λ journal. IsKept journal content)) }
{
    let mut journal = Journal::open(alloc, disk)?;
    settle(&mut journal, disk)?;
    Ok(journal)
}

// A commit: room is made, the puts are staged, and then sealed.
fn commit<D: Disk>(journal: &mut Journal, disk: &mut D, txn: &Txn) -> Result<(), Failed>
    requires settled { IsSettled journal.old }
    requires txn { IsTxn txn.now.items }
    requires fit { IsTrue (slots_fit txn.now.items journal.old.extent) }
    requires one_disk { OfContent (D.seen disk.old) (IsKept journal.old) }
    ensures settled { OnOk result (IsSettled journal.new) }
    ensures sealed { OnOk result (IsSealed journal.new) }
    ensures one_disk { OfContent (D.seen disk.new) (λ content. OnOk result (IsKept journal.new content)) }
{
    journal.make_room(disk)?;
    journal.stage(txn);
    journal.seal(disk)
}

// Makes commits number 0 up to `count`: puts into so many slots, from the one whose turn it is, or from the extent where
// that is less.
fn commit_many<D: Disk>(
    journal: &mut Journal,
    disk: &mut D,
    count: u32,
    puts: u32,
) -> Result<(), JournalError>
    requires some { 0 < puts }
    requires few { puts ≤ 4 }
    requires settled { IsSettled journal.old }
    requires sealed { IsSealed journal.old }
    requires one_disk { OfContent (D.seen disk.old) (IsKept journal.old) }
    ensures settled { OnOk result (IsSettled journal.new) }
    ensures sealed { OnOk result (IsSealed journal.new) }
    ensures one_disk { OfContent (D.seen disk.new) (λ content. OnOk result (IsKept journal.new content)) }
{
    for k in 0..count {
        let first = (k % SLOTS).min(journal.extent());
        commit(journal, disk, &txn_of(first, puts, (k % 256) as u8))?;
    }
    Ok(())
}

// The calls of an empty disk that the birth of a journal makes.
fn birth_on<D: Disk>(alloc: Global, disk: &mut Counted<D>) -> Result<Calls, JournalError> {
    start(alloc, disk)?;
    Ok(disk.calls)
}

/// The calls that opening and settling make of an empty disk.
pub fn calls_of_birth(alloc: Global) -> Result<Calls, JournalError> {
    let inner = MemDisk::new(alloc, Vec::new(alloc))?;
    let calls = Calls::none();
    birth_on(alloc, &mut Counted { inner, calls })
}

// The calls of the disk that the counted commits make, once the journal is ready.
fn calls_on<D: Disk>(alloc: Global, disk: &mut Counted<D>, puts: u32) -> Result<Calls, JournalError>
    requires some { 0 < puts }
    requires few { puts ≤ 4 }
{
    let mut journal = start(alloc, disk)?;
    disk.calls = Calls::none();
    commit_many(&mut journal, disk, COUNTED, puts)?;
    Ok(disk.calls)
}

/// The calls of the disk that the counted commits make, of so many puts each.
pub fn calls_of(alloc: Global, puts: u32) -> Result<Calls, JournalError>
    requires some { 0 < puts }
    requires few { puts ≤ 4 }
{
    let inner = MemDisk::new(alloc, Vec::new(alloc))?;
    let calls = Calls::none();
    calls_on(alloc, &mut Counted { inner, calls }, puts)
}

// The microseconds of so many commits of one put each.
fn time_of_commits<R: Clock, D: Disk>(
    rt: &R,
    journal: &mut Journal,
    disk: &mut D,
    commits: u32,
) -> f64
    requires settled { IsSettled journal.old }
    requires sealed { IsSealed journal.old }
    requires one_disk { OfContent (D.seen disk.old) (IsKept journal.old) }
{
    let begin = now(rt);
    let made = commit_many(journal, disk, commits, 1).is_ok();
    micros_since(rt, &begin, made)
}

// The same, on an empty disk.
fn time_on<R: AllocGlobal + Clock, D: Disk>(
    rt: &R,
    disk: &mut D,
    commits: u32,
) -> Result<f64, JournalError> {
    let mut journal = start(rt.alloc(), disk)?;
    Ok(time_of_commits(rt, &mut journal, disk, commits))
}

// How many calls of an empty disk the birth of a journal and so many commits of one put each make by the format.
fn wanted_calls(commits: u32) -> u64 {
    Calls::of_commits(commits, 1)
        .number()
        .saturating_add(Calls::of_birth().number())
}

// Makes so many commits of one put each on a new disk in memory, and answers the microseconds that they took.
fn commit_time<R: AllocGlobal + Clock>(rt: &R, commits: u32) -> Result<f64, JournalError> {
    let mut disk = MemDisk::new(rt.alloc(), Vec::new(rt.alloc()))?;
    let micros = time_on(rt, &mut disk, commits);
    if disk.calls() != wanted_calls(commits) {
        return Ok(FAILED);
    }
    micros
}

/// The microseconds of one of so many commits of one put each, after a few others.
pub fn warm_commit_time<R: AllocGlobal + Clock>(rt: &R, commits: u32) -> Result<f64, JournalError> {
    commit_time(rt, WARM_UP)?;
    Ok(commit_time(rt, commits)? / f64::from(commits))
}

// Gives the file all slots, and leaves so many entries in use.
fn fill<D: Disk>(journal: &mut Journal, disk: &mut D, in_use: u32) -> Result<(), JournalError>
    requires settled { IsSettled journal.old }
    requires sealed { IsSealed journal.old }
    requires one_disk { OfContent (D.seen disk.old) (IsKept journal.old) }
    ensures settled { OnOk result (IsSettled journal.new) }
    ensures sealed { OnOk result (IsSealed journal.new) }
    ensures one_disk { OfContent (D.seen disk.new) (λ content. OnOk result (IsKept journal.new content)) }
{
    commit_many(journal, disk, SLOTS, 1)?;
    settle(journal, disk)?;
    commit_many(journal, disk, in_use, 1)
}

// Reads round the slots, and answers the sum of the first bytes.
fn read_many<D: Disk>(journal: &mut Journal, disk: &mut D) -> Result<u64, JournalError>
    requires running { IsRunning journal.old }
    requires one_disk { OfContent (D.seen disk.old) (IsKept journal.old) }
{
    let mut sum = 0u64;
    for k in 0..READS {
        let bytes = journal.read(disk, k % SLOTS)?;
        sum = sum.saturating_add(u64::from(bytes[0]));
    }
    Ok(sum)
}

// The microseconds that a read takes of a journal whose file has all slots.
fn time_of_reads<R: Clock, D: Disk>(rt: &R, journal: &mut Journal, disk: &mut D) -> f64
    requires settled { IsSettled journal.old }
    requires sealed { IsSealed journal.old }
    requires one_disk { OfContent (D.seen disk.old) (IsKept journal.old) }
{
    let begin = now(rt);
    let sum = read_many(journal, disk).unwrap_or(0);
    micros_since(rt, &begin, sum > 0) / f64::from(READS)
}

// The same, on an empty disk, with so many entries in use.
fn read_time_on<R: AllocGlobal + Clock, D: Disk>(
    rt: &R,
    disk: &mut D,
    in_use: u32,
) -> Result<f64, JournalError> {
    let mut journal = start(rt.alloc(), disk)?;
    fill(&mut journal, disk, in_use)?;
    Ok(time_of_reads(rt, &mut journal, disk))
}

/// The microseconds that a read takes with so many entries in use.
pub fn read_time<R: AllocGlobal + Clock>(rt: &R, in_use: u32) -> Result<f64, JournalError> {
    let mut disk = MemDisk::new(rt.alloc(), Vec::new(rt.alloc()))?;
    read_time_on(rt, &mut disk, in_use)
}
