// Many commits in a row, and files with many entries in use.
ghost use Rattle.std.specs.Prelude.{◌≤◌};

use super::files::{File, Map, bytes_of, disk_of, is_file, set_entry};
use super::runs::{Commit, NOTHING, commit, run, settled};
use super::stops::{survives, survives_twice, turns};
use crate::passing::{pass, pass_if};
use ss_journal::{Journal, JournalError};
use ss_outside::{Disk, Failed, MemDisk};
use std::alloc::{AllocError, Global};
use std::test::Fail;

// So many that the entries are all in use once, and settled.
const COMMITS: u8 = 70;

// Commit number k puts k into slot 0, and an even one into slot 1 too.
fn commit_of(k: u8) -> Commit {
    (k, if k % 2 == 0 { k } else { 0 })
}

// Opens and settles a file of one slot, and answers how many commits came before one that failed.
fn commits_before_failure<D: Disk>(alloc: Global, disk: &mut D) -> u8 {
    let Ok(mut journal) = settled(alloc, disk) else {
        return 0;
    };
    for k in 0..COMMITS {
        match commit(&mut journal, disk, commit_of(k + 1)) {
            Ok(()) => {}
            Err(Failed) => return k,
        }
    }
    COMMITS
}

// The bytes of the slots after so many commits. Slot 1 is used from the second on.
fn bytes_after(commits: u8) -> [u8; 2] {
    [commits, commits - commits % 2]
}

// How many slots are used after so many commits.
fn used_after(commits: u8) -> usize
    ensures { result ≤ 2 }
{
    if commits < 2 { 1 } else { 2 }
}

// Whether each crash leaves the map after so many commits, or after one more, and so does a second stop.
fn survives_after(
    alloc: Global,
    disk: &MemDisk,
    commits: u8,
    stop: u64,
) -> Result<bool, JournalError> {
    let more = commits.saturating_add(1);
    let now = bytes_after(commits);
    let next = bytes_after(more);
    let maps = [&next[..used_after(more)], &now[..used_after(commits)]];
    Ok(survives(alloc, disk, &maps)? && survives_twice(alloc, disk, stop, &maps)?)
}

// How many commits come before a stop, if it leaves the map before the next commit or after it, and so does a second stop.
fn commits_made(alloc: Global, disk: &mut MemDisk, stop: u64) -> Result<Option<u8>, JournalError> {
    let commits = commits_before_failure(alloc, disk);
    // Over all stops the second comes at each call of a settling.
    let second = stop % 270 * 7 % 270;
    let safe = survives_after(alloc, disk, commits, second)?;
    Ok(if safe { Some(commits) } else { None })
}

fn safe_commits(alloc: Global, bytes: &[u8], stop: u64) -> Result<Option<u8>, JournalError> {
    let mut disk = disk_of(alloc, bytes)?;
    disk.stop_from(stop);
    commits_made(alloc, &mut disk, stop)
}

fn stops_are_safe(alloc: Global, bytes: &[u8]) -> Result<bool, JournalError> {
    for stop in 0..1000 {
        match safe_commits(alloc, bytes, stop)? {
            Some(COMMITS) => return Ok(true),
            Some(_) => {}
            None => return Ok(false),
        }
    }
    Ok(false)
}

fn are_safe(alloc: Global) -> Result<bool, JournalError> {
    let bytes = bytes_of(alloc, &File::Formed(&[], &[0]))?;
    stops_are_safe(alloc, &bytes)
}

#[test]
fn commits_in_a_row_are_stopped_at_each_call(rt: HostRuntime) -> Result<(), Fail> {
    pass_if(are_safe(rt.alloc()))
}

// A formatted file without slots, with so many open entries, of which each puts its number and one more into slot 0.
fn open_entries(alloc: Global, count: u8) -> Result<Vec<u8>, AllocError> {
    let mut bytes = bytes_of(alloc, &File::Formed(&[], &[]))?;
    for n in 0..count {
        set_entry(&mut bytes, usize::from(n), 0, n + 1);
    }
    Ok(bytes)
}

// Whether such a file stands for the last of its entries, and still does once it is settled.
fn settles(alloc: Global, disk: &mut MemDisk, map: Map<'_>) -> bool {
    turns(alloc, disk, NOTHING, map, map) && is_file(disk, 36992, 0)
}

fn entries_settle(alloc: Global, count: u8) -> Result<bool, JournalError> {
    let mut disk = MemDisk::new(alloc, open_entries(alloc, count)?)?;
    Ok(settles(alloc, &mut disk, &[count]))
}

// The first number of open entries that don't settle.
fn first_unsettled(alloc: Global) -> Result<Option<usize>, JournalError> {
    for count in 1..65u8 {
        if !entries_settle(alloc, count)? {
            return Ok(Some(usize::from(count)));
        }
    }
    Ok(None)
}

#[test]
fn each_number_of_entries_may_be_in_use(rt: HostRuntime) -> Result<(), Fail> {
    pass(first_unsettled(rt.alloc()))
}
