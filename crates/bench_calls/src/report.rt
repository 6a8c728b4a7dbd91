// How what is measured is printed.
ghost use Rattle.std.specs.Prelude.{◌<◌, ◌≤◌};
ghost use Rattle.ss_base.specs.Steps.{IsFresh};

use crate::calls::Calls;
use crate::codec::{decode_time, encode_time};
use crate::journal::{COUNTED, calls_of, calls_of_birth, read_time, warm_commit_time};
use crate::landmarks::{MOST_VALUES, landmark_times, landmarks_with};
use crate::records::{MOST_RECORDS, record_times, seen_after};
use crate::targets::{AGES, Cover, TAKEN, TARGETS, cover_of, look_up_time};
use ss_base::Steps;
use ss_catalog::{Family, Params};
use ss_journal::JournalError;
use ss_landmarks::Landmarks;
use std::marker::Brand;
use std::rt::Clock;
use std::sync::ledger::{Blank, Ledger};

// The exit status: 3 where something could not be printed, or a time says that it failed.
fn status(printed: bool) -> u8 {
    if printed { 0 } else { 3 }
}

// Prints a whole number, and what comes after it.
fn whole(rt: &impl Print, number: u64, text: &str) -> bool {
    print!(rt; "{number}{text}").is_ok()
}

// Prints a time with three digits after its point, and what comes after it.
fn three(rt: &impl Print, time: f64, text: &str) -> bool {
    time >= 0.0 && print!(rt; "{time:.3}{text}").is_ok()
}

// Prints a time with four digits after its point, and what comes after it.
fn four(rt: &impl Print, time: f64, text: &str) -> bool {
    time >= 0.0 && print!(rt; "{time:.4}{text}").is_ok()
}

// Prints the calls of so many puts.
fn print_numbers(rt: &impl Print, puts: u32, calls: &Calls, own: &Calls) -> bool {
    print!(rt; "{puts:>4} {:>6} {:>6}", calls.syncs, own.syncs).is_ok()
        & print!(rt; " {:>7} {:>6}", calls.writes, own.writes).is_ok()
        & print!(rt; " {:>9} {:>8}", calls.bytes, own.bytes).is_ok()
        & print!(rt; " {:>6} {:>6}", calls.reads, own.reads).is_ok()
}

// Prints the calls of the counted commits of so many puts, beside the format's own. The exit status: 1 where they differ.
fn print_calls(rt: &impl Print, puts: u32, calls: &Calls, own: &Calls) -> u8 {
    let agree = calls.agree(own);
    let numbers = print_numbers(rt, puts, calls, own);
    let word = if agree { "  agree" } else { "  differ" };
    status(numbers & rt.println(word).is_ok()).max(u8::from(!agree))
}

// Counts the calls of the commits of so many puts, and prints them.
fn print_row<R: Print + AllocGlobal>(rt: &R, puts: u32) -> Result<u8, JournalError>
    requires some { 0 < puts }
    requires few { puts ≤ 4 }
{
    let calls = calls_of(rt.alloc(), puts)?;
    Ok(print_calls(rt, puts, &calls, &Calls::of_commits(COUNTED, puts)))
}

// Counts the calls of the birth of a journal, and prints them.
fn print_birth<R: Print + AllocGlobal>(rt: &R) -> Result<u8, JournalError> {
    let calls = calls_of_birth(rt.alloc())?;
    Ok(print_calls(rt, 0, &calls, &Calls::of_birth()))
}

const HEAD: &str =
    " commits after a birth\nputs  syncs format  writes format     bytes   format  reads format\n";

/// Prints what the birth of a journal does on a disk in memory, in the row of no puts, and what 10,000 commits of 1 to 4
/// puts do, beside the format's own count. The exit status: 1 where they differ.
pub fn print_commits<R: Print + AllocGlobal>(rt: &R) -> Result<u8, JournalError> {
    let mut worst = status(whole(rt, u64::from(COUNTED), HEAD)).max(print_birth(rt)?);
    for puts in 1..5 {
        worst = worst.max(print_row(rt, puts)?);
    }
    Ok(worst)
}

/// Prints the time of a commit, over so many of them.
pub fn print_commit_time<R: Print + AllocGlobal + Clock>(
    rt: &R,
    commits: u32,
) -> Result<u8, JournalError> {
    let each = warm_commit_time(rt, commits)?;
    let count = whole(rt, u64::from(commits), " commits: ");
    Ok(status(count & three(rt, each, " us a commit\n")))
}

/// Prints the time of a read with none, half and nearly all of the entries in use.
pub fn print_read_times<R: Print + AllocGlobal + Clock>(rt: &R) -> Result<u8, JournalError> {
    let mut printed = true;
    for in_use in [0, 32, 63] {
        let each = read_time(rt, in_use)?;
        printed &= whole(rt, u64::from(in_use), " entries in use: ");
        printed &= three(rt, each, " us a read\n");
    }
    Ok(status(printed))
}

/// Prints what is seen of 1,000 live records, and after transactions that free slots and take them again.
pub fn print_records<R: Print + AllocGlobal>(rt: &R) -> Result<u8, JournalError> {
    let mut printed = true;
    for count in [0, 1, 200] {
        let (live, lowest) = seen_after(rt.alloc(), count)?;
        printed &= whole(rt, u64::from(live), " live of 1000, lowest free ");
        printed &= whole(rt, u64::from(lowest), "\n");
    }
    Ok(status(printed))
}

/// Prints the times of a transaction and of a look for the lowest free slot, over so many live records.
pub fn print_record_times<R: Print + AllocGlobal + Clock>(
    rt: &R,
    count: u32,
) -> Result<u8, JournalError>
    requires some { 0 < count }
    requires few { count ≤ MOST_RECORDS }
{
    let times = record_times(rt, count)?;
    let count = whole(rt, u64::from(count), " live: ");
    let apply = three(rt, times.apply, " us an apply, ");
    let look = four(rt, times.look, " us a look\n");
    Ok(status(count & apply & look))
}

/// Prints the times of encoding and decoding a window.
pub fn print_codec_times<R: Print + Clock>(rt: &R) -> u8 {
    let encode = four(rt, encode_time(rt), " us an encode, ");
    let decode = four(rt, decode_time(rt), " us a decode\n");
    status(encode & decode)
}

// Prints the cover of so many values.
fn print_cover(rt: &impl Print, name: &str, taken: u64, cover: &Cover) -> bool {
    print!(rt; "{name:<14} {taken:>10} {:>7}", cover.windows).is_ok()
        & println!(rt; " {:>8} {:>11}", cover.most, cover.oldest).is_ok()
}

// The parameters of a target of this family, whose windows keep to no step.
fn without_step(family: Family) -> Params {
    Params {
        family,
        within: None,
    }
}

// Prints the covers of a target.
fn print_covers(rt: &impl Print, name: &str, params: Params) -> bool {
    let mut printed = true;
    for taken in TAKEN {
        match cover_of(params, taken) {
            Some(cover) => printed &= print_cover(rt, name, taken, &cover),
            None => printed = false,
        }
    }
    printed
}

/// Prints of each target how many of its windows cover so many values, how many windows stand at most, and how long the
/// oldest target window is.
pub fn print_targets(rt: &impl Print) -> u8 {
    let mut printed = rt
        .println("target             values   cover  at most      oldest")
        .is_ok();
    for (name, family) in TARGETS {
        printed &= print_covers(rt, name, without_step(family));
    }
    status(printed)
}

// Prints the times of look-ups in a target.
fn print_look_ups<R: Print + Clock>(rt: &R, name: &str, params: Params) -> bool {
    let mut printed = true;
    for age in AGES {
        let each = look_up_time(rt, params, age);
        printed &= each >= 0.0;
        printed &= println!(rt; "{name:<14} {age:>13}  {each:>12.1}").is_ok();
    }
    printed
}

/// Prints the time of a look-up for each target and each age.
pub fn print_look_up_times<R: Print + Clock>(rt: &R) -> u8 {
    let mut printed = rt
        .println("target                   age  ns a look-up")
        .is_ok();
    for (name, family) in TARGETS {
        printed &= print_look_ups(rt, name, without_step(family));
    }
    status(printed)
}

// Prints what is seen of landmarks: free times, and a tally.
fn print_seen<R: Print, L: Ledger>(rt: &R, landmarks: &Landmarks, blank: Blank) -> bool
    requires { IsFresh L.name L.parts blank }
{
    let mut searches = Steps::<L>::new(blank);
    let tally = landmarks.values_in(0, 600);
    let sum = tally.sum;
    whole(rt, u64::from(landmarks.count()), " landmarks, ")
        & whole(rt, u64::from(landmarks.values()), " values\n")
        & whole(
            rt,
            landmarks.free(0, 1300, &mut searches),
            " free of 0..=1300, ",
        )
        & whole(rt, tally.count, " values in 0..=600 with sum ")
        & println!(rt; "{sum}").is_ok()
}

/// Prints what is seen of 1,000 values in landmarks.
pub fn print_landmarks<R: Print + AllocGlobal>(rt: &R) -> Result<u8, JournalError> {
    let landmarks = landmarks_with(rt.alloc(), 1000)?;
    Ok(status(print_seen::<R, Brand>(rt, &landmarks, Blank::new(1))))
}

/// Prints the times of a change, of `free` and of `values_in`, over so many values in landmarks.
pub fn print_landmark_times<R: Print + AllocGlobal + Clock>(
    rt: &R,
    values: u32,
) -> Result<u8, JournalError>
    requires few { values ≤ MOST_VALUES }
{
    let times = landmark_times(rt, values)?;
    let count = whole(rt, u64::from(values), " values: ");
    let change = four(rt, times.change, " us a change, ");
    let free = four(rt, times.free, " us a free, ");
    let range = four(rt, times.range, " us a range of ten values, ");
    let value = four(rt, times.value, " us a value of all\n");
    Ok(status(count & change & free & range & value))
}
