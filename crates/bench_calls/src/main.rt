// bench_calls all | journal [COMMITS | reads] | records [RECORDS | codec] | targets [time] | landmarks [VALUES]
#![tactic(auto)]

mod calls;
mod codec;
mod counted;
mod journal;
mod landmarks;
mod puts;
mod records;
mod report;
mod targets;
mod timing;

ghost use Rattle.std.specs.Prelude.{◌≤◌};

use journal::MOST_COMMITS;
use landmarks::MOST_VALUES;
use records::MOST_RECORDS;
use ss_journal::JournalError;
use std::env;
use std::process::ExitCode;
use std::rt::{Clock, Env};

const USAGE: &str =
    "usage: bench_calls all | journal [COMMITS | reads] | records [RECORDS | codec] | targets [time] | landmarks [VALUES]";

// What the calls are of that are measured.
#[derive(Clone, Copy)]
enum Subject {
    Journal,
    Records,
    Targets,
    Landmarks,
}

const ALL: [Subject; 4] = [
    Subject::Journal,
    Subject::Records,
    Subject::Targets,
    Subject::Landmarks,
];

// How many commits, records or values a word asks for: 0 where it asks for none.
fn count_of(word: &str, most: u32) -> u32
    ensures { result ≤ most }
{
    match word.parse::<u32>() {
        Ok(count) if count <= most => count,
        _ => 0,
    }
}

// The subject that a word names.
fn subject_of(word: &str) -> Option<Subject> {
    match word {
        "journal" => Some(Subject::Journal),
        "records" => Some(Subject::Records),
        "targets" => Some(Subject::Targets),
        "landmarks" => Some(Subject::Landmarks),
        _ => None,
    }
}

// Prints what is the same each time. The exit status: 1 where the counts differ from the format's.
fn show<R: AllocGlobal + Print>(rt: &R, subject: Subject) -> Result<u8, JournalError> {
    match subject {
        Subject::Journal => report::print_commits(rt),
        Subject::Records => report::print_records(rt),
        Subject::Targets => Ok(report::print_targets(rt)),
        Subject::Landmarks => report::print_landmarks(rt),
    }
}

// The same of all, and the greatest of their statuses.
fn show_all<R: AllocGlobal + Print>(rt: &R) -> Result<u8, JournalError> {
    let mut worst = 0;
    for subject in ALL {
        worst = worst.max(show(rt, subject)?);
    }
    Ok(worst)
}

// Prints what is the same each time. The exit status: 2 where the word is unknown.
fn show_named<R: AllocGlobal + Print>(rt: &R, word: &str) -> Result<u8, JournalError> {
    if word == "all" {
        return show_all(rt);
    }
    match subject_of(word) {
        Some(subject) => show(rt, subject),
        None => Ok(2),
    }
}

// Prints the times of commits or of reads.
fn time_journal<R: AllocGlobal + Print + Clock>(rt: &R, word: &str) -> Result<u8, JournalError> {
    if word == "reads" {
        return report::print_read_times(rt);
    }
    match count_of(word, MOST_COMMITS) {
        0 => Ok(2),
        count => report::print_commit_time(rt, count),
    }
}

// Prints the times of the records or of the codec.
fn time_records<R: AllocGlobal + Print + Clock>(rt: &R, word: &str) -> Result<u8, JournalError> {
    if word == "codec" {
        return Ok(report::print_codec_times(rt));
    }
    match count_of(word, MOST_RECORDS) {
        0 => Ok(2),
        count => report::print_record_times(rt, count),
    }
}

// Prints the times of look-ups.
fn time_targets<R: Print + Clock>(rt: &R, word: &str) -> u8 {
    if word == "time" {
        report::print_look_up_times(rt)
    } else {
        2
    }
}

// Prints the times of landmarks.
fn time_landmarks<R: AllocGlobal + Print + Clock>(rt: &R, word: &str) -> Result<u8, JournalError> {
    match count_of(word, MOST_VALUES) {
        0 => Ok(2),
        count => report::print_landmark_times(rt, count),
    }
}

// Prints times of the calls. The exit status: 2 where the words aren't known.
fn time<R: AllocGlobal + Print + Clock>(
    rt: &R,
    subject: Option<Subject>,
    word: &str,
) -> Result<u8, JournalError> {
    match subject {
        Some(Subject::Journal) => time_journal(rt, word),
        Some(Subject::Records) => time_records(rt, word),
        Some(Subject::Targets) => Ok(time_targets(rt, word)),
        Some(Subject::Landmarks) => time_landmarks(rt, word),
        None => Ok(2),
    }
}

// The exit status: 2 where the words aren't known.
fn status_of<R: AllocGlobal + Print + Clock>(rt: &R, words: &[String]) -> Result<u8, JournalError> {
    match words {
        [_, subject] => show_named(rt, subject.as_str()),
        [_, subject, word] => time(rt, subject_of(subject.as_str()), word.as_str()),
        _ => Ok(2),
    }
}

// The program's words.
fn words_of<R: Env + AllocGlobal>(rt: &R) -> Result<Vec<String>, JournalError> {
    match env::args(rt) {
        Ok(args) => Ok(args.collect(rt.alloc())?),
        Err(_) => Err(JournalError::OutOfMemory),
    }
}

// The exit status of the program's words.
fn answer<R: Env + AllocGlobal + Print + Clock>(rt: &R) -> Result<u8, JournalError> {
    let words = words_of(rt)?;
    status_of(rt, words.as_slice())
}

// Says what there is to say of an exit status.
fn explain(rt: &impl Eprint, status: u8) {
    let _ = match status {
        2 => rt.eprintln(USAGE),
        3 => rt.eprintln("bench_calls: a call, the clock or the output failed"),
        _ => Ok(()),
    };
}

fn main(rt: HostRuntime) -> ExitCode {
    match answer(&rt) {
        Ok(status) => {
            explain(&rt, status);
            ExitCode::from(status)
        }
        Err(error) => {
            let _ = eprintln!(rt; "bench_calls: {error}");
            ExitCode::from(3)
        }
    }
}
