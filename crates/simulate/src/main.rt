// simulate < SCRIPT | simulate --seed SEED --cases COUNT
#![tactic(auto)]

mod bytes;
mod images;
mod noted;
mod play;
mod prefixes;
mod random;
mod report;
mod runs;
mod seeded;
mod stories;
mod story;
mod sweeps;
mod trials;

use std::alloc::{AllocError, Global};
use std::process::ExitCode;
use std::rt::Env;
use std::{env, io};

const USAGE: &str = "usage: simulate < SCRIPT | simulate --seed SEED --cases COUNT\n";

// The exit statuses: something was lost, the arguments aren't known, and memory or a stream failed.
const LOST: u8 = 1;

const UNKNOWN: u8 = 2;

const FAILED: u8 = 3;

// The seed and the count of the arguments `--seed SEED --cases COUNT`.
fn seeded_by(words: &[String]) -> Option<(u64, u64)> {
    match *words {
        [_, ref seed, ref from, ref cases, ref count] => {
            if seed.as_str() != "--seed" || cases.as_str() != "--cases" {
                return None;
            }
            let from = from.as_str().parse::<u64>().ok()?;
            let count = count.as_str().parse::<u64>().ok()?;
            Some((from, count))
        }
        _ => None,
    }
}

// What is printed, and the exit status, of a script.
fn play_all(alloc: Global, text: &str) -> Result<(String, u8), AllocError> {
    let mut play = play::start(alloc)?;
    for line in text.lines() {
        play.take(line)?;
    }
    Ok(play.end())
}

// Prints what came of it.
fn print_all(rt: &impl Print, made: Result<(String, u8), AllocError>) -> u8 {
    match made {
        Ok((text, status)) => if print!(rt; "{text}").is_ok() {
            status
        } else {
            FAILED
        },
        Err(_) => FAILED,
    }
}

fn run_script<R: AllocGlobal + Input + Print>(rt: &R) -> u8 {
    match io::read_to_string(rt.alloc(), rt.reader()) {
        Ok(text) => print_all(rt, play_all(rt.alloc(), text.as_str())),
        Err(_) => FAILED,
    }
}

// Tries a seed, and says whether it held. One that didn't is printed.
fn try_seed<R: AllocGlobal + Print>(rt: &R, seed: u64) -> Option<bool> {
    match seeded::wrong_of_seed(rt.alloc(), seed) {
        Ok(None) => Some(true),
        Ok(Some(why)) => if print!(rt; "seed {seed}: {why}\n").is_ok() {
            Some(false)
        } else {
            None
        },
        Err(_) => None,
    }
}

// Tries so many seeds from one on.
fn try_seeds<R: AllocGlobal + Print>(rt: &R, seed: u64, count: u64) -> u8 {
    let mut wrong = 0u64;
    for k in 0..count {
        match try_seed(rt, seed.saturating_add(k)) {
            Some(true) => {}
            Some(false) => wrong = wrong.saturating_add(1),
            None => return FAILED,
        }
    }
    let held = count.saturating_sub(wrong);
    if print!(rt; "{held} passed, {wrong} failed\n").is_err() {
        return FAILED;
    }
    if wrong == 0 { 0 } else { LOST }
}

fn run_words<R: Env + AllocGlobal + Input + Print>(rt: &R, words: &[String]) -> u8 {
    if words.len() <= 1 {
        return run_script(rt);
    }
    match seeded_by(words) {
        Some((seed, count)) => try_seeds(rt, seed, count),
        None => if print!(rt; "{USAGE}").is_ok() {
            UNKNOWN
        } else {
            FAILED
        },
    }
}

fn read_words<R: Env + AllocGlobal>(rt: &R) -> io::Result<Vec<String>> {
    env::args(rt)?.collect(rt.alloc()).map_err(io::Error::from)
}

fn main(rt: HostRuntime) -> ExitCode {
    match read_words(&rt) {
        Ok(words) => ExitCode::from(run_words(&rt, &words)),
        Err(_) => ExitCode::from(UNKNOWN),
    }
}
