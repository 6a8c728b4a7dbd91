// What is said on standard error where the arguments aren't known.
use crate::notice::notice_named;
use crate::options::{Switch, switch_of};
use ss_arguments::mode_of;
use ss_watch::is_verb;
use std::alloc::{AllocError, Global};

const NO_STORE: &str = "STORE is missing, the file that keeps the streams";

const COMMANDS: &str =
    "commands come on standard input, one a line, as in: echo list | summarystore STORE";

const GEN: &str = "gen takes SEED, 0 to 2^64-1, and COUNT, 1 to 100000";

const MODES: [&str; 8] = [
    "run", "check", "gen", "sessions", "frames", "follow", "batch", "framed",
];

// Whether a word is the first of a mode.
fn is_mode(word: &str) -> bool {
    MODES.iter().any(|known| word == *known)
}

// The words behind the options at their front.
fn behind_options(words: &[String]) -> &[String] {
    let count = words
        .iter()
        .take_while(|word| switch_of(word.as_str()).is_some())
        .count();
    words.get(count..).unwrap_or(&[])
}

// The first word that begins with `-`.
fn first_hyphened(words: &[String]) -> Option<&str> {
    words
        .iter()
        .map(|word| word.as_str())
        .find(|word| word.starts_with('-'))
}

// Whether an option is among those at the front of the words.
fn has_option(words: &[String], wanted: Switch) -> bool {
    words
        .iter()
        .map(|word| switch_of(word.as_str()))
        .take_while(|switch| switch.is_some())
        .any(|switch| switch == Some(wanted))
}

// What is wrong with options before words that ask for a mode by themselves.
fn on_options(alloc: Global, options: &[String], mode: &str) -> Result<String, AllocError> {
    if has_option(options, Switch::Framed) {
        format!(in alloc; "--framed is for runs and sessions, and {mode} is none of these")
    } else {
        format!(in alloc; "--batch is for runs, and {mode} isn't one")
    }
}

// What may follow the word of a mode, where other words do.
fn on_followers(alloc: Global, mode: &str) -> Result<String, AllocError> {
    match mode {
        "gen" => String::from_str(alloc, GEN),
        "sessions" => String::from_str(
            alloc,
            "only framed and batch follow sessions, in this order",
        ),
        "framed" | "frames" | "follow" => format!(in alloc; "only batch follows {mode}"),
        _ => format!(in alloc; "no words follow {mode}"),
    }
}

// What is wrong with words, the store's path second, that ask for no mode or only without the options. None of those behind the
// path is an option.
fn on_mode(alloc: Global, options: &[String], words: &[String]) -> Result<String, AllocError> {
    let [_, _, mode, ..] = words else {
        return String::from_str(alloc, NO_STORE);
    };
    let mode = mode.as_str();
    if mode_of(alloc, words)?.is_some() {
        on_options(alloc, options, mode)
    } else if is_verb(mode) {
        String::from_str(alloc, COMMANDS)
    } else if is_mode(mode) {
        on_followers(alloc, mode)
    } else {
        format!(in alloc; "no mode is named {mode:?}")
    }
}

// What is wrong with the words behind the store's path, which is the second.
fn on_arguments(alloc: Global, options: &[String], words: &[String]) -> Result<String, AllocError> {
    let arguments = words.get(2..).unwrap_or(&[]);
    match first_hyphened(arguments) {
        Some(option) if arguments.first().is_none_or(|mode| mode.as_str() != "gen") =>
            format!(in alloc; "{option:?} stands behind STORE, and options stand before it"),
        _ => on_mode(alloc, options, words),
    }
}

/// What is wrong with the words of the command line, its name first, where they aren't known.
pub fn advice(alloc: Global, words: &[String]) -> Result<String, AllocError> {
    let options = words.get(1..).unwrap_or(&[]);
    let behind = behind_options(options);
    match behind {
        [] => String::from_str(alloc, NO_STORE),
        [notice, ..] if notice_named(notice.as_str()).is_some() => format!(in alloc;
            "{:?} stands alone",
            notice.as_str()
        ),
        [path, ..] if path.starts_with('-') => format!(in alloc;
            "no option is named {:?}",
            path.as_str()
        ),
        _ => {
            let front = options.len().saturating_sub(behind.len());
            on_arguments(alloc, options, words.get(front..).unwrap_or(&[]))
        }
    }
}
