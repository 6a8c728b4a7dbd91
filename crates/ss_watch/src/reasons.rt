// Why a line was refused, in words.
use crate::frames::frame_reason;
use crate::numbers::{count_reason, number_reason};
use crate::speaker::{Speaker, is_of_cursor};
use crate::syntax::{syntax, syntax_of_cursor};
use crate::words::{shown, word_at, words_of};
use ss_catalog::{
    Event, Family, GREATEST_BASE, GREATEST_POWER, GREATEST_SCALE, GREATEST_WIDENING, LONGEST_NAME,
    MOST_STREAMS, Name, Params, Refusal,
};
use ss_command::{Command, LONGEST_LINE};
use std::alloc::{AllocError, Global};

// What is said of a refusal that has no other reason.
const OTHERWISE: &str = "it can't be done";

// A line that was refused for what it is by itself.
fn of_words(alloc: Global, line: &[u8], refusal: Refusal) -> Result<String, AllocError> {
    let text = shown(alloc, line)?;
    let words = words_of(alloc, text.as_str())?;
    match refusal {
        Refusal::Syntax => syntax(alloc, words.as_slice()),
        Refusal::Number => number_reason(alloc, words.as_slice()),
        _ => name(alloc, word_at(words.as_slice(), 1)),
    }
}

// A form of a cursor that was refused.
fn of_cursor(
    alloc: Global,
    session: u8,
    line: &[u8],
    refusal: Refusal,
) -> Result<String, AllocError> {
    let text = shown(alloc, line)?;
    let words = words_of(alloc, text.as_str())?;
    let session = char::from(session);
    let word = word_at(words.as_slice(), 2);
    match refusal {
        Refusal::Syntax => syntax_of_cursor(alloc, words.as_slice()),
        Refusal::Number => count_reason(alloc, word),
        Refusal::Unknown => unknown(alloc, word),
        Refusal::Busy => format!(in alloc;
            "session {session} has a cursor already: cursor close ends it"
        ),
        Refusal::NoCursor => format!(in alloc;
            "session {session} has no cursor: cursor open NAME opens one"
        ),
        _ => name(alloc, word),
    }
}

// A line of sessions that is none of theirs.
fn of_nobody(alloc: Global, line: &[u8]) -> Result<String, AllocError> {
    let text = shown(alloc, line)?;
    let words = words_of(alloc, text.as_str())?;
    let first = word_at(words.as_slice(), 0);
    format!(in alloc; "\"{first}\" is no session: a line begins with @0 to @7, as in @0 list")
}

// That no stream has a name.
fn unknown(alloc: Global, stream: &str) -> Result<String, AllocError> {
    format!(in alloc; "no stream is named {stream}")
}

// Whether a word has only letters that a name can have.
fn has_name_letters(word: &str) -> bool {
    word.bytes().all(|byte| byte.is_ascii_alphanumeric()
        || byte == b'_'
        || byte == b'-'
        || byte == b'.')
}

// Why a word is no name.
fn name(alloc: Global, word: &str) -> Result<String, AllocError> {
    if has_name_letters(word) {
        format!(in alloc; "the name {word} is longer than {LONGEST_NAME} letters")
    } else {
        format!(in alloc; "the name {word} has more in it than letters, digits, _, - and .")
    }
}

// A parameter that is out of its range: its letter, itself, and the least and the greatest that it can be.
fn outside(
    letter: &'static str,
    value: u32,
    least: u32,
    greatest: u32,
) -> Option<(&'static str, u32, u32, u32)> {
    if value < least || value > greatest {
        Some((letter, value, least, greatest))
    } else {
        None
    }
}

// The first parameter that is out of its range.
fn first_outside(params: &Params) -> Option<(&'static str, u32, u32, u32)> {
    let of_family = match params.family {
        Family::Exp { b, r, s } => outside("B", b, 2, GREATEST_BASE)
            .or(outside("R", r, 1, GREATEST_SCALE))
            .or(outside("S", s, 1, GREATEST_SCALE)),
        Family::Power { p, q, r, s } => outside("P", p, 1, GREATEST_POWER)
            .or(outside("Q", q, 0, GREATEST_WIDENING))
            .or(outside("R", r, 1, GREATEST_SCALE))
            .or(outside("S", s, 1, GREATEST_SCALE)),
    };
    of_family.or(
        params
            .within
            .and_then(|step| outside("E", step, 1, u32::MAX)),
    )
}

/// Why no target has these parameters.
pub fn params(alloc: Global, params: &Params) -> Result<String, AllocError> {
    match first_outside(params) {
        Some((letter, value, least, greatest)) => {
            format!(in alloc; "{letter} is {value}, and can be {least} to {greatest}")
        }
        None => String::from_str(alloc, "no target has these parameters"),
    }
}

/// The stream that an event is for.
pub fn name_of_event(event: &Event) -> &Name {
    match event {
        Event::Create { name, .. } => name,
        Event::Value { name, .. } => name,
        Event::Open { name, .. } => name,
        Event::Close { name, .. } => name,
        Event::Drop { name } => name,
    }
}

// The stream that a command is for, or the empty text where it is for all.
fn stream_of_command(command: &Command) -> &str {
    match command {
        Command::Do(event) => name_of_event(event).as_str(),
        Command::Ask(query) => query.name.as_str(),
        Command::Series(series) => series.name.as_str(),
        Command::Windows(name) => name.as_str(),
        Command::List => "",
        Command::Certify { query, .. } => query.name.as_str(),
        Command::Last(name) => name.as_str(),
        Command::Values { name, .. } => name.as_str(),
    }
}

// Why a time is refused, where the last time of the stream may be known.
fn time(
    alloc: Global,
    t: u64,
    rule: &str,
    stream: &str,
    last: Option<u64>,
) -> Result<String, AllocError> {
    match last {
        Some(last) => format!(in alloc; "{t} {rule} the last time of {stream}, {last}"),
        None => format!(in alloc;
            "{t} {rule} the last time of {stream}, which last {stream} tells"
        ),
    }
}

// Why a range is refused.
fn range(alloc: Global, from: u64, to: u64) -> Result<String, AllocError> {
    format!(in alloc; "the range ends before it begins: {from} is later than {to}")
}

// Why an event is refused for its parameters or its time.
fn of_event(alloc: Global, event: &Event, last: Option<u64>) -> Result<String, AllocError> {
    let stream = name_of_event(event).as_str();
    match event {
        Event::Create { params: given, .. } => params(alloc, given),
        Event::Value { t, .. } => time(alloc, *t, "isn't later than", stream, last),
        Event::Open { t, .. } => time(alloc, *t, "isn't later than", stream, last),
        Event::Close { t, .. } => time(alloc, *t, "is before", stream, last),
        Event::Drop { .. } => String::from_str(alloc, OTHERWISE),
    }
}

// A command that was refused for what the store holds, or for its parameters or its times.
fn of_command(
    alloc: Global,
    command: &Command,
    refusal: Refusal,
    last: Option<u64>,
) -> Result<String, AllocError> {
    let stream = stream_of_command(command);
    match (refusal, command) {
        (Refusal::Exists, _) => format!(in alloc;
            "a stream named {stream} stands already, with the parameters that list shows"
        ),
        (Refusal::Streams, _) => format!(in alloc;
            "the store takes no more than {MOST_STREAMS} streams"
        ),
        (Refusal::Unknown, _) => unknown(alloc, stream),
        (Refusal::Open, _) => format!(in alloc; "a landmark of {stream} is open already"),
        (Refusal::NotOpen, _) => format!(in alloc; "no landmark of {stream} is open"),
        (Refusal::StreamFull, _) => format!(in alloc;
            "{stream} takes no more values outside landmarks"
        ),
        (Refusal::StoreFull, _) => String::from_str(alloc, "the store takes no more records"),
        (_, Command::Do(event)) => of_event(alloc, event, last),
        (_, Command::Ask(query)) => range(alloc, query.from, query.to),
        (_, Command::Series(series)) => range(alloc, series.from, series.to),
        (_, Command::Certify { query, .. }) => range(alloc, query.from, query.to),
        (_, Command::Values { from, to, .. }) => range(alloc, *from, *to),
        _ => String::from_str(alloc, OTHERWISE),
    }
}

/// Why a line or a frame was refused, in words. A line that was too long isn't there. The last time of its stream is there where it
/// is known.
pub fn reason(
    alloc: Global,
    speaker: Speaker,
    line: Option<&[u8]>,
    command: Option<&Command>,
    refusal: Refusal,
    last: Option<u64>,
) -> Result<String, AllocError> {
    match (line, command, speaker) {
        (None, _, _) => format!(in alloc; "the line has more than {LONGEST_LINE} bytes"),
        (Some(_), Some(command), _) => of_command(alloc, command, refusal, last),
        (Some(piece), None, _) if refusal == Refusal::Frame => frame_reason(alloc, piece),
        (Some(line), None, Speaker::Session(session)) if is_of_cursor(line) => {
            of_cursor(alloc, session, line, refusal)
        }
        (Some(line), None, Speaker::Nobody) => of_nobody(alloc, line),
        (Some(line), None, _) => of_words(alloc, line, refusal),
    }
}
