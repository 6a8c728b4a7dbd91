// What a reply says, as far as it is needed to tell which line it is to.
use crate::speaker::untagged;
use ss_catalog::Refusal;
use std::str;

const REFUSALS: [Refusal; 17] = [
    Refusal::Line,
    Refusal::Syntax,
    Refusal::Number,
    Refusal::Name,
    Refusal::Param,
    Refusal::Exists,
    Refusal::Streams,
    Refusal::Unknown,
    Refusal::Open,
    Refusal::NotOpen,
    Refusal::Time,
    Refusal::Range,
    Refusal::StreamFull,
    Refusal::StoreFull,
    Refusal::Busy,
    Refusal::NoCursor,
    Refusal::Frame,
];

/// What the first line of a reply says.
#[derive(Clone, Copy)]
pub enum Said {
    Refused(Refusal),
    /// The stream of a frame has only so many events, and others come before that of the frame.
    Gap(u64),
    /// The event of a frame was there already.
    Old,
    /// The frame of an event, which stands behind the reply to it.
    Framed,
    /// Something else, after which so many rows follow.
    Rows(u64),
}

// The refusal of a name.
fn refusal_named(name: &str) -> Option<Refusal> {
    REFUSALS
        .iter()
        .copied()
        .find(|refusal| refusal.text() == name)
}

// How many rows follow after a head: as many as its last word says, and of certificates two for each.
fn rows_after(head: &str) -> u64 {
    let mut words = head.split(' ');
    let first = words.next().unwrap_or("");
    let count = words.last().unwrap_or("").parse::<u64>().unwrap_or(0);
    match first {
        "windows" | "list" | "series" | "estimates" | "rows" | "values" => count,
        "certify" => count.saturating_mul(2),
        _ => 0,
    }
}

/// What the first line of a reply says, given with its line end.
pub fn read_reply(reply: &[u8]) -> Said {
    let text = untagged(str::from_utf8(reply).unwrap_or("").trim_end());
    if let Some(refusal) = text
        .strip_prefix("refused ")
        .and_then(|name| refusal_named(name))
    {
        Said::Refused(refusal)
    } else if let Some(events) = text.strip_prefix("gap ") {
        Said::Gap(events.parse::<u64>().unwrap_or(0))
    } else if text == "old" {
        Said::Old
    } else if text.starts_with("frame ") {
        Said::Framed
    } else {
        Said::Rows(rows_after(text))
    }
}
