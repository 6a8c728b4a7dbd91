// Stories that look random.
use crate::random::Random;
use crate::story::{Story, story_of};
use std::alloc::{AllocError, Global};

// What is known of a stream while lines are made for it.
#[derive(Clone, Copy)]
struct Known {
    stands: bool,
    is_open: bool,
    last: u64,
}

const NEW: Known = Known {
    stands: false,
    is_open: false,
    last: 0,
};

// How many streams there are.
const STREAMS: usize = 4;

const TARGETS: [&str; 8] = [
    "exp 2 1 1",
    "exp 2 1 1",
    "exp 3 2 1",
    "power 1 0 1 1",
    "power 1 0 1 2",
    "power 1 1 1 1",
    "exp 2 1 1 within 60",
    "power 1 0 1 4 within 10",
];

const MODES: [&str; 8] = [
    "",
    "",
    "batch",
    "batch",
    "sessions batch",
    "framed",
    "frames batch",
    "follow batch",
];

fn pick<'a>(words: &'a [&'static str], random: &mut Random) -> &'static str {
    let k = random.below(words.len() as u64) as usize;
    words.get(k).copied().unwrap_or("")
}

// Lines on the way.
#[derive(Drop)]
struct Lines {
    text: String,
    known: [Known; 4],
    may_drop: bool,
}

// A line of a stream that stands.
fn add_line(
    lines: &mut Lines,
    stream: usize,
    known: &mut Known,
    random: &mut Random,
) -> Result<(), AllocError> {
    let t = known
        .last
        .saturating_add(1)
        .saturating_add(random.below(20));
    match random.below(24) {
        0 => if lines.may_drop {
            *known = NEW;
            return write!(lines.text, "drop s{stream}\n");
        },
        1 | 2 => {
            let word = if known.is_open { "close" } else { "open" };
            known.is_open = !known.is_open;
            known.last = t;
            return write!(lines.text, "landmark s{stream} {word} {t}\n");
        }
        3 => return write!(lines.text, "query s{stream} sum 0 {t}\n"),
        _ => {}
    }
    known.last = t;
    let v = random.below(1000);
    write!(lines.text, "append s{stream} {t} {v}\n")
}

// A line of a stream, which is made where it doesn't stand.
fn add_of(
    lines: &mut Lines,
    stream: usize,
    known: &mut Known,
    random: &mut Random,
) -> Result<(), AllocError> {
    if known.stands {
        return add_line(lines, stream, known, random);
    }
    *known = NEW;
    known.stands = true;
    let target = pick(&TARGETS, random);
    write!(lines.text, "create s{stream} {target}\n")
}

// A line.
fn add(lines: &mut Lines, random: &mut Random) -> Result<(), AllocError> {
    let stream = random.below(STREAMS as u64) as usize % STREAMS;
    let mut known = lines.known[stream];
    add_of(lines, stream, &mut known, random)?;
    lines.known[stream] = known;
    Ok(())
}

// How many lines a story has: few as a rule, and sometimes more than the file has entries.
fn length(random: &mut Random) -> u64 {
    match random.below(8) {
        0 => 80u64.saturating_add(random.below(60)),
        1 | 2 => 20u64.saturating_add(random.below(40)),
        _ => 4u64.saturating_add(random.below(20)),
    }
}

fn lines_of(alloc: Global, may_drop: bool, random: &mut Random) -> Result<String, AllocError> {
    let mut lines = Lines {
        text: String::new(alloc),
        known: [NEW; 4],
        may_drop,
    };
    for _ in 0..length(random) {
        add(&mut lines, random)?;
    }
    Ok(lines.text)
}

// What is asked of each stream.
fn asks(alloc: Global) -> Result<String, AllocError> {
    let mut text = String::new(alloc);
    for stream in 0..STREAMS {
        write!(
            text,
            "windows s{stream}\nvalues s{stream} 0 1000000\nlast s{stream}\n"
        )?;
        write!(text, "query s{stream} has 7 0 1000000\n")?;
    }
    text.push_str("list\n")?;
    Ok(text)
}

/// The story of a seed.
pub fn story_by(alloc: Global, random: &mut Random) -> Result<Story, AllocError> {
    let mode = pick(&MODES, random);
    let is_sent = mode.contains("frames ") || mode.contains("follow");
    let checked = random.below(4) == 0;
    let piece = 1u64.saturating_add(random.below(400)) as usize;
    let lines = lines_of(alloc, !is_sent, random)?;
    let asks = asks(alloc)?;
    story_of(
        alloc,
        mode,
        checked,
        piece,
        lines.as_str().as_bytes(),
        asks.as_str().as_bytes(),
    )
}
