// What is run and crashed: lines, how they are given to a run, and what is asked of the store then.
use crate::bytes::part;
use crate::images::disk_of;
use crate::noted::Noted;
use crate::runs::{run_on, whole};
use ss_journal::make_checked;
use ss_outside::MemDisk;
use std::alloc::{AllocError, Global};

/// How many bytes a frame has.
pub const FRAME: usize = 64;

/// Lines, of which each event is accepted.
#[derive(Drop)]
pub struct Story {
    // The words behind the store, and whether it's a checked one.
    pub mode: String,
    pub checked: bool,
    // How many bytes a read gives.
    pub piece: usize,
    // The lines as a plain run takes them, and where each event ends there.
    pub lines: Vec<u8>,
    pub line_ends: Vec<usize>,
    // What the run is given, and where each event ends there.
    pub input: Vec<u8>,
    pub ends: Vec<usize>,
    // The lines that ask for what stands.
    pub asks: Vec<u8>,
}

/// Whether a line does something.
pub fn is_event(line: &[u8]) -> bool {
    line.starts_with(b"create ")
        || line.starts_with(b"append ")
        || line.starts_with(b"landmark ")
        || line.starts_with(b"drop ")
}

fn has_word(mode: &str, wanted: &str) -> bool {
    for word in mode.split_whitespace() {
        if word == wanted {
            return true;
        }
    }
    false
}

/// A new store, which is checked or not.
pub fn new_disk(alloc: Global, checked: bool) -> Result<Noted<MemDisk>, AllocError> {
    let mut disk = disk_of(alloc, &[])?;
    if checked {
        let _ = make_checked(&mut disk);
    }
    Ok(disk)
}

// Adds a line to what a run is given, in sessions with a session before it.
fn give_line(story: &mut Story, line: &[u8], in_sessions: bool) -> Result<(), AllocError> {
    if in_sessions {
        let session = (story.ends.len() % 8) as u8;
        story.input.push(b'@')?;
        story.input.push(b'0'.saturating_add(session))?;
        story.input.push(b' ')?;
    }
    story.input.extend_from_slice(line)?;
    if is_event(line) {
        story.ends.push(story.input.len())?;
    }
    Ok(())
}

// Adds a line.
fn add_line(story: &mut Story, line: &[u8], in_sessions: bool) -> Result<(), AllocError> {
    story.lines.extend_from_slice(line)?;
    if is_event(line) {
        story.line_ends.push(story.lines.len())?;
    }
    give_line(story, line, in_sessions)
}

// Adds each line of a text.
fn add_lines(story: &mut Story, lines: &[u8], in_sessions: bool) -> Result<(), AllocError> {
    let mut from = 0usize;
    for (k, byte) in lines.iter().enumerate() {
        if *byte == b'\n' {
            let to = k.saturating_add(1);
            add_line(story, part(lines, from, to), in_sessions)?;
            from = to;
        }
    }
    Ok(())
}

// Has the run be given the frames of the lines.
fn give_frames(alloc: Global, story: &mut Story) -> Result<(), AllocError> {
    let mut disk = disk_of(alloc, &[])?;
    story.input = run_on(alloc, "frames", &mut disk, whole(&story.lines, 4096))?.written;
    story.ends.clear();
    for k in 1..=story.input.len() / FRAME {
        story.ends.push(k.saturating_mul(FRAME))?;
    }
    Ok(())
}

fn empty(alloc: Global, mode: &str, checked: bool, piece: usize) -> Result<Story, AllocError> {
    Ok(Story {
        mode: String::from_str(alloc, mode)?,
        checked,
        piece,
        lines: Vec::new(alloc),
        line_ends: Vec::new(alloc),
        input: Vec::new(alloc),
        ends: Vec::new(alloc),
        asks: Vec::new(alloc),
    })
}

/// The lines of a text, to be run in a mode. Frames are made of them where the mode follows.
pub fn story_of(
    alloc: Global,
    mode: &str,
    checked: bool,
    piece: usize,
    lines: &[u8],
    asks: &[u8],
) -> Result<Story, AllocError> {
    let mut story = empty(alloc, mode, checked, piece)?;
    add_lines(&mut story, lines, has_word(mode, "sessions"))?;
    if has_word(mode, "follow") {
        give_frames(alloc, &mut story)?;
    }
    story.asks.extend_from_slice(asks)?;
    Ok(story)
}

impl Story {
    /// How many events there are.
    pub fn events(&self) -> usize {
        self.ends.len()
    }

    /// The lines up to so many events.
    pub fn front(&self, events: usize) -> &[u8] {
        match events.checked_sub(1).and_then(|k| self.line_ends.get(k)) {
            Some(end) => part(&self.lines, 0, *end),
            None => &[],
        }
    }

    /// What a run is given after so many events.
    pub fn rest(&self, events: usize) -> &[u8] {
        match events.checked_sub(1).and_then(|k| self.ends.get(k)) {
            Some(end) => part(&self.input, *end, self.input.len()),
            None => &self.input,
        }
    }

    // How many events end within so many bytes of what a run is given.
    fn within(&self, bytes: usize) -> usize {
        let mut count = 0usize;
        for end in &self.ends {
            if *end <= bytes {
                count = count.saturating_add(1);
            }
        }
        count
    }

    /// How many events may be on the disk of a run that acknowledged so many.
    pub fn most(&self, acknowledged: usize) -> usize {
        if !has_word(&self.mode, "batch") {
            return acknowledged.saturating_add(1).min(self.events());
        }
        let piece = self.piece.max(1);
        for read in 1..=self.input.len() / piece + 1 {
            if self.within(read.saturating_mul(piece)) > acknowledged {
                return self.within(read.saturating_mul(piece));
            }
        }
        self.events()
    }

    /// How many events were acknowledged by what a run wrote.
    pub fn acknowledged(&self, written: &[u8]) -> usize {
        if has_word(&self.mode, "frames") {
            return written.len() / FRAME;
        }
        let mut count = 0usize;
        let mut from = 0usize;
        for (k, byte) in written.iter().enumerate() {
            if *byte == b'\n' {
                let line = part(written, from, k);
                let behind = if line.starts_with(b"@") {
                    part(line, 3, line.len())
                } else {
                    line
                };
                if behind.starts_with(b"ok ") {
                    count = count.saturating_add(1);
                }
                from = k.saturating_add(1);
            }
        }
        count
    }
}
