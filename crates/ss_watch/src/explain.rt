// Says why lines and frames are refused. It hears the input and the replies, and pairs them: these come in one order.
use crate::frames::gap_reason;
use crate::last_times::LastTimes;
use crate::reasons::reason;
use crate::replies::{Said, read_reply};
use crate::waiting::{Heard, Waiting};
use ss_arguments::Form;
use ss_catalog::{Event, Refusal};
use ss_command::{Command, LONGEST_LINE, parse};
use ss_frames::{FRAME_SIZE, decode_piece};
use std::alloc::{AllocError, Global};

/// So many refused lines or frames are explained, where their replies aren't read as they come.
pub const MOST_EXPLAINED: u64 = 20;

/// What an input is made of, as it is counted.
#[derive(Clone, Copy, Debug, PartialEq, Eq)]
pub enum Unit {
    Line,
    Frame,
}

impl Unit {
    /// One of them.
    pub fn one(self) -> &'static str {
        match self {
            Unit::Line => "line",
            Unit::Frame => "frame",
        }
    }

    /// Several of them.
    pub fn many(self) -> &'static str {
        match self {
            Unit::Line => "lines",
            Unit::Frame => "frames",
        }
    }
}

/// Why a line was refused, or a frame was refused or came too early.
#[derive(Drop)]
pub struct Explained {
    pub unit: Unit,
    /// Its number in the input, from 1.
    pub number: u64,
    /// What was replied, in a word.
    pub word: &'static str,
    pub reason: String,
}

/// How many lines or frames were read so far, how many of them were accepted, and how many were refused, or came too early.
#[derive(Clone, Copy)]
pub struct Counts {
    pub unit: Unit,
    pub read: u64,
    pub accepted: u64,
    pub refused: u64,
}

/// Pairs the lines or the frames of the input with the replies.
#[derive(Drop)]
pub struct Explainer {
    alloc: Global,
    // So many refused ones are explained.
    most: u64,
    form: Form,
    waiting: Waiting,
    times: LastTimes,
    // So many rows of a reply are still to come.
    rows: u64,
    accepted: u64,
    refused: u64,
    // So many events were read, and so many bytes of frames were written, where frames stand in the place of replies.
    events: u64,
    written: u64,
}

// Why a line that means nothing is refused by itself.
fn refusal_alone(line: Option<&[u8]>) -> Refusal {
    match line {
        Some(line) if line.len() <= LONGEST_LINE => match parse(line) {
            Err(refusal) => refusal,
            Ok(_) => Refusal::Line,
        },
        _ => Refusal::Line,
    }
}

impl Explainer {
    pub fn new(alloc: Global, most: u64, form: Form) -> Explainer {
        Explainer {
            alloc,
            most,
            form,
            waiting: Waiting::new(alloc, form),
            times: LastTimes::new(alloc),
            rows: 0,
            accepted: 0,
            refused: 0,
            events: 0,
            written: 0,
        }
    }

    /// What the input is made of.
    pub fn unit(&self) -> Unit {
        match self.form {
            Form::Follow => Unit::Frame,
            _ => Unit::Line,
        }
    }

    pub fn counts(&self) -> Counts {
        Counts {
            unit: self.unit(),
            read: self.waiting.count(),
            accepted: self.accepted,
            refused: self.refused,
        }
    }

    /// Takes bytes that were read, where none are the end of the input.
    pub fn read(&mut self, bytes: &[u8]) {
        if bytes.is_empty() {
            self.waiting.finish();
        } else {
            self.waiting.read(bytes);
        }
    }

    // Why a line was refused.
    fn reason(&self, heard: &Heard, refusal: Refusal) -> Result<String, AllocError> {
        let command = heard.command.as_ref();
        let last = command.and_then(|command| self.times.last_for(command));
        let line = heard.line.as_ref().map(|line| line.as_slice());
        reason(self.alloc, heard.speaker, line, command, refusal, last)
    }

    // What is explained, unless enough was, or memory ran out.
    fn explained(
        &self,
        heard: &Heard,
        word: &'static str,
        reason: Result<String, AllocError>,
    ) -> Option<Explained> {
        if self.refused > self.most {
            return None;
        }
        match reason {
            Ok(reason) => Some(Explained {
                unit: self.unit(),
                number: heard.number,
                word,
                reason,
            }),
            Err(_) => None,
        }
    }

    // Explains why a line or a frame was refused.
    fn explain(&self, heard: &Heard, refusal: Refusal) -> Option<Explained> {
        self.explained(heard, refusal.text(), self.reason(heard, refusal))
    }

    // Takes that a line was accepted, after whose reply's first line so many rows follow.
    fn accept(&mut self, rows: u64) {
        self.accepted = self.accepted.saturating_add(1);
        self.rows = rows;
        let heard = self.waiting.next();
        if let Some(command) = heard.as_ref().and_then(|heard| heard.command.as_ref()) {
            self.times.accept(command);
        }
    }

    // Takes that a line was refused. It counts also where it isn't known which line that was.
    fn refuse(&mut self, refusal: Refusal) -> Option<Explained> {
        self.refused = self.refused.saturating_add(1);
        let heard = self.waiting.next()?;
        self.explain(&heard, refusal)
    }

    // Takes that a frame came before others of its stream, which has so many events.
    fn leave(&mut self, events: u64) -> Option<Explained> {
        self.refused = self.refused.saturating_add(1);
        let heard = self.waiting.next()?;
        let piece = heard.line.as_ref().map(|line| line.as_slice());
        let frame = piece.and_then(|piece| decode_piece(piece))?;
        self.explained(&heard, "gap", gap_reason(self.alloc, &frame, events))
    }

    // Takes the first line of a reply.
    fn begin(&mut self, said: Said) -> Option<Explained> {
        match said {
            Said::Refused(refusal) => self.refuse(refusal),
            Said::Gap(events) => self.leave(events),
            Said::Old => {
                let _ = self.waiting.next();
                None
            }
            Said::Framed => None,
            Said::Rows(rows) => {
                self.accept(rows);
                None
            }
        }
    }

    /// Takes a line of a reply, and explains the line of the input that it is to, where that was refused.
    pub fn reply(&mut self, text: &[u8]) -> Option<Explained> {
        if self.rows > 0 {
            self.rows -= 1;
            None
        } else {
            self.begin(read_reply(text))
        }
    }

    // Takes a line to which nothing is replied, and explains it where it is refused by itself. A drop isn't done.
    fn hear_alone(&mut self, heard: &Heard) -> Option<Explained> {
        match &heard.command {
            Some(Command::Do(Event::Drop { .. })) => None,
            Some(Command::Do(_)) => {
                self.events = self.events.saturating_add(1);
                None
            }
            Some(_) => None,
            None => {
                self.refused = self.refused.saturating_add(1);
                self.explain(
                    heard,
                    refusal_alone(heard.line.as_ref().map(|line| line.as_slice())),
                )
            }
        }
    }

    /// Where frames stand in the place of replies: takes the lines that were read, up to one that is refused by itself, and explains
    /// this one.
    pub fn misspelt(&mut self) -> Option<Explained> {
        if self.form != Form::Frames {
            return None;
        }
        for _ in 0..self.waiting.len() {
            let heard = self.waiting.next()?;
            let explained = self.hear_alone(&heard);
            if explained.is_some() {
                return explained;
            }
        }
        None
    }

    /// So many bytes of frames were written in the place of replies.
    pub fn write(&mut self, count: usize) {
        self.written = self.written.saturating_add(count as u64);
        self.accepted = self.written / FRAME_SIZE as u64;
    }

    /// The run is done. Where frames stand in the place of replies, each event without one was refused.
    pub fn finish(&mut self) {
        if self.form == Form::Frames {
            let without = self.events.saturating_sub(self.accepted);
            self.refused = self.refused.saturating_add(without);
        }
    }
}
