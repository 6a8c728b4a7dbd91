// The lines, or the frames, of the input that wait for a reply.
ghost use Rattle.std.specs.Prelude.{◌≡◌, ◌↔◌, true, IsSome};

use crate::speaker::{Speaker, is_of_cursor, spoken};
use arrayvec::ArrayVec;
use ss_arguments::Form;
use ss_command::{Command, Ended, LONGEST_LINE, LineReader, parse};
use ss_frames::{PieceReader, decode_piece};
use std::alloc::Global;
use std::collections::VecDeque;

/// A line, or a piece as long as a frame, that gets a reply.
#[derive(Drop)]
pub struct Heard {
    /// Its number in the input, from 1.
    pub number: u64,
    pub speaker: Speaker,
    /// Its bytes, where it isn't a line that is too long: of a line of a session, those that follow who says it.
    pub line: Option<ArrayVec<u8, LONGEST_LINE>>,
    /// What it asks for, where it is a command, or a frame.
    pub command: Option<Command>,
}

// So many lines are kept at the most, which is more than are read at once.
const MOST_WAITING: usize = 65_536;

// The line that has ended, where it is kept.
fn kept_line(reader: &LineReader, ended: Ended) -> Option<&[u8]>
    requires ended { reader.now.ended ≡ true }
    requires whole { ended ≡ Ended.Whole ↔ IsSome reader.now.line }
{
    match ended {
        Ended::Whole => Some(reader.line()),
        Ended::TooLong => None,
    }
}

// What a line asks for, where it is a command, and whether it gets a reply.
fn command_of(speaker: Speaker, text: &[u8]) -> (Option<Command>, bool) {
    if text.len() > LONGEST_LINE
        || speaker == Speaker::Nobody
        || speaker != Speaker::Alone && is_of_cursor(text)
    {
        return (None, true);
    }
    match parse(text) {
        Ok(None) => (None, false),
        Ok(Some(command)) => (Some(command), true),
        Err(_) => (None, true),
    }
}

// A line of at most so many bytes as a line may have, if it gets a reply.
fn heard_whole(form: Form, number: u64, line: &[u8]) -> Option<Heard> {
    let (speaker, text) = spoken(form, line);
    let (command, is_answered) = command_of(speaker, text);
    if !is_answered {
        return None;
    }
    let mut kept = ArrayVec::new();
    let _ = kept.try_extend_from_slice(text);
    Some(Heard {
        number,
        speaker,
        line: Some(kept),
        command,
    })
}

// A line, if it gets a reply.
fn heard_line(form: Form, number: u64, line: Option<&[u8]>) -> Option<Heard> {
    match line {
        Some(line) if line.len() <= LONGEST_LINE => heard_whole(form, number, line),
        _ => Some(Heard {
            number,
            speaker: Speaker::Alone,
            line: None,
            command: None,
        }),
    }
}

// A piece as long as a frame, or the last one.
fn heard_piece(number: u64, piece: &[u8]) -> Heard {
    let mut kept = ArrayVec::new();
    let _ = kept.try_extend_from_slice(piece);
    Heard {
        number,
        speaker: Speaker::Alone,
        line: Some(kept),
        command: decode_piece(piece).map(|frame| Command::Do(frame.event)),
    }
}

/// Cuts the input into lines, or into pieces as long as a frame, as they are read, and keeps those that wait for a reply. Where
/// memory runs out, it keeps none from there on.
#[derive(Drop)]
pub struct Waiting {
    form: Form,
    lines: LineReader,
    pieces: PieceReader,
    waiting: VecDeque<Heard>,
    count: u64,
    is_lost: bool,
}

impl Waiting {
    pub fn new(alloc: Global, form: Form) -> Waiting {
        Waiting {
            form,
            lines: LineReader::new(),
            pieces: PieceReader::new(),
            waiting: VecDeque::new(alloc),
            count: 0,
            is_lost: false,
        }
    }

    /// How many lines or pieces were read.
    pub fn count(&self) -> u64 {
        self.count
    }

    // Keeps a line or a piece, if it gets a reply.
    fn keep(&mut self, heard: Option<Heard>) {
        let Some(heard) = heard else {
            return;
        };
        if self.is_lost
            || self.waiting.len() >= MOST_WAITING
            || self.waiting.push_back(heard).is_err()
        {
            self.is_lost = true;
            self.waiting.clear();
        }
    }

    // Takes the line that has ended.
    fn hear_line(&mut self, ended: Ended)
        requires ended { self.old.lines.ended ≡ true }
        requires whole { ended ≡ Ended.Whole ↔ IsSome self.old.lines.line }
    {
        self.count = self.count.saturating_add(1);
        let heard = heard_line(self.form, self.count, kept_line(&self.lines, ended));
        self.keep(heard);
    }

    // Takes the piece that has ended.
    fn hear_piece(&mut self)
        requires { self.old.pieces.ended ≡ true }
    {
        self.count = self.count.saturating_add(1);
        let heard = heard_piece(self.count, self.pieces.bytes());
        self.keep(Some(heard));
    }

    // Takes bytes up to and with the first line end, and says how many.
    fn advance_line(&mut self, bytes: &[u8]) -> usize {
        let (taken, ended) = self.lines.feed(bytes);
        if let Some(ended) = ended {
            self.hear_line(ended);
        }
        taken
    }

    // Takes bytes up to the end of a piece, and says how many.
    fn advance_piece(&mut self, bytes: &[u8]) -> usize {
        let (taken, has_ended) = self.pieces.feed(bytes);
        if has_ended {
            self.hear_piece();
        }
        taken
    }

    // Takes bytes up to the end of a line, or of a piece, and says how many.
    fn advance(&mut self, bytes: &[u8]) -> usize {
        match self.form {
            Form::Follow => self.advance_piece(bytes),
            _ => self.advance_line(bytes),
        }
    }

    /// Takes bytes that were read.
    pub fn read(&mut self, piece: &[u8]) {
        let mut left = piece;
        for _ in 0..piece.len() {
            if left.is_empty() {
                break;
            }
            let taken = self.advance(left);
            left = left.get(taken..).unwrap_or(&[]);
        }
    }

    /// Takes the end of the input.
    pub fn finish(&mut self) {
        if self.form == Form::Follow {
            if self.pieces.finish() {
                self.hear_piece();
            }
        } else if let Some(ended) = self.lines.finish() {
            self.hear_line(ended);
        }
    }

    /// What the next reply is to, where it is known.
    pub fn next(&mut self) -> Option<Heard> {
        self.waiting.pop_front()
    }

    /// How many lines or pieces wait.
    pub fn len(&self) -> usize {
        self.waiting.len()
    }
}
