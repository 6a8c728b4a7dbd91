// Cuts an input into lines, in whatever pieces it comes.
ghost use Rattle.std.specs.Prelude.{◌≡◌, position};
ghost use Rattle.ss_command.specs.Lines.{is_line_end, without_return};

use crate::{CARRIAGE_RETURN, LINE_END, LONGEST_LINE};
use arrayvec::ArrayVec;
use std::marker::Model;

/// Of a line that is under way so many bytes are kept: one more than a line may have, for a carriage return at its end.
pub const MOST_BYTES_KEPT: usize = LONGEST_LINE + 1;

/// How a line ended: with its bytes kept, or with more bytes than a line may have, none of which are kept.
#[derive(Clone, Copy, Debug, PartialEq, Eq)]
pub enum Ended {
    Whole,
    TooLong,
}

/// Cuts an input into lines, in whatever pieces it comes. It keeps one line at a time, and drops one carriage return at its
/// end before it counts its bytes.
#[derive(Drop)]
pub struct LineReader {
    line: ArrayVec<u8, MOST_BYTES_KEPT>,
    long: bool,
    ended: bool,
}

impl Model for LineReader {
    ghost use Rattle.std.specs.Prelude.{if◌then◌else◌, Some, None};
    ghost use Rattle.ss_command.specs.LineState.{ReaderState};

    ghost Value = { ReaderState };

    ghost view = { λ r. record { line = if r.long then None else Some r.line.items; ended = r.ended } };
}

// Where the first line end stands.
fn first_line_end(piece: &[u8]) -> Option<usize>
    ensures { result ≡ position is_line_end piece.now }
{
    piece.iter().position(|b| *b == LINE_END)
}

// Drops one carriage return at the end of a line.
fn drop_return(line: &mut ArrayVec<u8, MOST_BYTES_KEPT>)
    ensures { line.new.items ≡ without_return line.old.items }
{
    if line.as_slice().last() == Some(&CARRIAGE_RETURN) {
        line.pop();
    }
}

impl LineReader {
    ghost use Rattle.std.specs.Prelude.{◌≡◌, ◌+◌, ◌<◌, ◌++◌, ℕ, List, length, take, [], Some, None, true, false, ◌↔◌, IsSome, IsTrue, IfSome};
    ghost use Rattle.std.specs.Prelude.{is_some, if◌then◌else◌, MatchOption};
    ghost use Rattle.std.specs.List.{before_first, position_or_len};
    ghost use Rattle.ss_command.specs.Lines.{is_line_end, lines, lines_so_far};
    ghost use Rattle.ss_command.specs.LineState.{under_way, extended, ended_line, HasRead, TellsLine};

    /// A reader at the front of an input.
    pub fn new() -> LineReader
        ensures state { result ≡ record { line = Some []; ended = false } }
        ensures taken { HasRead [] result }
    {
        LineReader {
            line: ArrayVec::new(),
            long: false,
            ended: false,
        }
    }

    // Leaves a line that has ended, for the next one.
    fn begin(&mut self)
        ensures { self.new ≡ record { line = under_way self.old; ended = false } }
    {
        if self.ended {
            self.line.clear();
            self.long = false;
            self.ended = false;
        }
    }

    // Adds bytes to the line, unless it is or gets too long.
    fn keep(&mut self, bytes: &[u8])
        ensures { self.new ≡ record { line = extended self.old.line bytes.now; ended = self.old.ended } }
    {
        if !self.long && self.line.try_extend_from_slice(bytes).is_err() {
            self.long = true;
        }
    }

    // Whether the line has no byte.
    fn has_no_bytes(&self) -> bool
        ensures { IsTrue result ↔ (self.now.line ≡ Some []) }
    {
        !self.long && self.line.is_empty()
    }

    // Ends the line, and says how.
    fn end(&mut self) -> Ended
        ensures line { self.new ≡ record { line = ended_line self.old.line; ended = true } }
        ensures whole { result ≡ Ended.Whole ↔ IsSome self.new.line }
    {
        self.ended = true;
        drop_return(&mut self.line);
        if self.line.len() > LONGEST_LINE {
            self.long = true;
        }
        if self.long {
            Ended::TooLong
        } else {
            Ended::Whole
        }
    }

    /// Takes bytes of the piece up to and with the first line end, and answers how many. Where there is a line end, the
    /// line has ended; else the piece is taken whole.
    pub fn feed(&mut self, piece: &[u8]) -> (usize, Option<Ended>)
        ensures ended { IsSome result.1 ↔ (position_or_len is_line_end piece.now < length piece.now) }
        ensures count { result.0 ≡ (if is_some result.1 then position_or_len is_line_end piece.now + 1 else length piece.now) }
        ensures line { let line = extended (under_way self.old) (before_first is_line_end piece.now) in
            self.new.line ≡ (if is_some result.1 then ended_line line else line) }
        ensures state { self.new.ended ≡ is_some result.1 }
        ensures whole { IfSome result.1 (λ e. e ≡ Ended.Whole ↔ IsSome self.new.line) }

        // Whatever the pieces were, the lines are those of the input.
        ensures taken { (input : List ℕ) → HasRead input self.old → HasRead (input ++ take result.0 piece.now) self.new }
        ensures lines { (input : List ℕ) → HasRead input self.old →
            TellsLine (lines_so_far input) (lines_so_far (input ++ take result.0 piece.now)) result.1 self.new }
    {
        self.begin();
        match first_line_end(piece) {
            None => {
                self.keep(piece);
                (piece.len(), None)
            }
            Some(at) => {
                self.keep(&piece[..at]);
                (at + 1, Some(self.end()))
            }
        }
    }

    /// Ends the last line of the input, where bytes of one were fed.
    pub fn finish(&mut self) -> Option<Ended>
        ensures none { result ≡ None ↔ (under_way self.old ≡ Some []) }
        ensures line { self.new.line ≡ (if is_some result then ended_line (under_way self.old) else under_way self.old) }
        ensures state { self.new.ended ≡ is_some result }
        ensures whole { IfSome result (λ e. e ≡ Ended.Whole ↔ IsSome self.new.line) }
        ensures lines { (input : List ℕ) → HasRead input self.old →
            TellsLine (lines_so_far input) (lines input) result self.new }
    {
        self.begin();
        if self.has_no_bytes() {
            return None;
        }
        Some(self.end())
    }

    /// The line that has ended, without its line end and a carriage return before it.
    pub fn line(&self) -> &[u8]
        requires ended { self.now.ended ≡ true }
        requires whole { IsSome self.now.line }
        ensures { self.now.line ≡ Some result.now }
    {
        self.line.as_slice()
    }
}
