// Tables of worked rows as text: a row is an input, '=', what it gives, and a line end.
use crate::{catalog, frames, generator, lines, numbers, replies, sessions};
use arrayvec::{ArrayString, ArrayVec};
use ss_fields::{print_u64, read_u64};
use std::test::Fail;

/// What an input gives.
pub type Text = ArrayVec<u8, 300>;

/// What the inputs of a table are given to.
#[derive(Clone, Copy)]
pub enum Subject {
    Line,
    Pieces,
    LongLine,
    Unsigned,
    Signed,
    Wide,
    FieldOfU32,
    FieldOfU64,
    FieldOfI64,
    FieldOfI128,
    Name,
    Params,
    Refusal,
    CommandAfter,
    CommandCount,
    Reply,
    Spoken,
    Frame,
    FrameBytes,
    ChangedFrame,
    FramePieces,
    Framed,
}

fn give(subject: Subject, input: &[u8], out: &mut Text) {
    match subject {
        Subject::Line => lines::line(input, out),
        Subject::Pieces => lines::pieces(input, out),
        Subject::LongLine => lines::long_line(input, out),
        Subject::Unsigned => numbers::unsigned(input, out),
        Subject::Signed => numbers::signed(input, out),
        Subject::Wide => numbers::wide(input, out),
        Subject::FieldOfU32 => numbers::field_of_u32(input, out),
        Subject::FieldOfU64 => numbers::field_of_u64(input, out),
        Subject::FieldOfI64 => numbers::field_of_i64(input, out),
        Subject::FieldOfI128 => numbers::field_of_i128(input, out),
        Subject::Name => catalog::name(input, out),
        Subject::Params => catalog::params(input, out),
        Subject::Refusal => catalog::refusal(input, out),
        Subject::CommandAfter => generator::command_after(input, out),
        Subject::CommandCount => generator::command_count(input, out),
        Subject::Reply => replies::reply(input, out),
        Subject::Spoken => sessions::spoken(input, out),
        Subject::Frame => frames::frame(input, out),
        Subject::FrameBytes => frames::frame_bytes(input, out),
        Subject::ChangedFrame => frames::changed_frame(input, out),
        Subject::FramePieces => frames::frame_pieces(input, out),
        Subject::Framed => frames::framed(input, out),
    }
}

/// Writes the bytes after what is there, and clears it where there is no room.
pub fn write(bytes: &[u8], out: &mut Text) {
    if out.try_extend_from_slice(bytes).is_err() {
        out.clear();
    }
}

/// Writes the bytes, with '/' for a line end and '<' for a return.
pub fn show(bytes: &[u8], out: &mut Text) {
    for byte in bytes {
        match *byte {
            b'\n' => write(b"/", out),
            b'\r' => write(b"<", out),
            other => write(&[other], out),
        }
    }
}

/// Writes a number.
pub fn write_number(value: u64, out: &mut Text) {
    let mut text = ArrayString::new();
    print_u64(value, &mut text);
    write(text.as_str().as_bytes(), out);
}

/// What stands before the first of this byte, and after it.
pub fn cut(bytes: &[u8], end: u8) -> (&[u8], &[u8]) {
    for at in 0..bytes.len() {
        if bytes[at] == end {
            return (&bytes[..at], &bytes[at + 1..]);
        }
    }
    (bytes, &bytes[bytes.len()..])
}

/// The first four numbers of a text, and 0 for each that is missing.
pub fn numbers_of(text: &[u8]) -> [u64; 4] {
    let mut all = [0; 4];
    let mut rest = text;
    for place in 0..4 {
        let (word, later) = cut(rest, b' ');
        if let Ok(number) = read_u64(word) {
            all[place] = number;
        }
        rest = later;
    }
    all
}

/// A number as one of 32 bits, and 0 for one that is none.
pub fn small(number: u64) -> u32 {
    if number > 4294967295 {
        return 0;
    }
    number as u32
}

fn is_right(subject: Subject, row: &[u8]) -> bool {
    let (input, want) = cut(row, b'=');
    let mut out = ArrayVec::new();
    give(subject, input, &mut out);
    out.as_slice() == want
}

// The first row that is wrong.
fn first_wrong(subject: Subject, table: &[u8]) -> Option<u32> {
    let mut rest = table;
    for row in 0..1000 {
        if rest.is_empty() {
            return None;
        }
        let (line, later) = cut(rest, b'\n');
        if !is_right(subject, line) {
            return Some(row);
        }
        rest = later;
    }
    Some(1000)
}

/// Passes where no row is wrong.
pub fn pass(wrong: Option<u32>) -> Result<(), Fail> {
    match wrong {
        None => Ok(()),
        Some(row) => Err(Fail::new(format_args!("row {row}"))),
    }
}

/// Passes where each row of the table holds.
pub fn test(subject: Subject, table: &[u8]) -> Result<(), Fail> {
    pass(first_wrong(subject, table))
}
