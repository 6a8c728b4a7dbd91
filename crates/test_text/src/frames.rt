// Frames as bytes and back, and the pieces of an input.
ghost use Rattle.std.specs.Prelude.{◌≡◌, ◌≤◌, true};

use crate::tables::{Subject, Text, cut, numbers_of, test, write, write_number};
use arrayvec::{ArrayString, ArrayVec};
use ss_catalog::{Event, Name, Params};
use ss_command::{Command, LONGEST_LINE, parse, put_target, put_value};
use ss_fields::read_u64;
use ss_frames::{
    FRAME_SIZE, Frame, PieceReader, decode_frame, decode_piece, decoded_is_what_is_spelled,
    encode_frame, frames_are_cut_apart, one_spelling, other_lengths_spell_nothing,
    pieces_give_the_input_back, pieces_have_the_size_of_a_frame, spelling_reads_back,
    spellings_have_one_size,
};
use std::test::Fail;

// The event that a line means, if it means one.
fn event_of(line: &[u8]) -> Option<Event> {
    if line.len() > LONGEST_LINE {
        return None;
    }
    match parse(line) {
        Ok(Some(Command::Do(event))) => Some(event),
        _ => None,
    }
}

// The frame of a number and a line, if there is one.
fn frame_of(words: &[u8]) -> Option<Frame> {
    let (number, line) = cut(words, b' ');
    match read_u64(number) {
        Ok(number) => Frame::of(number, event_of(line)?),
        Err(_) => None,
    }
}

// Writes a word of a command, and the name of a stream.
fn write_named(word: &[u8], name: &Name, out: &mut Text) {
    write(word, out);
    write(name.as_bytes(), out);
}

// Writes a target.
fn write_target(params: &Params, out: &mut Text) {
    let mut text = ArrayString::new();
    put_target(params, &mut text);
    write(text.as_str().as_bytes(), out);
}

// Writes a space and a time.
fn write_time(t: u64, out: &mut Text) {
    write(b" ", out);
    write_number(t, out);
}

// Writes a space and a value.
fn write_value(v: i64, out: &mut Text) {
    let mut text = ArrayString::new();
    put_value(v, &mut text);
    write(text.as_str().as_bytes(), out);
}

// Writes an event as the line that means it.
fn write_event(event: &Event, out: &mut Text) {
    match event {
        Event::Create { name, params } => {
            write_named(b"create ", name, out);
            write_target(params, out);
        }
        Event::Value { name, t, v } => {
            write_named(b"append ", name, out);
            write_time(*t, out);
            write_value(*v, out);
        }
        Event::Open { name, t } => {
            write_named(b"landmark ", name, out);
            write(b" open", out);
            write_time(*t, out);
        }
        Event::Close { name, t } => {
            write_named(b"landmark ", name, out);
            write(b" close", out);
            write_time(*t, out);
        }
        Event::Drop { name } => write_named(b"drop ", name, out),
    }
}

// Writes the number of a frame and its event, or "none".
fn write_frame(frame: Option<Frame>, out: &mut Text) {
    match frame {
        None => write(b"none", out),
        Some(frame) => {
            write_number(frame.number, out);
            write(b" ", out);
            write_event(&frame.event, out);
        }
    }
}

// Writes the two hexadecimal digits of each byte.
fn write_hexadecimal(bytes: &[u8], out: &mut Text) {
    for byte in bytes {
        let high = usize::from(*byte / 16);
        let low = usize::from(*byte % 16);
        write(&[b"0123456789abcdef"[high], b"0123456789abcdef"[low]], out);
    }
}

// The value of a hexadecimal digit, and 0 for what is none.
fn digit(byte: u8) -> u8
    ensures { result ≤ 15 }
{
    if b'0' <= byte && byte <= b'9' {
        byte - b'0'
    } else if b'a' <= byte && byte <= b'f' {
        byte - b'a' + 10
    } else {
        0
    }
}

// Writes the bytes that hexadecimal digits spell.
fn write_bytes(digits: &[u8], out: &mut Text) {
    for pair in digits.chunks(2) {
        if pair.len() == 2 {
            write(&[16 * digit(pair[0]) + digit(pair[1])], out);
        }
    }
}

// The bytes of the frame of a number and a line.
pub fn frame(words: &[u8], out: &mut Text) {
    match frame_of(words) {
        None => write(b"none", out),
        Some(frame) => write_hexadecimal(&encode_frame(&frame), out),
    }
}

#[test]
fn frames_are_spelled() -> Result<(), Fail> {
    test(
        Subject::Frame,
        "1 create a exp 2 1 1=\
        01010100000000000000000000000001610000000000000000000000000000000000000000000000000000000000000000000002000000010000000100000000\n\
        1 create a exp 2 1 1 within 60=\
        010101000000003c0000000000000001610000000000000000000000000000000000000000000000000000000000000000000002000000010000000100000000\n\
        1 create p power 1 1 4 2 within 4294967295=\
        01020100ffffffff0000000000000001700000000000000000000000000000000000000000000000000000000000000000000001000000010000000400000002\n\
        2 append a 10 5=\
        020001000000000000000000000000026100000000000000000000000000000000000000000000000000000000000000000000000000000a0000000000000005\n\
        3 append a 20 -3=\
        0200010000000000000000000000000361000000000000000000000000000000000000000000000000000000000000000000000000000014fffffffffffffffd\n\
        1 create p power 1 1 4 2=\
        01020100000000000000000000000001700000000000000000000000000000000000000000000000000000000000000000000001000000010000000400000002\n\
        4 landmark a open 100=\
        03000100000000000000000000000004610000000000000000000000000000000000000000000000000000000000000000000000000000640000000000000000\n\
        5 landmark a close 4611686018427387904=\
        04000100000000000000000000000005610000000000000000000000000000000000000000000000000000000000000040000000000000000000000000000000\n\
        18446744073709551615 append nnnnnnnnnnnnnnnnnnnnnnnnnnnnnnnn 4611686018427387904 -9223372036854775808=\
        0200200000000000ffffffffffffffff6e6e6e6e6e6e6e6e6e6e6e6e6e6e6e6e6e6e6e6e6e6e6e6e6e6e6e6e6e6e6e6e40000000000000008000000000000000\n\
        2 append a 0 9223372036854775807=\
        02000100000000000000000000000002610000000000000000000000000000000000000000000000000000000000000000000000000000007fffffffffffffff\n\
        0 create a exp 2 1 1=none\n\
        2 create a exp 2 1 1=none\n\
        1 create a exp 17 1 1=none\n\
        1 create a exp 2 1 1 within 0=none\n\
        1 create a power 5 1 4 2=none\n\
        0 append a 10 5=none\n\
        1 append a 10 5=none\n\
        1 landmark a open 100=none\n\
        1 landmark a close 100=none\n\
        0 drop a=none\n\
        1 drop a=none\n\
        2 drop a=none\n"
            .as_bytes(),
    )
}

// The frame that hexadecimal digits spell.
pub fn frame_bytes(digits: &[u8], out: &mut Text) {
    let mut bytes = ArrayVec::new();
    write_bytes(digits, &mut bytes);
    write_frame(decode_piece(bytes.as_slice()), out);
}

#[test]
fn frames_are_read() -> Result<(), Fail> {
    test(
        Subject::FrameBytes,
        "01010100000000000000000000000001610000000000000000000000000000000000000000000000000000000000000000000002000000010000000100000000=\
        1 create a exp 2 1 1\n\
        010101000000003c0000000000000001610000000000000000000000000000000000000000000000000000000000000000000002000000010000000100000000=\
        1 create a exp 2 1 1 within 60\n\
        01020100ffffffff0000000000000001700000000000000000000000000000000000000000000000000000000000000000000001000000010000000400000002=\
        1 create p power 1 1 4 2 within 4294967295\n\
        020001000000000000000000000000026100000000000000000000000000000000000000000000000000000000000000000000000000000a0000000000000005=\
        2 append a 10 5\n\
        0200010000000000000000000000000361000000000000000000000000000000000000000000000000000000000000000000000000000014fffffffffffffffd=\
        3 append a 20 -3\n\
        01020100000000000000000000000001700000000000000000000000000000000000000000000000000000000000000000000001000000010000000400000002=\
        1 create p power 1 1 4 2\n\
        03000100000000000000000000000004610000000000000000000000000000000000000000000000000000000000000000000000000000640000000000000000=\
        4 landmark a open 100\n\
        04000100000000000000000000000005610000000000000000000000000000000000000000000000000000000000000040000000000000000000000000000000=\
        5 landmark a close 4611686018427387904\n\
        0200200000000000ffffffffffffffff6e6e6e6e6e6e6e6e6e6e6e6e6e6e6e6e6e6e6e6e6e6e6e6e6e6e6e6e6e6e6e6e40000000000000008000000000000000=\
        18446744073709551615 append nnnnnnnnnnnnnnnnnnnnnnnnnnnnnnnn 4611686018427387904 -9223372036854775808\n\
        =none\n\
        020001000000000000000000000000026100000000000000000000000000000000000000000000000000000000000000000000000000000a00000000000000=\
        none\n\
        020001000000000000000000000000026100000000000000000000000000000000000000000000000000000000000000000000000000000a000000000000000500=\
        none\n"
            .as_bytes(),
    )
}

// The frame that is read where one byte of a frame is another one, of which a row has the place, the byte, and then the frame.
pub fn changed_frame(row: &[u8], out: &mut Text) {
    let (place, later) = cut(row, b' ');
    let (byte, words) = cut(later, b' ');
    let place = numbers_of(place)[0] as usize;
    let byte = numbers_of(byte)[0];
    if place >= FRAME_SIZE || byte > 255 {
        return;
    }
    if let Some(frame) = frame_of(words) {
        let mut bytes = encode_frame(&frame);
        bytes[place] = byte as u8;
        write_frame(decode_frame(&bytes), out);
    }
}

// Another kind of the same fields, and kinds that aren't there; a family that isn't there, and one of an event that has none; a name
// without bytes, one with a byte after it, and one of too many; bytes where no field is; a step, and one of an event that has none;
// other numbers; and other times and values.
#[test]
fn frames_that_differ_in_a_byte() -> Result<(), Fail> {
    test(
        Subject::ChangedFrame,
        "0 4 4 landmark a open 100=4 landmark a close 100\n\
        0 2 4 landmark a open 100=4 append a 100 0\n\
        0 0 4 landmark a open 100=none\n\
        0 5 4 landmark a open 100=none\n\
        0 9 4 landmark a open 100=none\n\
        0 2 1 create a exp 2 1 1=none\n\
        1 0 1 create a exp 2 1 1=none\n\
        1 2 1 create a exp 2 1 1=none\n\
        1 3 1 create p power 1 1 4 2=none\n\
        1 1 1 create p power 1 1 4 2=none\n\
        1 1 2 append a 10 5=none\n\
        2 0 2 append a 10 5=none\n\
        2 2 2 append a 10 5=none\n\
        2 33 2 append nnnnnnnnnnnnnnnnnnnnnnnnnnnnnnnn 10 5=none\n\
        2 255 2 append nnnnnnnnnnnnnnnnnnnnnnnnnnnnnnnn 10 5=none\n\
        3 1 2 append a 10 5=none\n\
        3 1 1 create a exp 2 1 1 within 60=none\n\
        4 1 1 create a exp 2 1 1=1 create a exp 2 1 1 within 16777216\n\
        7 1 1 create a exp 2 1 1=1 create a exp 2 1 1 within 1\n\
        7 0 1 create p power 1 1 4 2 within 60=1 create p power 1 1 4 2\n\
        4 1 2 append a 10 5=none\n\
        7 1 2 append a 10 5=none\n\
        7 1 5 landmark a close 100=none\n\
        15 3 2 append a 10 5=3 append a 10 5\n\
        15 1 2 append a 10 5=none\n\
        15 0 2 append a 10 5=none\n\
        15 2 1 create a exp 2 1 1=none\n\
        15 0 1 create a exp 2 1 1=none\n\
        15 1 4 landmark a open 100=none\n\
        8 255 2 append a 10 5=18374686479671623682 append a 10 5\n\
        16 98 2 append a 10 5=2 append b 10 5\n\
        16 47 2 append a 10 5=none\n\
        17 98 2 append a 10 5=none\n\
        47 98 2 append a 10 5=none\n\
        51 16 1 create a exp 2 1 1=1 create a exp 16 1 1\n\
        51 17 1 create a exp 2 1 1=none\n\
        63 1 1 create a exp 2 1 1=none\n\
        55 4 1 create p power 1 1 4 2=none\n\
        48 64 2 append a 0 5=2 append a 4611686018427387904 5\n\
        48 64 2 append a 1 5=none\n\
        48 64 4 landmark a open 1=none\n\
        48 64 4 landmark a close 1=none\n\
        63 6 2 append a 10 5=2 append a 10 6\n\
        56 128 2 append a 10 0=2 append a 10 -9223372036854775808\n\
        63 1 4 landmark a open 100=none\n\
        56 1 5 landmark a close 100=none\n"
            .as_bytes(),
    )
}

// Writes how many bytes a piece has, the first of them, and the frame that it spells.
fn write_piece(piece: &[u8], out: &mut Text) {
    write_number(piece.len() as u64, out);
    if !piece.is_empty() {
        write(&piece[..1], out);
    }
    write(b" ", out);
    write_frame(decode_piece(piece), out);
    write(b";", out);
}

// Writes the piece that has ended, if one has.
fn write_ended(reader: &PieceReader, ended: bool, out: &mut Text)
    requires { reader.now.ended ≡ ended }
{
    if ended {
        write_piece(reader.bytes(), out);
    }
}

// Feeds a chunk, each piece that ends in it.
fn feed_chunk(reader: &mut PieceReader, chunk: &[u8], out: &mut Text) {
    let mut rest = chunk;
    for _ in 0..chunk.len() {
        let (taken, ended) = reader.feed(rest);
        write_ended(reader, ended, out);
        rest = &rest[taken..];
    }
}

// Feeds an input in chunks of `size` bytes, at least one.
fn feed(reader: &mut PieceReader, input: &[u8], size: usize, out: &mut Text) {
    for chunk in input.chunks(size.max(1)) {
        feed_chunk(reader, chunk, out);
    }
}

// The pieces of an input in chunks.
fn write_pieces(input: &[u8], size: usize, out: &mut Text) {
    let mut reader = PieceReader::new();
    feed(&mut reader, input, size, out);
    for _ in 0..2 {
        let ended = reader.finish();
        write_ended(&reader, ended, out);
    }
}

// The pieces of an input, of which a row has the size of the chunks, and how many bytes it has, the first 'a' and each one letter
// further than the one before.
pub fn frame_pieces(row: &[u8], out: &mut Text) {
    let numbers = numbers_of(row);
    let mut input = ArrayVec::new();
    for at in 0..numbers[1].min(200) {
        write(&[b'a' + (at % 26) as u8], &mut input);
    }
    write_pieces(input.as_slice(), numbers[0] as usize, out);
}

#[test]
fn pieces_come_in_any_chunks() -> Result<(), Fail> {
    test(
        Subject::FramePieces,
        b"1 0=\n\
        1 1=1a none;\n\
        7 63=63a none;\n\
        63 64=64a none;\n\
        64 64=64a none;\n\
        65 64=64a none;\n\
        64 65=64a none;1m none;\n\
        1 130=64a none;64m none;2y none;\n\
        63 130=64a none;64m none;2y none;\n\
        100 130=64a none;64m none;2y none;\n\
        200 192=64a none;64m none;64y none;\n",
    )
}

// The frames of an input in chunks: those of a stream that is created and has two values, and then bytes of no whole one.
pub fn framed(size: &[u8], out: &mut Text) {
    let mut input = ArrayVec::new();
    for words in [
        b"1 create a exp 2 1 1".as_slice(),
        b"2 append a 10 5".as_slice(),
        b"3 append a 20 -3".as_slice(),
    ] {
        if let Some(frame) = frame_of(words) {
            write(&encode_frame(&frame), &mut input);
        }
    }
    write(b"\x01\x01\x01", &mut input);
    write_pieces(input.as_slice(), numbers_of(size)[0] as usize, out);
}

#[test]
fn frames_come_in_any_chunks() -> Result<(), Fail> {
    test(
        Subject::Framed,
        b"1=64\x01 1 create a exp 2 1 1;64\x02 2 append a 10 5;64\x02 3 append a 20 -3;3\x01 none;\n\
        5=64\x01 1 create a exp 2 1 1;64\x02 2 append a 10 5;64\x02 3 append a 20 -3;3\x01 none;\n\
        64=64\x01 1 create a exp 2 1 1;64\x02 2 append a 10 5;64\x02 3 append a 20 -3;3\x01 none;\n\
        150=64\x01 1 create a exp 2 1 1;64\x02 2 append a 10 5;64\x02 3 append a 20 -3;3\x01 none;\n",
    )
}

#[test]
fn laws_are_called() {
    decoded_is_what_is_spelled();
    spelling_reads_back();
    one_spelling();
    spellings_have_one_size();
    other_lengths_spell_nothing();
    pieces_give_the_input_back();
    pieces_have_the_size_of_a_frame();
    frames_are_cut_apart();
}
