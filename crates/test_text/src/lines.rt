// Lines cut out of an input, and what they mean.
ghost use Rattle.std.specs.Prelude.{◌≡◌, ◌<◌, ◌↔◌, IfSome, IsSome, is_some};

use crate::tables::{Subject, Text, cut, numbers_of, show, test, write, write_number};
use arrayvec::{ArrayString, ArrayVec};
use ss_catalog::{Event, Family, Kind, Params, Query, Series};
use ss_command::{Command, Ended, LONGEST_LINE, LineReader, parse};
use ss_fields::print_i64;
use std::test::Fail;

// Writes a word behind a space.
fn write_word(word: &[u8], out: &mut Text) {
    write(b" ", out);
    write(word, out);
}

fn write_signed(value: i64, out: &mut Text) {
    let mut text = ArrayString::new();
    print_i64(value, &mut text);
    write_word(text.as_str().as_bytes(), out);
}

fn write_numbers(numbers: &[u64], out: &mut Text) {
    for number in numbers {
        write(b" ", out);
        write_number(*number, out);
    }
}

fn write_params(params: Params, out: &mut Text) {
    match params.family {
        Family::Exp { b, r, s } => {
            write(b" exp", out);
            write_numbers(&[u64::from(b), u64::from(r), u64::from(s)], out);
        }
        Family::Power { p, q, r, s } => {
            write(b" power", out);
            write_numbers(
                &[u64::from(p), u64::from(q), u64::from(r), u64::from(s)],
                out,
            );
        }
    }
    if let Some(within) = params.within {
        write(b" within", out);
        write_numbers(&[u64::from(within)], out);
    }
}

fn write_event(event: &Event, out: &mut Text) {
    match *event {
        Event::Create { name, params } => {
            write(b"create", out);
            write_word(name.as_str().as_bytes(), out);
            write_params(params, out);
        }
        Event::Value { name, t, v } => {
            write(b"append", out);
            write_word(name.as_str().as_bytes(), out);
            write_numbers(&[t], out);
            write_signed(v, out);
        }
        Event::Open { name, t } => {
            write(b"landmark", out);
            write_word(name.as_str().as_bytes(), out);
            write(b" open", out);
            write_numbers(&[t], out);
        }
        Event::Close { name, t } => {
            write(b"landmark", out);
            write_word(name.as_str().as_bytes(), out);
            write(b" close", out);
            write_numbers(&[t], out);
        }
        Event::Drop { name } => {
            write(b"drop", out);
            write_word(name.as_str().as_bytes(), out);
        }
    }
}

// Writes what is asked for, and of `has` the value.
fn write_kind(kind: Kind, out: &mut Text) {
    write_word(kind.text().as_bytes(), out);
    if let Kind::Has { value } = kind {
        write_signed(value, out);
    }
}

fn write_query(query: &Query, out: &mut Text) {
    let verb: &[u8] = match query.kind {
        Kind::CountGuess | Kind::SumGuess | Kind::MeanGuess => b"estimate",
        _ => b"query",
    };
    write(verb, out);
    write_word(query.name.as_str().as_bytes(), out);
    write_kind(query.kind, out);
    write_numbers(&[query.from, query.to], out);
}

fn write_series(series: &Series, out: &mut Text) {
    write(series.kind.series_verb().as_bytes(), out);
    write_word(series.name.as_str().as_bytes(), out);
    write_kind(series.kind, out);
    write_numbers(&[series.from, series.to, series.step], out);
}

// Writes a command: its words with one space between them, numbers without leading zeros.
pub fn write_command(command: &Command, out: &mut Text) {
    match command {
        Command::Do(event) => write_event(event, out),
        Command::Ask(query) => write_query(query, out),
        Command::Series(series) => write_series(series, out),
        Command::Windows(name) => {
            write(b"windows", out);
            write_word(name.as_str().as_bytes(), out);
        }
        Command::List => write(b"list", out),
        Command::Certify { query, end } => {
            write(b"certify", out);
            write_word(query.name.as_str().as_bytes(), out);
            write_kind(query.kind, out);
            write_word(end.text().as_bytes(), out);
            write_numbers(&[query.from, query.to], out);
        }
        Command::Last(name) => {
            write(b"last", out);
            write_word(name.as_str().as_bytes(), out);
        }
        Command::Values { name, from, to } => {
            write(b"values", out);
            write_word(name.as_str().as_bytes(), out);
            write_numbers(&[*from, *to], out);
        }
    }
}

// What a line means: the command, the name of a refusal, or "none".
pub fn line(line: &[u8], out: &mut Text) {
    if line.len() <= LONGEST_LINE {
        match parse(line) {
            Ok(Some(command)) => write_command(&command, out),
            Ok(None) => write(b"none", out),
            Err(refusal) => write(refusal.text().as_bytes(), out),
        }
    }
}

// Lines without a word, and comments; lines that fit no form, also of landmarks and queries; lines with a number that is none, or past
// its range; and lines with a word in the place of a name. '\x20' is a space at the front.
#[test]
fn lines_without_a_command() -> Result<(), Fail> {
    test(
        Subject::Line,
        "=none\n\
        \x20\t =none\n\
        # note=none\n\
        #=none\n\
        \x20# note=SYNTAX\n\
        LIST=SYNTAX\n\
        list a=SYNTAX\n\
        lists=SYNTAX\n\
        windows=SYNTAX\n\
        windows a b=SYNTAX\n\
        append a 1=SYNTAX\n\
        append a 1 2 3=SYNTAX\n\
        create a=SYNTAX\n\
        create a linear 1 1 1=SYNTAX\n\
        create a exp 2 1=SYNTAX\n\
        create a exp 2 1 1 1=SYNTAX\n\
        create a power 1 0 1=SYNTAX\n\
        create a power 1 0 1 1 1=SYNTAX\n\
        create a exp 2 1 1 within=SYNTAX\n\
        create a exp 2 1 1 withing 5=SYNTAX\n\
        create a exp 2 1 1 Within 5=SYNTAX\n\
        create x! exp y 1 1 inside 5=SYNTAX\n\
        create a exp 2 1 1 within 5 6=SYNTAX\n\
        create a exp 2 1 within 5=SYNTAX\n\
        create a within 5 exp 2 1 1=SYNTAX\n\
        create a power 1 0 1 within 5=SYNTAX\n\
        create a power 1 0 1 1 within=SYNTAX\n\
        create a power 1 0 1 1 5 within=SYNTAX\n\
        create a power 1 0 1 1 within 5 6=SYNTAX\n\
        landmark a open=SYNTAX\n\
        landmark a open 1 2=SYNTAX\n\
        landmark a shut 1=SYNTAX\n\
        landmark a Open 1=SYNTAX\n\
        landmark x! shut y=SYNTAX\n\
        drop=SYNTAX\n\
        drop a b=SYNTAX\n\
        drop x! b=SYNTAX\n\
        Drop a=SYNTAX\n\
        query a sum 1=SYNTAX\n\
        query a sum 1 2 3=SYNTAX\n\
        query a avg 1 2=SYNTAX\n\
        query a mean 1=SYNTAX\n\
        query a Mean 1 2=SYNTAX\n\
        query a MIN 1 2=SYNTAX\n\
        query x! avg y 2=SYNTAX\n\
        query a has=SYNTAX\n\
        query a has 1 2=SYNTAX\n\
        query a has 5 1 2 3=SYNTAX\n\
        query a HAS 5 1 2=SYNTAX\n\
        query a 5 has 1 2=SYNTAX\n\
        query a count 5 1 2=SYNTAX\n\
        query x! has y 2=SYNTAX\n\
        series a has 1 2 3=SYNTAX\n\
        series a has 5 1 2 3=SYNTAX\n\
        certify a has lo 1 2=SYNTAX\n\
        certify a has 5 1 2=SYNTAX\n\
        series a sum 1 2=SYNTAX\n\
        series a sum 1 2 3 4=SYNTAX\n\
        series a mean 1 2=SYNTAX\n\
        series x! Sum y 2 0=SYNTAX\n\
        estimate a sum 1=SYNTAX\n\
        estimate a sum 1 2 3=SYNTAX\n\
        estimate a min 0 9=SYNTAX\n\
        estimate a has 5 0 9=SYNTAX\n\
        estimates a max 0 9 1=SYNTAX\n\
        estimates x! Sum y 2 0=SYNTAX\n\
        estimates a sum 0 9=SYNTAX\n\
        certify a sum lo 1=SYNTAX\n\
        certify a sum lo 1 2 3=SYNTAX\n\
        certify a min lo 1 2=SYNTAX\n\
        certify a max hi 1 2=SYNTAX\n\
        certify a mean 1 2=SYNTAX\n\
        certify a mean mid 1 2=SYNTAX\n\
        certify a sum Lo 1 2=SYNTAX\n\
        certify a lo sum 1 2=SYNTAX\n\
        certify x! count low y 2=SYNTAX\n\
        last=SYNTAX\n\
        last e! 1=SYNTAX\n\
        Last e=SYNTAX\n\
        values b=SYNTAX\n\
        values b! 5=SYNTAX\n\
        values b! y 5 6=SYNTAX\n\
        append x! y 1=NUMBER\n\
        landmark x! open y=NUMBER\n\
        landmark a open 4611686018427387905=NUMBER\n\
        landmark a close -1=NUMBER\n\
        query x! sum 1 y=NUMBER\n\
        query a sum -1 2=NUMBER\n\
        query a max 0 4611686018427387905=NUMBER\n\
        query x! has y 1 2=NUMBER\n\
        query x! has -5 y 2=NUMBER\n\
        query x! has -5 1 y=NUMBER\n\
        query a has +5 1 2=NUMBER\n\
        query a has 5.0 1 2=NUMBER\n\
        query a has 5 -1 2=NUMBER\n\
        query a has 5 0 4611686018427387905=NUMBER\n\
        query a has 9223372036854775808 1 2=NUMBER\n\
        query a has -9223372036854775809 1 2=NUMBER\n\
        series x! sum y 2 1=NUMBER\n\
        series x! sum 1 2 0=NUMBER\n\
        series a sum 1 2 -1=NUMBER\n\
        series a sum 2 1 0=NUMBER\n\
        series a sum 1 2 4611686018427387905=NUMBER\n\
        series a sum 0 100000 1=NUMBER\n\
        series x! sum 0 200000 2=NUMBER\n\
        estimate x! sum y 9=NUMBER\n\
        estimate a count 0 4611686018427387905=NUMBER\n\
        estimates a sum 0 200000 2=NUMBER\n\
        estimates x! sum 9 0 0=NUMBER\n\
        certify x! sum lo 1 y=NUMBER\n\
        certify a sum hi -1 2=NUMBER\n\
        certify a count hi 0 4611686018427387905=NUMBER\n\
        values b! y 5=NUMBER\n\
        values b! 5 x=NUMBER\n\
        values b 0 4611686018427387905=NUMBER\n\
        append a 1 +1=NUMBER\n\
        append a -1 1=NUMBER\n\
        append a 1 --1=NUMBER\n\
        append a 1 -=NUMBER\n\
        append a 4611686018427387905 1=NUMBER\n\
        append a 80 9223372036854775808=NUMBER\n\
        append a 80 -9223372036854775809=NUMBER\n\
        create a exp 4294967296 1 1=NUMBER\n\
        create a power 1 0 1 -1=NUMBER\n\
        create x! exp 2 1 y=NUMBER\n\
        create a exp 2 1 1 within 4294967296=NUMBER\n\
        create a exp 2 1 1 within -1=NUMBER\n\
        create a exp 2 1 1 within within=NUMBER\n\
        create x! exp 2 1 1 within y=NUMBER\n\
        create a exp within 1 1 within 5=NUMBER\n\
        create a power 1 0 1 1 within 4294967296=NUMBER\n\
        create a power 1 0 1 1 within 1.5=NUMBER\n\
        append x! 1 1=NAME\n\
        landmark x! close 1=NAME\n\
        drop x!=NAME\n\
        drop abcdefghijklmnopqrstuvwxyz0123456=NAME\n\
        query x! sum 1 2=NAME\n\
        query x! has -5 2 1=NAME\n\
        query abcdefghijklmnopqrstuvwxyz0123456 has 5 1 2=NAME\n\
        series x! sum 0 199999 2=NAME\n\
        estimate x! sum 9 4=NAME\n\
        estimates x! count 0 199999 2=NAME\n\
        certify x! count lo 1 2=NAME\n\
        last e!=NAME\n\
        values f! 5 4=NAME\n\
        windows a/b=NAME\n\
        windows a\0=NAME\n\
        windows abcdefghijklmnopqrstuvwxyz0123456=NAME\n\
        create x! exp 2 1 1=NAME\n\
        create x! exp 2 1 1 within 0=NAME\n\
        create x! power 1 0 1 1 within 4294967295=NAME\n"
            .as_bytes(),
    )
}

#[test]
fn bytes_past_ascii_and_returns_are_refused() -> Result<(), Fail> {
    test(
        Subject::Line,
        b"list\r=SYNTAX\n\
        \0\xff=SYNTAX\n\
        windows \xc3\xa9=NAME\n",
    )
}

// Commands, each as it is printed.
#[test]
fn commands_are_printed() -> Result<(), Fail> {
    test(
        Subject::Line,
        "list=list\n\
        \t list \t\t=list\n\
        windows abcdefghijklmnopqrstuvwxyz012345=windows abcdefghijklmnopqrstuvwxyz012345\n\
        create  a\texp 2 1 1 =create a exp 2 1 1\n\
        create a exp 0 0 4294967295=create a exp 0 0 4294967295\n\
        create a power 01 000 4294967295 0=create a power 1 0 4294967295 0\n\
        create a exp 2 1 1 within 1=create a exp 2 1 1 within 1\n\
        create a exp 2 1 1 within 4294967295=create a exp 2 1 1 within 4294967295\n\
        create a exp 2 1 1 within 0=create a exp 2 1 1 within 0\n\
        \x20create\tb power 1 0 1 1\twithin  00060 =create b power 1 0 1 1 within 60\n\
        create within exp 2 1 1 within 5=create within exp 2 1 1 within 5\n\
        create abcdefghijklmnopqrstuvwxyz012345 power 4294967295 4294967295 4294967295 4294967295 within 4294967295=\
        create abcdefghijklmnopqrstuvwxyz012345 power 4294967295 4294967295 4294967295 4294967295 within 4294967295\n\
        append a 10 5=append a 10 5\n\
        landmark a open 080=landmark a open 80\n\
        \x20landmark\ta close 81 =landmark a close 81\n\
        landmark abcdefghijklmnopqrstuvwxyz012345 close 4611686018427387904=\
        landmark abcdefghijklmnopqrstuvwxyz012345 close 4611686018427387904\n\
        drop a=drop a\n\
        \x20drop\tabcdefghijklmnopqrstuvwxyz012345 =drop abcdefghijklmnopqrstuvwxyz012345\n\
        query a count 10 040=query a count 10 40\n\
        \x20query\ta sum 0 4611686018427387904=query a sum 0 4611686018427387904\n\
        query a min 5 4=query a min 5 4\n\
        query a max 45 65=query a max 45 65\n\
        \x20query\ta mean 0 4611686018427387904=query a mean 0 4611686018427387904\n\
        query a has 005 10 040=query a has 5 10 40\n\
        \x20query\ta has -0 0 4611686018427387904=query a has 0 0 4611686018427387904\n\
        query a has -9223372036854775808 5 4=query a has -9223372036854775808 5 4\n\
        query abcdefghijklmnopqrstuvwxyz012345 has 9223372036854775807 0 0=\
        query abcdefghijklmnopqrstuvwxyz012345 has 9223372036854775807 0 0\n\
        query has has 1 2 3=query has has 1 2 3\n\
        series a count 10 040 05=series a count 10 40 5\n\
        \x20series\ta sum 0 4611686018427387904 4611686018427387904=\
        series a sum 0 4611686018427387904 4611686018427387904\n\
        series a min 5 4 1=series a min 5 4 1\n\
        series a max 0 99999 1=series a max 0 99999 1\n\
        series a mean 0 100 025=series a mean 0 100 25\n\
        estimate a count 10 040=estimate a count 10 40\n\
        \x20estimate\tabcdefghijklmnopqrstuvwxyz012345 sum 5 4=estimate abcdefghijklmnopqrstuvwxyz012345 sum 5 4\n\
        estimates a count 0 99999 01=estimates a count 0 99999 1\n\
        estimates a sum 5 4 4611686018427387904=estimates a sum 5 4 4611686018427387904\n\
        estimate a mean 10 040=estimate a mean 10 40\n\
        estimates a mean 0 99999 01=estimates a mean 0 99999 1\n\
        certify a count lo 10 040=certify a count lo 10 40\n\
        \x20certify\ta sum hi 0 4611686018427387904=certify a sum hi 0 4611686018427387904\n\
        certify abcdefghijklmnopqrstuvwxyz012345 sum lo 5 4=certify abcdefghijklmnopqrstuvwxyz012345 sum lo 5 4\n\
        certify a mean hi 25 055=certify a mean hi 25 55\n\
        \x20last\ta =last a\n\
        values a 005 04=values a 5 4\n\
        values abcdefghijklmnopqrstuvwxyz012345 0 4611686018427387904=\
        values abcdefghijklmnopqrstuvwxyz012345 0 4611686018427387904\n\
        append a 007 -0=append a 7 0\n\
        append a 0000000000000000000000000000000000000000001 -0000000000000000000000000000009=append a 1 -9\n\
        append a 4611686018427387904 -9223372036854775808=append a 4611686018427387904 -9223372036854775808\n\
        append a 0 9223372036854775807=append a 0 9223372036854775807\n"
            .as_bytes(),
    )
}

// Writes the line that has ended with a ';' after, or '!' for one that was too long.
fn write_line(reader: &LineReader, ended: Option<Ended>, out: &mut Text)
    requires state { reader.now.ended ≡ is_some ended }
    requires whole { IfSome ended (λ e. e ≡ Ended.Whole ↔ IsSome reader.now.line) }
{
    match ended {
        None => {}
        Some(Ended::Whole) => {
            show(reader.line(), out);
            write(b";", out);
        }
        Some(Ended::TooLong) => write(b"!", out),
    }
}

// Feeds a piece, each line end of it.
fn feed_piece(reader: &mut LineReader, piece: &[u8], out: &mut Text) {
    let mut rest = piece;
    for _ in 0..piece.len() {
        let (taken, ended) = reader.feed(rest);
        write_line(reader, ended, out);
        rest = &rest[taken..];
    }
}

// Feeds an input in pieces of `size` bytes, at least one.
fn feed(reader: &mut LineReader, input: &[u8], size: usize, out: &mut Text) {
    for piece in input.chunks(size.max(1)) {
        feed_piece(reader, piece, out);
    }
}

// The lines of an input in pieces.
fn write_lines(input: &[u8], size: usize, out: &mut Text) {
    let mut reader = LineReader::new();
    feed(&mut reader, input, size, out);
    for _ in 0..2 {
        let ended = reader.finish();
        write_line(&reader, ended, out);
    }
}

// The byte that a sign stands for: '/' for a line end, and '<' for a return.
fn meant(sign: u8) -> u8 {
    match sign {
        b'/' => b'\n',
        b'<' => b'\r',
        other => other,
    }
}

fn write_meant(signs: &[u8], out: &mut Text) {
    for sign in signs {
        write(&[meant(*sign)], out);
    }
}

// The lines of an input, of which a row has the size of the pieces, and then the input in signs.
pub fn pieces(row: &[u8], out: &mut Text) {
    let (size, signs) = cut(row, b' ');
    let mut input = ArrayVec::new();
    write_meant(signs, &mut input);
    write_lines(input.as_slice(), numbers_of(size)[0] as usize, out);
}

#[test]
fn lines_come_in_any_pieces() -> Result<(), Fail> {
    test(
        Subject::Pieces,
        "1 ab//cd=ab;;cd;\n\
        2 ab//cd=ab;;cd;\n\
        3 ab//cd=ab;;cd;\n\
        7 ab//cd=ab;;cd;\n\
        2 ab/=ab;\n\
        2 /=;\n\
        2 =\n\
        2 x<//=x;;\n\
        1 x<</<=x<;;\n\
        2 x<=x;\n\
        1 <x/</=<x;;\n\
        1 <=;\n"
            .as_bytes(),
    )
}

// The last six of the bytes, or all of them where they are fewer.
fn last_six(bytes: &[u8]) -> &[u8] {
    if bytes.len() < 6 {
        return bytes;
    }
    &bytes[bytes.len() - 6..]
}

// An input is 256 bytes 'a' and these signs: how many bytes its lines are, and the last six.
pub fn long_line(signs: &[u8], out: &mut Text) {
    let mut input = ArrayVec::new();
    write(&[b'a'; 256], &mut input);
    write_meant(signs, &mut input);
    let mut lines = ArrayVec::new();
    write_lines(input.as_slice(), 100, &mut lines);
    write_number(lines.len() as u64, out);
    write(b" ", out);
    write(last_six(lines.as_slice()), out);
}

#[test]
fn a_line_has_at_most_256_bytes() -> Result<(), Fail> {
    test(
        Subject::LongLine,
        "/aaa=261 a;aaa;\n\
        </aa=260 aa;aa;\n\
        a/aa=4 !aa;\n\
        a</a=3 !a;\n"
            .as_bytes(),
    )
}
