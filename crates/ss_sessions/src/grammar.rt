// What a line of sessions says.
ghost use Rattle.std.specs.Prelude.{◌≡◌, ◌<◌, ◌≤◌, length, IfOk, IfSome};
ghost use Rattle.ss_command.specs.Grammar.{is_comment, or_number};
ghost use Rattle.ss_fields.specs.Words.{number_up_to};
ghost use Rattle.ss_command.specs.declared.TheConstants.{LONGEST_LINE};
ghost use Rattle.ss_sessions.specs.Grammar.{asked_of, cursor_close_of, cursor_form_of, cursor_next_of, cursor_open_of, order_said, session_of, spoken_of};
ghost use Rattle.ss_sessions.specs.declared.TheConstants.{MOST_ASKED};
ghost use Rattle.ss_sessions.specs.Said.{IsOrderInTime, IsSpokenInTime};

use crate::{ADDRESS, MOST_ASKED, Order, Spoken};
use ss_base::MOST_SESSIONS;
use ss_catalog::{Name, Refusal};
use ss_command::{COMMENT, Words, cut_first, is_word, parse};
use ss_fields::read_u64;

// A number of digits, up to the most rows that are asked for at a time.
fn read_row_count(word: &[u8]) -> Result<u64, Refusal>
    ensures value { result ≡ or_number (number_up_to MOST_ASKED word.now) }
    ensures bound { IfOk result (λ count. count ≤ MOST_ASKED) }
{
    match read_u64(word) {
        Ok(count) if count <= u64::from(MOST_ASKED) => Ok(count),
        _ => Err(Refusal::Number),
    }
}

// How many rows are asked for.
fn read_asked(word: &[u8]) -> Result<u32, Refusal>
    ensures value { result ≡ asked_of word.now }
    ensures some { IfOk result (λ count. 0 < count) }
    ensures bound { IfOk result (λ count. count ≤ MOST_ASKED) }
{
    let count = read_row_count(word)?;
    if 0 < count {
        Ok(count as u32)
    } else {
        Err(Refusal::Number)
    }
}

// Reads `cursor open NAME`, from NAME on.
fn open(mut words: Words) -> Result<Order, Refusal>
    ensures meaning { result ≡ cursor_open_of words.entry }
    ensures time { IfOk result IsOrderInTime }
{
    let name = words.word()?;
    words.end()?;
    match Name::of(name) {
        Some(name) => Ok(Order::Open(name)),
        None => Err(Refusal::Name),
    }
}

// Reads `cursor next C`, from C on.
fn next(mut words: Words) -> Result<Order, Refusal>
    ensures meaning { result ≡ cursor_next_of words.entry }
    ensures time { IfOk result IsOrderInTime }
{
    let count = words.word()?;
    words.end()?;
    let count = read_asked(count)?;
    Ok(Order::Next(count))
}

// Reads `cursor close`, with nothing after it.
fn close(words: Words) -> Result<Order, Refusal>
    ensures meaning { result ≡ cursor_close_of words.entry }
    ensures time { IfOk result IsOrderInTime }
{
    words.end()?;
    Ok(Order::Close)
}

// Reads a cursor form, from the word after `cursor` on.
fn cursor_form(mut words: Words) -> Result<Order, Refusal>
    ensures meaning { result ≡ cursor_form_of words.entry }
    ensures time { IfOk result IsOrderInTime }
{
    let verb = words.word()?;
    if is_word(verb, "open") {
        open(words)
    } else if is_word(verb, "next") {
        next(words)
    } else if is_word(verb, "close") {
        close(words)
    } else {
        Err(Refusal::Syntax)
    }
}

// Reads what is said to a session.
fn said(rest: &[u8]) -> Result<Option<Order>, Refusal>
    requires { length rest.now ≤ LONGEST_LINE }
    ensures meaning { result ≡ order_said rest.now }
    ensures time { IfOk result (λ said. IfSome said IsOrderInTime) }
{
    let (word, forms) = cut_first(rest);
    if is_word(word, "cursor") {
        let order = cursor_form(Words::of(forms))?;
        return Ok(Some(order));
    }
    match parse(rest) {
        Ok(Some(command)) => Ok(Some(Order::Command(command))),
        Ok(None) => Ok(None),
        Err(refusal) => Err(refusal),
    }
}

// The number of the session to which a word is addressed.
fn session(word: &[u8]) -> Option<u8>
    ensures { result ≡ session_of word.now }
{
    match word {
        [ADDRESS, digit] if b'0' <= *digit && *digit < b'0' + MOST_SESSIONS => Some(*digit - b'0'),
        _ => None,
    }
}

// Whether a line is no command, as its first byte says.
fn is_comment(line: &[u8]) -> bool
    ensures { result ≡ is_comment line.now }
{
    matches!(line, [COMMENT, ..])
}

/// Reads a line of sessions, given without its line end. docs/GUIDE.md ("Sessions") has the forms.
pub fn read_spoken(line: &[u8]) -> Spoken
    requires { length line.now ≤ LONGEST_LINE }
    ensures meaning { result ≡ spoken_of line.now }
    ensures time { IsSpokenInTime result }
{
    if is_comment(line) {
        return Spoken::Nothing;
    }
    let (word, rest) = cut_first(line);
    if word.is_empty() {
        return Spoken::Nothing;
    }
    match session(word) {
        None => Spoken::Unaddressed,
        Some(session) => Spoken::To {
            session,
            said: said(rest),
        },
    }
}
