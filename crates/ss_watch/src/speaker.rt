// Who says a line, and what it is besides.
use ss_arguments::Form;

/// Who says a line.
#[derive(Clone, Copy, Debug, PartialEq, Eq)]
pub enum Speaker {
    /// The one who says all lines.
    Alone,
    /// One of the sessions, by its digit.
    Session(u8),
    /// None of the sessions, where lines are theirs.
    Nobody,
}

// Whether a byte stands between words.
fn is_blank(byte: u8) -> bool {
    byte == b' ' || byte == b'\t'
}

// What follows the blanks at the front of a line.
fn past_blanks(line: &[u8]) -> &[u8] {
    let blanks = line.iter().take_while(|byte| is_blank(**byte)).count();
    line.get(blanks..).unwrap_or(&[])
}

// The first word of a line that begins with one, and what follows it and the blanks behind it.
fn first_word(line: &[u8]) -> (&[u8], &[u8]) {
    let length = line.iter().take_while(|byte| !is_blank(**byte)).count();
    let word = line.get(..length).unwrap_or(line);
    (word, past_blanks(line.get(length..).unwrap_or(&[])))
}

// The session that a word names.
fn session_named(word: &[u8]) -> Speaker {
    match word {
        [b'@', digit] if b'0' <= *digit && *digit <= b'7' => Speaker::Session(*digit),
        _ => Speaker::Nobody,
    }
}

// Whether lines are those of sessions.
fn has_sessions(form: Form) -> bool {
    matches!(form, Form::Sessions { .. })
}

/// Who says a line, and what it says. A line without words or with `#` first is said by nobody in particular: it is no line of a
/// session, and means nothing.
pub fn spoken(form: Form, line: &[u8]) -> (Speaker, &[u8]) {
    if !has_sessions(form) || line.first() == Some(&b'#') || past_blanks(line).is_empty() {
        return (Speaker::Alone, line);
    }
    let (word, rest) = first_word(past_blanks(line));
    match session_named(word) {
        Speaker::Session(digit) => (Speaker::Session(digit), rest),
        _ => (Speaker::Nobody, line),
    }
}

/// Whether a text begins with the word `cursor`.
pub fn is_of_cursor(text: &[u8]) -> bool {
    first_word(text).0 == b"cursor".as_slice()
}

/// A line of a reply without the session that it is for.
pub fn untagged(reply: &str) -> &str {
    match reply.as_bytes() {
        [b'@', _, b' ', ..] => reply.get(3..).unwrap_or(""),
        _ => reply,
    }
}
