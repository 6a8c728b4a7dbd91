// What follows a reason where a mistake is a common one.
use crate::words::{has_digits_alone, word_at};
use arrayvec::ArrayVec;
use ss_command::{LONGEST_LINE, is_word, verb_of};
use std::alloc::{AllocError, Global};

// Whether a word is the first of a command, or of a form of a cursor.
fn is_first_word(word: &[u8]) -> bool {
    verb_of(word).is_some() || is_word(word, "cursor")
}

/// Whether a word is the first of a command, or of a form of a cursor.
pub fn is_verb(word: &str) -> bool {
    is_first_word(word.as_bytes())
}

// Whether a word is the first of a command, or of a form of a cursor, but for its capitals.
fn is_verb_in_capitals(word: &str) -> bool {
    let mut letters: ArrayVec<u8, LONGEST_LINE> = ArrayVec::new();
    if letters.try_extend_from_slice(word.as_bytes()).is_err() {
        return false;
    }
    letters.as_mut_slice().make_ascii_lowercase();
    is_first_word(letters.as_slice())
}

// Whether a word says what is asked for of the values of a stream.
fn is_kind(word: &str) -> bool {
    matches!(word, "count" | "sum" | "min" | "max" | "mean" | "has")
}

// What follows where a file isn't plain text, or is in another form.
fn hint_on_form(verb: &str) -> &'static str {
    if verb.starts_with("\\xef\\xbb\\xbf") {
        ": a byte order mark stands before it, and the file has to be saved without one"
    } else if verb.starts_with("\\xff\\xfe") || verb.starts_with("\\xfe\\xff") {
        ": the file is in UTF-16, and has to be saved as UTF-8 or ASCII"
    } else if verb.contains(',') || verb.contains(';') {
        ": words stand between blanks, as in append NAME T V"
    } else if verb.starts_with("\\x01\\x0") || verb.starts_with("\\x02\\x00") {
        ": these bytes are frames, which the mode follow reads"
    } else if verb.starts_with('@') {
        ": lines of sessions are read where the mode is sessions"
    } else {
        ""
    }
}

// What follows where a word of another program begins a line.
fn hint_on_word(verb: &str) -> &'static str {
    match verb {
        "help" | "?" => ": summarystore --help lists the commands",
        "quit" | "exit" => ": the run ends where its input ends, at a terminal by Ctrl-D",
        "frame" => ": the bytes that its digits spell are read by the mode follow",
        _ if is_verb_in_capitals(verb) => ": commands are in small letters",
        _ if is_kind(verb) => ": that is asked for by a query, as in query NAME sum T1 T2",
        _ => "",
    }
}

/// What follows where no command begins with the first of these words.
pub fn hint(words: &[&str]) -> &'static str {
    let verb = word_at(words, 0);
    let of_form = hint_on_form(verb);
    let of_word = hint_on_word(verb);
    if of_form != "" {
        of_form
    } else if of_word != "" {
        of_word
    } else if is_verb(word_at(words, 1)) {
        ": the command stands first, as in append NAME T V"
    } else {
        ""
    }
}

/// What follows where a word is none of those that can be asked for.
pub fn hint_on_kind(words: &[&str]) -> &'static str {
    match word_at(words, 2) {
        "avg" | "average" => ": a mean is asked for as mean",
        _ if is_kind(word_at(words, 1)) => ": the name stands before what is asked for",
        _ => "",
    }
}

// The fraction of a number that is written with a point or a comma.
fn fraction(word: &str) -> Option<(&str, &str)> {
    let unsigned = word.strip_prefix('-').unwrap_or(word);
    let parts = unsigned.split_once('.').or(unsigned.split_once(','));
    match parts {
        Some((whole, rest)) if has_digits_alone(whole) && has_digits_alone(rest) => Some((
            whole, rest,
        )),
        _ => None,
    }
}

// The unit of so many digits of a fraction.
fn unit(digits: usize) -> &'static str {
    match digits {
        1 => "tenths",
        2 => "hundredths",
        3 => "thousandths",
        _ => "a smaller unit",
    }
}

// What follows where a number has a fraction.
fn hint_on_fraction(
    alloc: Global,
    word: &str,
    whole: &str,
    rest: &str,
) -> Result<String, AllocError> {
    let sign = if word.starts_with('-') { "-" } else { "" };
    let whole = if whole == "0" { "" } else { whole };
    let unit = unit(rest.len());
    format!(in alloc; ": write {sign}{whole}{rest} for {word}, in {unit}")
}

/// What follows where a word isn't a whole number, by whether it was to be a time.
pub fn hint_on_number(alloc: Global, word: &str, is_time: bool) -> Result<String, AllocError> {
    if let Some((whole, rest)) = fraction(word) {
        return hint_on_fraction(alloc, word, whole, rest);
    }
    let text = if is_time && (word == "now" || word.contains(':') || word.contains('-')) {
        ": times are whole numbers, as the seconds that date +%s prints"
    } else if word.starts_with('+') {
        ": no sign stands before it but -"
    } else {
        ""
    };
    String::from_str(alloc, text)
}
