// Which word of a line isn't a number in its range.
use crate::forms::form_of;
use crate::hints::hint_on_number;
use crate::words::{has_digits_alone, word_at};
use ss_base::LAST_TIME;
use ss_catalog::MOST_ROWS;
use ss_command::{Field, verb_of};
use ss_fields::{read_i64, read_u64};
use std::alloc::{AllocError, Global};

// What a number stands for.
#[derive(Clone, Copy)]
enum Number {
    Time,
    Step,
    Value,
    Parameter,
    Count,
}

// A cursor gives at most so many rows at once.
const MOST_AT_ONCE: u64 = 1000;

// What the number in a place stands for, where one stands there.
fn number_in(field: Field) -> Option<Number> {
    match field {
        Field::Time | Field::From | Field::To => Some(Number::Time),
        Field::Step => Some(Number::Step),
        Field::Value => Some(Number::Value),
        Field::Parameter(_) => Some(Number::Parameter),
        Field::Fixed(_) | Field::Kind(_) | Field::End => None,
    }
}

// Whether a word is a number of digits between these two.
fn is_within(word: &str, least: u64, most: u64) -> bool {
    match read_u64(word.as_bytes()) {
        Ok(number) => least <= number && number <= most,
        Err(_) => false,
    }
}

// Whether a word is such a number.
fn is_number_in_range(word: &str, number: Number) -> bool {
    match number {
        Number::Time => is_within(word, 0, LAST_TIME),
        Number::Step => is_within(word, 1, LAST_TIME),
        Number::Value => read_i64(word.as_bytes()).is_ok(),
        Number::Parameter => is_within(word, 0, u64::from(u32::MAX)),
        Number::Count => is_within(word, 1, MOST_AT_ONCE),
    }
}

// The first word that isn't the number that it is to be.
fn first_wrong<'a>(words: &[&'a str]) -> Option<(&'a str, Number)> {
    let verb = verb_of(word_at(words, 0).as_bytes())?;
    let row = form_of(verb, words)?;
    let behind = words.get(2..).unwrap_or(&[]);
    for (field, word) in row.fields().iter().zip(behind) {
        if let Some(number) = number_in(*field) {
            if !is_number_in_range(word, number) {
                return Some((*word, number));
            }
        }
    }
    None
}

// Whether a word is a whole number, also one that is out of range.
fn is_whole_number(word: &str) -> bool {
    has_digits_alone(word.strip_prefix('-').unwrap_or(word))
}

// The range of numbers that stand for this.
fn range(alloc: Global, number: Number) -> Result<String, AllocError> {
    match number {
        Number::Time => format!(in alloc; "0 to {LAST_TIME}, as times are"),
        Number::Step => format!(in alloc; "1 to {LAST_TIME}, as steps are"),
        Number::Value => format!(in alloc; "{} to {}, as values are", i64::MIN, i64::MAX),
        Number::Parameter => format!(in alloc; "0 to {}, as parameters are", u32::MAX),
        Number::Count => format!(in alloc;
            "1 to {MOST_AT_ONCE}, as many as a cursor gives at once"
        ),
    }
}

// Why the numbers of a command are refused of which each is in its range: those of a series may make too many rows.
fn together(alloc: Global, words: &[&str]) -> Result<String, AllocError> {
    let (first, last, step) = (word_at(words, 3), word_at(words, 4), word_at(words, 5));
    format!(in alloc;
        "from {first} to {last} there are more than {MOST_ROWS} rows of the step {step}"
    )
}

// Why a word isn't such a number.
fn wrong(alloc: Global, word: &str, number: Number) -> Result<String, AllocError> {
    if is_whole_number(word) {
        let range = range(alloc, number)?;
        format!(in alloc; "{word} isn't within {range}")
    } else {
        let hint = hint_on_number(alloc, word, matches!(number, Number::Time))?;
        format!(in alloc; "{word} isn't a whole number{hint}")
    }
}

/// Why a number of these words, which begin with a verb, is none, or is out of its range.
pub fn number_reason(alloc: Global, words: &[&str]) -> Result<String, AllocError> {
    match first_wrong(words) {
        Some((word, number)) => wrong(alloc, word, number),
        None => together(alloc, words),
    }
}

/// Why a word isn't how many rows a cursor gives at once.
pub fn count_reason(alloc: Global, word: &str) -> Result<String, AllocError> {
    wrong(alloc, word, Number::Count)
}
