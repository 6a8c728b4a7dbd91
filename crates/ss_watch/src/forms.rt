// The forms of a verb as they are shown, and why the words of a line fit none of them.
use crate::hints::hint_on_kind;
use crate::words::word_at;
use arrayvec::ArrayVec;
use ss_command::{Field, Fixed, Kinds, Letter, Row, Verb, forms_of};
use std::alloc::{AllocError, Global};

// The fields of a form stand behind its verb and its name.
const BEFORE_FIELDS: usize = 2;

// How many words of the program's own can stand in one place of the forms of a verb.
const MOST_CHOICES: usize = 8;

type Choices = ArrayVec<&'static str, MOST_CHOICES>;

// The words of the program's own that can stand in a place: none where it is one for a number.
fn choices(field: Field) -> &'static [&'static str] {
    match field {
        Field::Fixed(Fixed::Exp) => &["exp"],
        Field::Fixed(Fixed::Power) => &["power"],
        Field::Fixed(Fixed::Within) => &["within"],
        Field::Fixed(Fixed::Open) => &["open"],
        Field::Fixed(Fixed::Close) => &["close"],
        Field::Fixed(Fixed::Has) => &["has"],
        Field::Kind(Kinds::All) => &["count", "sum", "min", "max", "mean"],
        Field::Kind(_) => &["count", "sum", "mean"],
        Field::End => &["lo", "hi"],
        _ => &[],
    }
}

// A letter that stands for a parameter.
fn letter(letter: Letter) -> &'static str {
    match letter {
        Letter::B => "B",
        Letter::P => "P",
        Letter::Q => "Q",
        Letter::R => "R",
        Letter::S => "S",
        Letter::E => "E",
    }
}

// What is written in a place for a number.
fn placeholder(field: Field) -> &'static str {
    match field {
        Field::Time => "T",
        Field::From => "T1",
        Field::To => "T2",
        Field::Step => "STEP",
        Field::Value => "V",
        Field::Parameter(parameter) => letter(parameter),
        _ => "",
    }
}

// A field as it is shown: a number by what is written for it, and words with `|` between them.
fn put_field(field: Field, out: &mut String) -> Result<(), AllocError> {
    out.push_str(placeholder(field))?;
    let mut between = "";
    for choice in choices(field) {
        out.push_str(between)?;
        out.push_str(choice)?;
        between = "|";
    }
    Ok(())
}

// Fields as they are shown, each behind a space.
fn put_fields(fields: &[Field], out: &mut String) -> Result<(), AllocError> {
    for field in fields {
        out.push_str(" ")?;
        put_field(*field, out)?;
    }
    Ok(())
}

// How many fields of a form the words of a line go along with.
fn agreement(row: Row, words: &[&str]) -> usize {
    let behind = words.get(BEFORE_FIELDS..).unwrap_or(&[]);
    let mut count = 0usize;
    for (field, word) in row.fields().iter().zip(behind) {
        if !field.may_be(word.as_bytes()) {
            break;
        }
        count = count.saturating_add(1);
    }
    count
}

// How many words a line of a form has.
fn length_of(row: Row) -> usize {
    row.fields().len().saturating_add(BEFORE_FIELDS)
}

/// The form of a verb that the words of a line fit.
pub fn form_of(verb: Verb, words: &[&str]) -> Option<Row> {
    for row in forms_of(verb) {
        if length_of(*row) == words.len() && agreement(*row, words) == row.fields().len() {
            return Some(*row);
        }
    }
    None
}

// How far the words of a line go along with the form that they go along with furthest.
fn furthest(verb: Verb, words: &[&str]) -> usize {
    let mut most = 0;
    for row in forms_of(verb) {
        most = most.max(agreement(*row, words));
    }
    most
}

// The first of the forms that a line goes along with so far which has as many words as the line, or else the first of all of them.
fn nearest_form(verb: Verb, words: &[&str], far: usize) -> Option<Row> {
    let mut first = None;
    for row in forms_of(verb) {
        if agreement(*row, words) == far {
            if length_of(*row) == words.len() {
                return Some(*row);
            }
            first = first.or(Some(*row));
        }
    }
    first
}

// A form that goes on where this one ends.
fn longer(verb: Verb, row: Row) -> Option<Row> {
    let fields = row.fields();
    for other in forms_of(verb) {
        let all = other.fields();
        if all.len() > fields.len() && all.get(..fields.len()) == Some(fields) {
            return Some(*other);
        }
    }
    None
}

// The words that can stand in a place of the forms that a line goes along with so far.
fn choices_at(verb: Verb, words: &[&str], far: usize) -> Choices {
    let mut all: Choices = ArrayVec::new();
    for row in forms_of(verb) {
        if agreement(*row, words) == far
            && let Some(field) = row.fields().get(far)
        {
            for choice in choices(*field) {
                if !all.iter().any(|known| *known == *choice) {
                    let _ = all.try_push(*choice);
                }
            }
        }
    }
    all
}

// That a word is none of those that can stand in its place.
fn none_of(alloc: Global, word: &str, choices: &[&'static str]) -> Result<String, AllocError> {
    match choices {
        [] => format!(in alloc; "\"{word}\" is one word too many"),
        [one] => format!(in alloc; "\"{word}\" isn't {one}"),
        [one, other] => format!(in alloc; "\"{word}\" is neither {one} nor {other}"),
        [first, inner @ .., last] => {
            let mut text = format!(in alloc; "\"{word}\" is none of {first}")?;
            for choice in inner {
                text.push_str(", ")?;
                text.push_str(choice)?;
            }
            text.push_str(" and ")?;
            text.push_str(last)?;
            Ok(text)
        }
    }
}

// That a line hasn't as many words as a form, which may go on.
fn another_count(
    alloc: Global,
    verb: Verb,
    row: Row,
    words: &[&str],
) -> Result<String, AllocError> {
    let mut form = String::from_str(alloc, word_at(words, 0))?;
    form.push_str(" NAME")?;
    put_fields(row.fields(), &mut form)?;
    let wanted = length_of(row);
    let found = words.len();
    match longer(verb, row) {
        None => format!(in alloc; "{form} has {wanted} words, and this line has {found}"),
        Some(other) => {
            let mut rest = String::new(alloc);
            put_fields(
                other.fields().get(row.fields().len()..).unwrap_or(&[]),
                &mut rest,
            )?;
            let more = length_of(other);
            format!(in alloc;
                "{form} has {wanted} words, or {more} with{rest}, and this line has {found}"
            )
        }
    }
}

// Whether the word behind those that a form goes along with is to be blamed, and not how many there are: it is there, and the form is
// as long as the line, or no form ends before it.
fn is_word_to_blame(verb: Verb, row: Row, words: &[&str], far: usize) -> bool {
    words.len() > far.saturating_add(BEFORE_FIELDS)
        && row.fields().len() > far
        && (length_of(row) == words.len()
            || forms_of(verb).iter().all(|other| other.fields().len() != far
                || agreement(*other, words) != far))
}

/// Why the words of a line, which begin with a verb, fit no form of it.
pub fn misfit(alloc: Global, verb: Verb, words: &[&str]) -> Result<String, AllocError> {
    let far = furthest(verb, words);
    let Some(row) = nearest_form(verb, words, far) else {
        let found = words.len();
        return format!(in alloc; "list has 1 word, and this line has {found}");
    };
    if !is_word_to_blame(verb, row, words, far) {
        return another_count(alloc, verb, row, words);
    }
    let word = word_at(words, far.saturating_add(BEFORE_FIELDS));
    let choices = choices_at(verb, words, far);
    let mut text = none_of(alloc, word, choices.as_slice())?;
    if matches!(row.fields().get(far), Some(Field::Kind(_))) {
        text.push_str(hint_on_kind(words))?;
    }
    Ok(text)
}
