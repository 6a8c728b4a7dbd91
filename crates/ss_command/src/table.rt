// The table of the forms that commands have.
ghost use Rattle.std.specs.Prelude.{◌≡◌};
ghost use Rattle.ss_command.specs.Words.{words};
ghost use Rattle.ss_command.specs.Table.{end_named, fields_of, fits_form, fixed_word, kind_named, may_be, row_for, forms_of};

use crate::verb::Verb;
use crate::words::{Words, is_word};
use ss_catalog::{End, Kind};

/// A word that stands in a form as it is.
#[derive(Clone, Copy, Debug, PartialEq, Eq)]
pub enum Fixed {
    Exp,
    Power,
    Within,
    Open,
    Close,
    Has,
}

/// What may be asked for in a place: `count`, `sum`, `min`, `max` or `mean`; one of these that there are certificates for, `count`,
/// `sum` or `mean`; or the likeliest `count`, `sum` or `mean`.
#[derive(Clone, Copy, Debug, PartialEq, Eq)]
pub enum Kinds {
    All,
    Certified,
    Guessed,
}

/// A parameter of a target, by its letter.
#[derive(Clone, Copy, Debug, PartialEq, Eq)]
pub enum Letter {
    B,
    P,
    Q,
    R,
    S,
    E,
}

/// What a word of a form has to be.
#[derive(Clone, Copy, Debug, PartialEq, Eq)]
pub enum Field {
    Fixed(Fixed),
    Kind(Kinds),
    End,
    Time,
    From,
    To,
    Step,
    Value,
    Parameter(Letter),
}

/// A row of the table: a form.
#[derive(Clone, Copy, Debug, PartialEq, Eq)]
pub enum Row {
    Exp,
    ExpWithin,
    Power,
    PowerWithin,
    Append,
    Open,
    Close,
    Drop,
    Query,
    Has,
    Series,
    Windows,
    Certify,
    Last,
    Values,
    Estimate,
    Estimates,
}

/// The forms that begin with a verb and a name, each by its row. `list` has no name, and no other form.
pub fn forms_of(verb: Verb) -> &'static [Row]
    ensures { result.now ≡ forms_of verb }
{
    match verb {
        Verb::Create => &[Row::Exp, Row::ExpWithin, Row::Power, Row::PowerWithin],
        Verb::Append => &[Row::Append],
        Verb::Landmark => &[Row::Open, Row::Close],
        Verb::Drop => &[Row::Drop],
        Verb::Query => &[Row::Query, Row::Has],
        Verb::Series => &[Row::Series],
        Verb::Windows => &[Row::Windows],
        Verb::List => &[],
        Verb::Certify => &[Row::Certify],
        Verb::Last => &[Row::Last],
        Verb::Values => &[Row::Values],
        Verb::Estimate => &[Row::Estimate],
        Verb::Estimates => &[Row::Estimates],
    }
}

impl Row {
    /// What stands behind the verb and the name.
    pub fn fields(self) -> &'static [Field]
        ensures { result.now ≡ fields_of self }
    {
        match self {
            Row::Exp => &[
                Field::Fixed(Fixed::Exp),
                Field::Parameter(Letter::B),
                Field::Parameter(Letter::R),
                Field::Parameter(Letter::S),
            ],
            Row::ExpWithin => &[
                Field::Fixed(Fixed::Exp),
                Field::Parameter(Letter::B),
                Field::Parameter(Letter::R),
                Field::Parameter(Letter::S),
                Field::Fixed(Fixed::Within),
                Field::Parameter(Letter::E),
            ],
            Row::Power => &[
                Field::Fixed(Fixed::Power),
                Field::Parameter(Letter::P),
                Field::Parameter(Letter::Q),
                Field::Parameter(Letter::R),
                Field::Parameter(Letter::S),
            ],
            Row::PowerWithin => &[
                Field::Fixed(Fixed::Power),
                Field::Parameter(Letter::P),
                Field::Parameter(Letter::Q),
                Field::Parameter(Letter::R),
                Field::Parameter(Letter::S),
                Field::Fixed(Fixed::Within),
                Field::Parameter(Letter::E),
            ],
            Row::Append => &[Field::Time, Field::Value],
            Row::Open => &[Field::Fixed(Fixed::Open), Field::Time],
            Row::Close => &[Field::Fixed(Fixed::Close), Field::Time],
            Row::Drop | Row::Windows | Row::Last => &[],
            Row::Query => &[Field::Kind(Kinds::All), Field::From, Field::To],
            Row::Has => &[
                Field::Fixed(Fixed::Has),
                Field::Value,
                Field::From,
                Field::To,
            ],
            Row::Series => &[Field::Kind(Kinds::All), Field::From, Field::To, Field::Step],
            Row::Certify => &[
                Field::Kind(Kinds::Certified),
                Field::End,
                Field::From,
                Field::To,
            ],
            Row::Values => &[Field::From, Field::To],
            Row::Estimate => &[Field::Kind(Kinds::Guessed), Field::From, Field::To],
            Row::Estimates => &[
                Field::Kind(Kinds::Guessed),
                Field::From,
                Field::To,
                Field::Step,
            ],
        }
    }
}

impl Fixed {
    /// The word.
    pub fn word(self) -> &'static str
        ensures { result.now ≡ fixed_word self }
    {
        match self {
            Fixed::Exp => "exp",
            Fixed::Power => "power",
            Fixed::Within => "within",
            Fixed::Open => "open",
            Fixed::Close => "close",
            Fixed::Has => "has",
        }
    }
}

// What a word asks for, where all may be asked for that is said without a value.
fn named_alone(word: &[u8]) -> Option<Kind>
    ensures { result ≡ kind_named Kinds.All word.now }
{
    if is_word(word, "count") {
        Some(Kind::Count)
    } else if is_word(word, "sum") {
        Some(Kind::Sum)
    } else if is_word(word, "min") {
        Some(Kind::Min)
    } else if is_word(word, "max") {
        Some(Kind::Max)
    } else if is_word(word, "mean") {
        Some(Kind::Mean)
    } else {
        None
    }
}

impl Kinds {
    /// What a word asks for, if it is one of these.
    pub fn named(self, word: &[u8]) -> Option<Kind>
        ensures { result ≡ kind_named self word.now }
    {
        match self {
            Kinds::All => named_alone(word),
            Kinds::Certified => match named_alone(word) {
                Some(kind) if kind.is_certified() => Some(kind),
                _ => None,
            },
            Kinds::Guessed if is_word(word, "count") => Some(Kind::CountGuess),
            Kinds::Guessed if is_word(word, "sum") => Some(Kind::SumGuess),
            Kinds::Guessed if is_word(word, "mean") => Some(Kind::MeanGuess),
            Kinds::Guessed => None,
        }
    }
}

/// The end of an interval that a word names.
pub fn end_named(word: &[u8]) -> Option<End>
    ensures { result ≡ end_named word.now }
{
    if is_word(word, "lo") {
        Some(End::Lo)
    } else if is_word(word, "hi") {
        Some(End::Hi)
    } else {
        None
    }
}

impl Field {
    /// Whether a word can stand in this place. Of a number any can: whether it is one in its range is asked later.
    pub fn may_be(self, word: &[u8]) -> bool
        ensures { result ≡ may_be self word.now }
    {
        match self {
            Field::Fixed(fixed) => is_word(word, fixed.word()),
            Field::Kind(kinds) => kinds.named(word).is_some(),
            Field::End => end_named(word).is_some(),
            _ => true,
        }
    }
}

// Whether words fit a form: they are as many, and each can stand in its place.
fn fits_form(fields: &[Field], mut words: Words) -> bool
    ensures { result ≡ fits_form fields.now words.entry }
{
    match *fields {
        [] => words.next().is_none(),
        [field, ..] => match words.next() {
            Some(word) => field.may_be(word) && fits_form(&fields[1..], words),
            None => false,
        },
    }
}

/// The first of some forms that words fit.
pub fn row_for(rows: &[Row], line: &[u8]) -> Option<Row>
    ensures { result ≡ row_for rows.now (words line.now) }
{
    match *rows {
        [] => None,
        [row, ..] => {
            if fits_form(row.fields(), Words::of(line)) {
                Some(row)
            } else {
                row_for(&rows[1..], line)
            }
        }
    }
}
