// What the words of a form say, gathered word by word.
ghost use Rattle.std.specs.Prelude.{◌≡◌, ◌≤◌, IfOk};
ghost use Rattle.ss_command.specs.Said.{read_field, read_fields, said_nothing, with_parameter};

use crate::numbers::{read_parameter, read_time, read_value};
use crate::table::{Field, Letter, end_named};
use crate::words::Words;
use ss_base::LAST_TIME;
use ss_catalog::{End, Kind, Refusal};

/// The times of a line: those of its range, or its one time in the place of the first, and its step.
#[derive(Clone, Copy, Debug, PartialEq, Eq)]
pub struct Times {
    pub from: u64,
    pub to: u64,
    pub step: u64,
}

/// The parameters of a line, by their letters.
#[derive(Clone, Copy, Debug, PartialEq, Eq)]
pub struct Parameters {
    pub b: u32,
    pub p: u32,
    pub q: u32,
    pub r: u32,
    pub s: u32,
    pub e: u32,
}

/// What the words of a line say behind its verb and its name. What its form has no word for is as `nothing` has it.
#[derive(Clone, Copy, Debug, PartialEq, Eq)]
pub struct Said {
    pub kind: Kind,
    pub end: End,
    pub value: i64,
    pub times: Times,
    pub parameters: Parameters,
}

impl Parameters {
    // The same with one parameter.
    fn with(self, letter: Letter, number: u32) -> Parameters
        ensures { result ≡ with_parameter letter number self }
    {
        let mut parameters = self;
        match letter {
            Letter::B => parameters.b = number,
            Letter::P => parameters.p = number,
            Letter::Q => parameters.q = number,
            Letter::R => parameters.r = number,
            Letter::S => parameters.s = number,
            Letter::E => parameters.e = number,
        }
        parameters
    }
}

impl Said {
    /// Nothing, before the first word.
    pub fn nothing() -> Said
        ensures { result ≡ said_nothing }
    {
        Said {
            kind: Kind::Count,
            end: End::Lo,
            value: 0,
            times: Times {
                from: 0,
                to: 0,
                step: 0,
            },
            parameters: Parameters {
                b: 0,
                p: 0,
                q: 0,
                r: 0,
                s: 0,
                e: 0,
            },
        }
    }

    // The same with what a word says that can stand in its place.
    fn with(self, field: Field, word: &[u8]) -> Result<Said, Refusal>
        requires { self.times.to ≤ LAST_TIME }
        ensures value { result ≡ read_field field word.now self }
        ensures bound { IfOk result (λ said. said.times.to ≤ LAST_TIME) }
    {
        let mut said = self;
        match field {
            Field::Fixed(_) => {}
            Field::Kind(kinds) => said.kind = kinds.named(word).unwrap_or(said.kind),
            Field::End => said.end = end_named(word).unwrap_or(said.end),
            Field::Time | Field::From => said.times.from = read_time(word)?,
            Field::To => said.times.to = read_time(word)?,
            Field::Step => said.times.step = read_time(word)?,
            Field::Value => said.value = read_value(word)?,
            Field::Parameter(letter) => {
                said.parameters = said.parameters.with(letter, read_parameter(word)?);
            }
        }
        Ok(said)
    }
}

/// Reads words that fit a form, beside what was said before. The first number that is none, or is out of its range, is refused.
pub fn read_fields(fields: &[Field], mut words: Words, said: Said) -> Result<Said, Refusal>
    requires { said.times.to ≤ LAST_TIME }
    ensures value { result ≡ read_fields fields.now words.entry said }
    ensures bound { IfOk result (λ said. said.times.to ≤ LAST_TIME) }
{
    match *fields {
        [] => Ok(said),
        [field, ..] => match words.next() {
            Some(word) => read_fields(&fields[1..], words, said.with(field, word)?),
            None => Ok(said),
        },
    }
}
