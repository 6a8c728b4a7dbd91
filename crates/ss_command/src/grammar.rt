// What a line means.
ghost use Rattle.std.specs.Prelude.{◌≡◌, ◌≤◌, length, codes, true, false, None, Ok, Err, Some, IfOk, IfSome, IsTrue};
ghost use Rattle.ss_command.specs.Grammar.{command_of, commanded, exp_said, has_rows, is_comment, is_in_rows, list_of, meaning, named_of, power_said};
ghost use Rattle.ss_command.specs.Grammar.{query_said, row_means, series_said, with_few_rows};
ghost use Rattle.ss_command.specs.Printed.{IsCommandInTime, IsSayable};
ghost use Rattle.ss_command.specs.Words.{words};

use crate::command::Command;
use crate::numbers::read_name;
use crate::said::{Said, read_fields};
use crate::table::{Row, forms_of, row_for};
use crate::verb::{Verb, verb_of};
use crate::words::{Words, cut_first};
use crate::{COMMENT, LONGEST_LINE};
use ss_base::LAST_TIME;
use ss_catalog::{Event, Family, Kind, MOST_ROWS, Name, Params, Query, Refusal, Series, rows_in};

// Whether a form asks for rows of a step.
fn is_in_rows(row: Row) -> bool
    ensures { result ≡ is_in_rows row }
{
    matches!(row, Row::Series | Row::Estimates)
}

// Whether a step isn't 0, nor so short that there are more rows than a series may have.
fn has_rows(said: &Said) -> bool
    requires { said.now.times.to ≤ LAST_TIME }
    ensures { result ≡ has_rows said.now }
{
    let times = &said.times;
    times.step > 0 && rows_in(times.from, times.to, times.step) <= u64::from(MOST_ROWS)
}

// What was said, where a form in rows has neither a step of 0 nor too many of them.
fn with_few_rows(row: Row, said: Said) -> Result<Said, Refusal>
    requires { said.times.to ≤ LAST_TIME }
    ensures { result ≡ with_few_rows row said }
{
    if is_in_rows(row) && !has_rows(&said) {
        Err(Refusal::Number)
    } else {
        Ok(said)
    }
}

// The target of an `exp`.
fn exp(said: &Said, within: Option<u32>) -> Params
    ensures { result ≡ exp_said said.now within }
{
    let parameters = &said.parameters;
    let family = Family::Exp {
        b: parameters.b,
        r: parameters.r,
        s: parameters.s,
    };
    Params { family, within }
}

// That of a `power`.
fn power(said: &Said, within: Option<u32>) -> Params
    ensures { result ≡ power_said said.now within }
{
    let parameters = &said.parameters;
    let family = Family::Power {
        p: parameters.p,
        q: parameters.q,
        r: parameters.r,
        s: parameters.s,
    };
    Params { family, within }
}

// A query of a range.
fn query(name: Name, kind: Kind, said: &Said) -> Query
    ensures { result ≡ query_said name kind said.now }
{
    Query {
        name,
        kind,
        from: said.times.from,
        to: said.times.to,
    }
}

// A series of one.
fn series(name: Name, said: &Said) -> Series
    ensures { result ≡ series_said name said.now }
{
    Series {
        name,
        kind: said.kind,
        from: said.times.from,
        to: said.times.to,
        step: said.times.step,
    }
}

// The command of a form, by the name and by what its words say.
fn commanded(row: Row, name: Name, said: &Said) -> Command
    ensures { result ≡ commanded row name said.now }
{
    let t = said.times.from;
    let step = Some(said.parameters.e);
    match row {
        Row::Exp => Command::Do(Event::Create {
            name,
            params: exp(said, None),
        }),
        Row::ExpWithin => Command::Do(Event::Create {
            name,
            params: exp(said, step),
        }),
        Row::Power => Command::Do(Event::Create {
            name,
            params: power(said, None),
        }),
        Row::PowerWithin => Command::Do(Event::Create {
            name,
            params: power(said, step),
        }),
        Row::Append => Command::Do(Event::Value {
            name,
            t,
            v: said.value,
        }),
        Row::Open => Command::Do(Event::Open { name, t }),
        Row::Close => Command::Do(Event::Close { name, t }),
        Row::Drop => Command::Do(Event::Drop { name }),
        Row::Query | Row::Estimate => Command::Ask(query(name, said.kind, said)),
        Row::Has => Command::Ask(query(name, Kind::Has { value: said.value }, said)),
        Row::Series | Row::Estimates => Command::Series(series(name, said)),
        Row::Windows => Command::Windows(name),
        Row::Certify => Command::Certify {
            query: query(name, said.kind, said),
            end: said.end,
        },
        Row::Last => Command::Last(name),
        Row::Values => Command::Values {
            name,
            from: t,
            to: said.times.to,
        },
    }
}

// Reads a line that fits a form, from its name on: its numbers first, and then its name.
fn row(row: Row, name: &[u8], rest: &[u8]) -> Result<Command, Refusal>
    ensures { result ≡ row_means row name.now (words rest.now) }
{
    let said = read_fields(row.fields(), Words::of(rest), Said::nothing())?;
    let said = with_few_rows(row, said)?;
    let name = read_name(name)?;
    Ok(commanded(row, name, &said))
}

// Reads a command from its name on, by the forms of its verb.
fn named(verb: Verb, line: &[u8]) -> Result<Command, Refusal>
    ensures { result ≡ named_of verb (words line.now) }
{
    let (name, rest) = cut_first(line);
    if name.is_empty() {
        return Err(Refusal::Syntax);
    }
    match row_for(forms_of(verb), rest) {
        Some(found) => row(found, name, rest),
        None => Err(Refusal::Syntax),
    }
}

// Reads `list`, with nothing after it.
fn list(line: &[u8]) -> Result<Command, Refusal>
    ensures { result ≡ list_of (words line.now) }
{
    Words::of(line).end()?;
    Ok(Command::List)
}

// Reads a command from its first word and what stands after it.
fn command(word: &[u8], rest: &[u8]) -> Result<Command, Refusal>
    ensures { result ≡ command_of word.now (words rest.now) }
{
    match verb_of(word) {
        Some(Verb::List) => list(rest),
        Some(verb) => named(verb, rest),
        None => Err(Refusal::Syntax),
    }
}

// Whether a line is no command, as its first byte says.
fn is_comment(line: &[u8]) -> bool
    ensures { result ≡ is_comment line.now }
{
    matches!(line, [COMMENT, ..])
}

/// Reads a line, given without its line end. `None` is a line that is no command: one without words, or with `#` as its
/// first byte. Times are at most `LAST_TIME`; whether the parameters of a target are in their ranges isn't tested here.
/// docs/GUIDE.md ("Commands") has the forms.
pub fn parse(line: &[u8]) -> Result<Option<Command>, Refusal>
    requires { length line.now ≤ LONGEST_LINE }
    ensures meaning { result ≡ meaning line.now }
    ensures time { IfOk result (λ found. IfSome found IsCommandInTime) }
    ensures sayable { IfOk result (λ found. IfSome found IsSayable) }
{
    if is_comment(line) {
        return Ok(None);
    }
    let (word, rest) = cut_first(line);
    if word.is_empty() {
        return Ok(None);
    }
    match command(word, rest) {
        Ok(command) => Ok(Some(command)),
        Err(refusal) => Err(refusal),
    }
}
