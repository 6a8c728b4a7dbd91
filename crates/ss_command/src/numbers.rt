// Words that are to be numbers or names.
ghost use Rattle.std.specs.Prelude.{◌≡◌, ◌≤◌, ◌^◌, ◌-◌, IfOk};
ghost use Rattle.ss_fields.specs.Words.{number_up_to};
ghost use Rattle.ss_command.specs.Grammar.{or_number, time_of, value_of, parameter_of, name_of};

use ss_base::LAST_TIME;
use ss_catalog::{Name, Refusal};
use ss_fields::{read_i64, read_u64};

// A number of digits up to `most`.
fn read_number(word: &[u8], most: u64) -> Result<u64, Refusal>
    ensures value { result ≡ or_number (number_up_to most word.now) }
    ensures bound { IfOk result (λ n. n ≤ most) }
{
    match read_u64(word) {
        Ok(number) if number <= most => Ok(number),
        _ => Err(Refusal::Number),
    }
}

/// A time.
pub fn read_time(word: &[u8]) -> Result<u64, Refusal>
    ensures value { result ≡ time_of word.now }
    ensures bound { IfOk result (λ t. t ≤ LAST_TIME) }
{
    read_number(word, LAST_TIME)
}

/// A value.
pub fn read_value(word: &[u8]) -> Result<i64, Refusal>
    ensures { result ≡ value_of word.now }
{
    match read_i64(word) {
        Ok(value) => Ok(value),
        Err(_) => Err(Refusal::Number),
    }
}

/// A parameter of a target.
pub fn read_parameter(word: &[u8]) -> Result<u32, Refusal>
    ensures { result ≡ parameter_of word.now }
{
    match read_number(word, u64::from(u32::MAX)) {
        Ok(number) => Ok(number as u32),
        Err(refusal) => Err(refusal),
    }
}

/// A name.
pub fn read_name(word: &[u8]) -> Result<Name, Refusal>
    ensures { result ≡ name_of word.now }
{
    match Name::of(word) {
        Some(name) => Ok(name),
        None => Err(Refusal::Name),
    }
}
