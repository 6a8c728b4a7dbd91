// Digits, and the number that they spell.
ghost use Rattle.std.specs.Prelude.{◌≡◌, ◌+◌, ◌*◌, ◌-◌, ◌^◌, ◌≤◌, IfOk, nat_lt, if◌then◌else◌};
ghost use Rattle.std.specs.Str.Parse.{AllDigits};
ghost use Rattle.ss_fields.specs.Words.{is_number, number_of, number_up_to};

use crate::NumberError;

// Whether `word` is one or more digits.
fn is_number(word: &[u8]) -> bool
    ensures { result ≡ is_number word.now }
{
    !word.is_empty() && word.iter().all(|byte| byte.is_ascii_digit())
}

// `value` with one more digit after it.
fn with_digit(value: u64, digit: u8) -> Option<u64>
    requires low { 48 ≤ digit }
    requires high { digit ≤ 57 }
    ensures { result ≡ (if nat_lt (value * 10 + (digit - 48)) (2 ^ 64) then Some (value * 10 + (digit - 48)) else None) }
{
    value.checked_mul(10)?.checked_add(u64::from(digit - b'0'))
}

// The number that the digits spell, unless it passes 64 bits.
fn spelled_number(word: &[u8]) -> Option<u64>
    requires { AllDigits 10 word.now }
    ensures { result ≡ (if nat_lt (number_of word.now) (2 ^ 64) then Some (number_of word.now) else None) }
{
    let mut value = 0;
    for digit in word {
        value = with_digit(value, *digit)?;
    }
    Some(value)
}

// The number that `word` spells, if it is at most `most`.
#[tactic(auto, using(std::proofs::lemmas::Bool::Decides::nat_tests, crate::proofs::WordLemmas::number_digits), unfolding(crate::specs::Words::number_up_to))]
pub fn read_up_to(word: &[u8], most: u64) -> Result<u64, NumberError>
    ensures bounded { IfOk result (λ n. n ≤ most) }
    ensures value { result ≡ number_up_to most word.now }
{
    if !is_number(word) {
        return Err(NumberError::NotNumber);
    }
    match spelled_number(word) {
        Some(value) if value <= most => Ok(value),
        _ => Err(NumberError::OutOfRange),
    }
}
