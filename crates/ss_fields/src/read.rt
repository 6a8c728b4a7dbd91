// Words read as numbers.
ghost use Rattle.std.specs.Prelude.{◌≡◌, ◌-◌, ◌^◌, ◌<◌, ◌≤◌, length, pos, neg_ℤ, IsTrue};
ghost use Rattle.std.specs.Str.Parse.{starts_with_minus};
ghost use Rattle.ss_fields.specs.Words.{as_negative, as_positive, number_up_to, signed_of, unsigned_of};

use crate::NumberError;
use crate::digits::read_up_to;

/// Reads a word of one or more digits.
#[tactic(auto, unfolding(crate::specs::Words::unsigned_of))]
pub fn read_u64(word: &[u8]) -> Result<u64, NumberError>
    ensures { result ≡ unsigned_of word.now }
{
    read_up_to(word, u64::MAX)
}

// Whether a `-` begins `word`.
fn starts_with_minus(word: &[u8]) -> bool
    ensures value { result ≡ starts_with_minus word.now }
    ensures some { IsTrue result → 0 < length word.now }
{
    !word.is_empty() && word[0] == b'-'
}

// `magnitude` below zero.
fn negative(magnitude: u64) -> i64
    requires { magnitude ≤ 2 ^ 63 }
    ensures { result ≡ neg_ℤ (pos magnitude) }
{
    magnitude.wrapping_neg().cast_signed()
}

// Reads the digits after a `-`.
fn read_negative(digits: &[u8]) -> Result<i64, NumberError>
    ensures { result ≡ as_negative (number_up_to (2 ^ 63) digits.now) }
{
    match read_up_to(digits, i64::MIN.unsigned_abs()) {
        Ok(magnitude) => Ok(negative(magnitude)),
        Err(error) => Err(error),
    }
}

// Reads digits with no sign.
fn read_positive(digits: &[u8]) -> Result<i64, NumberError>
    ensures { result ≡ as_positive (number_up_to (2 ^ 63 - 1) digits.now) }
{
    match read_up_to(digits, i64::MAX.cast_unsigned()) {
        Ok(value) => Ok(value.cast_signed()),
        Err(error) => Err(error),
    }
}

/// Reads a word of one or more digits, which a `-` may precede.
#[tactic(auto, unfolding(crate::specs::Words::signed_of))]
pub fn read_i64(word: &[u8]) -> Result<i64, NumberError>
    ensures { result ≡ signed_of word.now }
{
    if starts_with_minus(word) {
        read_negative(&word[1..])
    } else {
        read_positive(word)
    }
}
