// The numbers that the commands are made of.
ghost use Rattle.std.specs.Prelude.{◌≡◌, ◌≤◌};
ghost use Rattle.ss_generator.specs.Numbers.{delay, number_after, generated_value};

use crate::{DIFFERENT_VALUES, GREATEST_VALUE, INCREMENT, MULTIPLIER};

/// The number after this one.
pub fn number_after(number: u64) -> u64
    ensures { result ≡ number_after number }
{
    number.wrapping_mul(MULTIPLIER).wrapping_add(INCREMENT)
}

/// By how much the time of a number is later than the time before it.
#[tactic(auto, unfolding(crate::specs::Numbers::delay))]
pub fn delay(number: u64) -> u64
    ensures value { result ≡ delay number }
    ensures short { result ≤ 16 }
{
    1 + (number >> 60)
}

/// The value of a number.
#[tactic(auto, unfolding(crate::specs::Numbers::generated_value))]
pub fn value_of(number: u64) -> i64
    ensures { result ≡ generated_value number }
{
    ((number >> 33) % DIFFERENT_VALUES) as i64 - GREATEST_VALUE
}
