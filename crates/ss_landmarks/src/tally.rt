// What some values add up to.
ghost use Rattle.std.specs.Prelude.{◌≡◌, map, FitsSigned};
ghost use Rattle.std.specs.Int.{w64};
ghost use Rattle.std.specs.List.{All};
ghost use Rattle.ss_landmarks.specs.Stored.{bare_value};
ghost use Rattle.ss_landmarks.specs.ValuesIn.{tally_of, least_with, greatest_with};

use crate::stored::StoredValue;

/// How many values, their sum, and the least and the greatest of them, which no values have. The sum never wraps.
#[derive(Clone, Copy, Debug, PartialEq, Eq)]
pub struct Tally {
    pub count: u64,
    pub sum: i128,
    pub least: Option<i64>,
    pub greatest: Option<i64>,
}

// The least of a value and of another, if there is one.
fn least_with(v: i64, other: Option<i64>) -> i64
    ensures { result ≡ least_with v other }
{
    match other {
        None => v,
        Some(other) => v.min(other),
    }
}

// The greatest of a value and of another, if there is one.
fn greatest_with(v: i64, other: Option<i64>) -> i64
    ensures { result ≡ greatest_with v other }
{
    match other {
        None => v,
        Some(other) => v.max(other),
    }
}

// The tally of some values, each of which is looked at once.
pub fn tally_of(values: &[StoredValue]) -> Tally
    requires { All (λ value. FitsSigned w64 value.v) values.now }
    ensures { result ≡ tally_of (map bare_value values.now) }
{
    let mut count = 0;
    let mut sum = 0;
    let mut least = None;
    let mut greatest = None;
    for value in values {
        count += 1;
        sum += i128::from(value.v);
        least = Some(least_with(value.v, least));
        greatest = Some(greatest_with(value.v, greatest));
    }
    Tally {
        count,
        sum,
        least,
        greatest,
    }
}
