// Lowest terms.
ghost use Rattle.std.specs.Prelude.{◌≡◌, ℕ, ◌*◌, ◌<◌};
ghost use Rattle.std.specs.Int.{IsGcd};
ghost use Rattle.ss_bounds.specs.Fractions.{lowest};

use crate::fraction::Fraction;
use crate::spread::parted;

// A fraction in lowest terms.
pub fn lowest(fraction: Fraction) -> Fraction
    requires { 0 < fraction.under }
    ensures { result ≡ lowest fraction }
{
    let (_, rest) = parted(fraction.over, fraction.under);
    let divisor = common_divisor(fraction.under, rest);
    let (over, _) = parted(fraction.over, divisor);
    Fraction {
        over,
        under: fraction.under / divisor,
    }
}

// The greatest number that divides both. So it is of as many times both, too.
fn common_divisor(a: u64, b: u64) -> u64
    requires { 0 < a }
    ensures some { 0 < result }
    ensures times { (n : ℕ) → 0 < n → IsGcd (a * n) (b * n) (result * n) }
{
    let mut divisor = a;
    let mut rest = b;
    while rest != 0 {
        (divisor, rest) = (rest, divisor % rest);
    }
    divisor
}
