// Power sums.
ghost use Rattle.std.specs.Prelude.{◌≡◌, ◌+◌, ◌<◌, ◌≤◌};
ghost use Rattle.ss_targets.specs.PowerSum.{cap, power_sum};

use ss_base::Steps;
use std::sync::ledger::Ledger;

/// The greatest exponent of a power sum.
pub const GREATEST_EXPONENT: u32 = 6;

// The seven cases of an exponent: for each, what the macro `$case` makes of it and of the other arguments.
macro_rules! by_exponent {
    ($exponent:expr, $case:ident $(, $argument:expr)*) => {
        match $exponent {
            0 => $case!(0 $(, $argument)*),
            1 => $case!(1 $(, $argument)*),
            2 => $case!(2 $(, $argument)*),
            3 => $case!(3 $(, $argument)*),
            4 => $case!(4 $(, $argument)*),
            5 => $case!(5 $(, $argument)*),
            _ => $case!(6 $(, $argument)*),
        }
    };
}

// The cap of each exponent.
macro_rules! cap_of {
    (0) => {
        1 << 42
    };
    (1) => {
        1 << 22
    };
    (2) => {
        1 << 15
    };
    (3) => {
        1 << 12
    };
    (4) => {
        1 << 10
    };
    (5) => {
        1 << 8
    };
    (6) => {
        1 << 7
    };
}

// The closed form of each exponent's sum: of n, of `pair`, which is n(n+1), and of `odd`, which is 2n+1.
macro_rules! form_of {
    (0, $n:expr, $pair:expr, $odd:expr) => {
        $n
    };
    (1, $n:expr, $pair:expr, $odd:expr) => {
        $pair / 2
    };
    (2, $n:expr, $pair:expr, $odd:expr) => {
        $pair * $odd / 6
    };
    (3, $n:expr, $pair:expr, $odd:expr) => {
        $pair * $pair / 4
    };
    (4, $n:expr, $pair:expr, $odd:expr) => {
        (3 * $pair * $pair - $pair) * $odd / 30
    };
    (5, $n:expr, $pair:expr, $odd:expr) => {
        (2 * $pair * $pair * $pair - $pair * $pair) / 12
    };
    (6, $n:expr, $pair:expr, $odd:expr) => {
        (3 * $pair * $pair * $pair - 3 * $pair * $pair + $pair) * $odd / 42
    };
}

// The sum of each exponent.
macro_rules! sum_of {
    ($exponent:literal, $n:expr, $steps:expr) => {
        PowerSum::<$exponent>::upto($n, $steps)
    };
}

/// The sums of j^E, of which E is 0 to 6. docs/DEFINITIONS.md ("Targets") has what they are for, and the caps.
pub struct PowerSum<const E: u32>;

impl<const E: u32> PowerSum<E> {
    /// The sum of j^E for j from 1 to n. It is one step.
    pub fn upto<L: Ledger>(n: u64, steps: &mut Steps<L>) -> u64
        requires exponent { E ≤ GREATEST_EXPONENT }
        requires capped { n ≤ cap E }
        ensures sum { result ≡ power_sum E n }
        ensures step { steps.new ≡ steps.old + 1 }
    {
        steps.tick();
        PowerSum::<E>::closed_form(u128::from(n)) as u64
    }

    // The closed form of the sum.
    fn closed_form(n: u128) -> u128
        requires exponent { E ≤ GREATEST_EXPONENT }
        requires capped { n ≤ cap E }
        ensures { result ≡ power_sum E n }
    {
        let pair = n * (n + 1);
        let odd = 2 * n + 1;
        by_exponent!(E, form_of, n, pair, odd)
    }
}

/// The sum of j^exponent for j from 1 to n, where the exponent is known only when the program runs. It is one step.
pub fn power_sum_upto<L: Ledger>(exponent: u32, n: u64, steps: &mut Steps<L>) -> u64
    requires exponent { exponent ≤ GREATEST_EXPONENT }
    requires capped { n ≤ cap exponent }
    ensures sum { result ≡ power_sum exponent n }
    ensures step { steps.new ≡ steps.old + 1 }
{
    by_exponent!(exponent, sum_of, n, steps)
}

// The cap of an exponent that is known only when the program runs.
pub fn cap_of_exponent(exponent: u32) -> u64
    requires { exponent ≤ GREATEST_EXPONENT }
    ensures { result ≡ cap exponent }
{
    by_exponent!(exponent, cap_of)
}

// The greatest n whose power sum is at most so much: by halves, with one step for each.
pub fn last_sum_within<L: Ledger>(exponent: u32, most: u64, steps: &mut Steps<L>) -> u64
    requires exponent { exponent ≤ GREATEST_EXPONENT }
    requires passed { most < power_sum exponent (cap exponent) }
    ensures within { power_sum exponent result ≤ most }
    ensures last { most < power_sum exponent (result + 1) }
    ensures capped { result < cap exponent }
    ensures ticks { steps.new ≤ steps.old + 42 }
{
    let mut low = 0;
    let mut high = cap_of_exponent(exponent);
    while 1 < high - low {
        let middle = low + (high - low) / 2;
        if power_sum_upto(exponent, middle, steps) <= most {
            low = middle;
        } else {
            high = middle;
        }
    }
    low
}
