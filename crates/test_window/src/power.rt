// Worked rows: tables of windows and of power sums, and the edges of the parameters.
ghost use Rattle.std.specs.Prelude.{◌+◌, ◌≤◌};
ghost use Rattle.ss_base.specs.Steps.{IsFresh};

use super::windowing::{Window, at, next, parts};
use ss_base::{MOST_VALUES, Steps};
use ss_targets::{
    Param, Power, PowerSum, Spot, groups_start_at_power_sums, power_lengths_never_fall,
    power_sum_upto, sums_at_caps_pass_every_age,
};
use std::marker::Brand;
use std::sync::ledger::{Blank, Ledger};
use std::test::Fail;

// The parameters, an age, and the window that holds it.
type Row = (u32, u32, u32, u32, u64, Window);

const WINDOWS: [Row; 37] = [
    (1, 1, 1, 1, 0, (0, 0, 1)),
    (1, 1, 1, 1, 1, (1, 1, 2)),
    (1, 1, 1, 1, 5, (2, 3, 3)),
    (1, 1, 1, 1, 6, (3, 6, 4)),
    (1, 1, 1, 1, 14, (4, 10, 5)),
    (2, 1, 1, 1, 0, (0, 0, 1)),
    (2, 1, 1, 1, 2, (1, 1, 2)),
    (2, 1, 1, 1, 3, (2, 3, 2)),
    (2, 1, 1, 1, 5, (3, 5, 3)),
    (2, 1, 1, 1, 8, (4, 8, 3)),
    (2, 1, 1, 1, 11, (5, 11, 3)),
    (2, 1, 1, 1, 1, (1, 1, 2)),
    (2, 1, 1, 1, 1 << 20, (10_734, 1_048_502, 147)),
    (
        2,
        1,
        1,
        1,
        1 << 40,
        (110_794_293, 1_099_511_625_003, 14_886),
    ),
    (1, 0, 1, 2, 1, (0, 0, 2)),
    (1, 0, 1, 2, 2, (1, 2, 2)),
    (1, 0, 1, 2, 9, (4, 8, 2)),
    (1, 0, 1, 1, 0, (0, 0, 1)),
    (1, 0, 1, 1, 1, (1, 1, 1)),
    (1, 0, 1, 1, 1 << 20, (1 << 20, 1 << 20, 1)),
    (1, 0, 1, 1, 1 << 40, (1 << 40, 1 << 40, 1)),
    (1, 1, 1, 1, 1 << 20, (1447, 1_047_628, 1448)),
    (
        1,
        1,
        1,
        1,
        1 << 40,
        (1_482_909, 1_099_510_292_595, 1_482_910),
    ),
    (4, 3, 1, 1, 0, (0, 0, 1)),
    (4, 3, 1, 1, 1, (1, 1, 8)),
    (4, 3, 1, 1, 1 << 20, (2095, 1_048_405, 1000)),
    (4, 3, 1, 1, 1 << 40, (5_774_405, 1_099_511_402_455, 328_509)),
    (4, 3, 65536, 65536, 0, (0, 0, 65536)),
    (4, 3, 65536, 65536, 1, (0, 0, 65536)),
    (4, 3, 65536, 65536, 1 << 20, (16, 1 << 20, 65536)),
    (4, 3, 65536, 65536, 1 << 32, (65536, 1 << 32, 1 << 19)),
    (
        4,
        3,
        65536,
        65536,
        1 << 40,
        (1_053_430, 1_099_510_710_272, 1_769_472),
    ),
    (4, 0, 65536, 1, 1 << 40, (1 << 40, 1 << 40, 1)),
    (1, 3, 65536, 1, 1, (1, 1, 1)),
    (1, 3, 65536, 1, 1 << 20, (148_062, 1_048_554, 27)),
    (
        1,
        3,
        65536,
        1,
        1 << 40,
        (5_898_952, 1_099_511_364_952, 753_571),
    ),
    (1, 1, 4, 1, 86_299, (828, 86_112, 208)),
];

// A caller that stands on the bound of a look-up. For `power 1 0 1 1` each age takes 44 ticks.
fn seek<L: Ledger>(target: &Power, age: u64, steps: &mut Steps<L>) -> Spot
    requires { age ≤ MOST_VALUES }
    ensures { steps.new ≤ steps.old + 44 }
{
    target.seek(age, steps)
}

// The window of an age up to the greatest, looked up with a counter.
fn sought<L: Ledger>(target: &Power, age: u64, blank: Blank) -> Window
    requires { IsFresh L.name L.parts blank }
{
    parts(seek(target, age.min(MOST_VALUES), &mut Steps::<L>::new(blank)))
}

fn holds(row: &Row) -> Result<bool, Param> {
    let target = Power::new(row.0, row.1, row.2, row.3)?;
    let same = sought::<Brand>(&target, row.4, Blank::new(1)) == at(&target, row.4);
    Ok(same && at(&target, row.4) == row.5)
}

#[test]
fn windows_of_ages(rt: HostRuntime) -> Result<(), Fail> {
    for (k, row) in WINDOWS.iter().enumerate() {
        assert!(rt; holds(row)?, "row {k}");
    }
    Ok(())
}

// The parameters, an age and a length, and the next window of that length, or its absence.
type Next = (u32, u32, u32, u32, u64, u64, Option<Window>);

const NEXT: [Next; 14] = [
    (1, 1, 1, 1, 0, 1, Some((1, 1, 2))),
    (1, 1, 1, 1, 0, 4, Some((3, 6, 4))),
    (1, 1, 1, 1, 3, 1, Some((3, 6, 4))),
    (1, 1, 1, 1, 3, 4, Some((3, 6, 4))),
    (2, 1, 1, 1, 1, 2, Some((2, 3, 2))),
    (2, 1, 1, 1, 1, 3, Some((3, 5, 3))),
    (1, 0, 1, 2, 0, 2, Some((1, 2, 2))),
    (
        4,
        3,
        65536,
        65536,
        0,
        65537,
        Some((65536, 1 << 32, 1 << 19)),
    ),
    (
        1,
        1,
        1,
        1,
        0,
        1 << 20,
        Some((1_048_575, 549_755_289_600, 1 << 20)),
    ),
    (1, 0, 1, 2, 0, 3, None),
    (1, 0, 1, 1, 0, 2, None),
    (1, 0, 1, 1, 1 << 40, 1, None),
    (1, 1, 1, 1, 0, 1 << 21, None),
    (4, 3, 65536, 65536, 1 << 32, 1 << 30, None),
];

fn follows(row: &Next) -> Result<bool, Param> {
    let target = Power::new(row.0, row.1, row.2, row.3)?;
    Ok(next(&target, row.4, row.5) == row.6)
}

#[test]
fn next_windows_of_a_length(rt: HostRuntime) -> Result<(), Fail> {
    for (k, row) in NEXT.iter().enumerate() {
        assert!(rt; follows(row)?, "row {k}");
    }
    Ok(())
}

// The sums up to 0, 1 and 10, for each exponent. Each is one step, and no test reads how many there were.
fn sums<L: Ledger>(blank: Blank) -> [(u64, u64, u64); 7]
    requires { IsFresh L.name L.parts blank }
{
    let mut steps = Steps::<L>::new(blank);
    let mut sums = [(0, 0, 0); 7];
    for (exponent, sum) in sums.iter_mut().enumerate() {
        let exponent = exponent as u32;
        *sum = (
            power_sum_upto(exponent, 0, &mut steps),
            power_sum_upto(exponent, 1, &mut steps),
            power_sum_upto(exponent, 10, &mut steps),
        );
    }
    sums
}

const SUMS: [(u64, u64, u64); 7] = [
    (0, 1, 10),
    (0, 1, 55),
    (0, 1, 385),
    (0, 1, 3025),
    (0, 1, 25333),
    (0, 1, 220_825),
    (0, 1, 1_978_405),
];

// The sum up to the cap of each exponent.
fn sums_at_caps<L: Ledger>(blank: Blank) -> [u64; 7]
    requires { IsFresh L.name L.parts blank }
{
    let mut steps = Steps::<L>::new(blank);
    [
        PowerSum::<0>::upto(1 << 42, &mut steps),
        PowerSum::<1>::upto(1 << 22, &mut steps),
        PowerSum::<2>::upto(1 << 15, &mut steps),
        PowerSum::<3>::upto(1 << 12, &mut steps),
        PowerSum::<4>::upto(1 << 10, &mut steps),
        PowerSum::<5>::upto(1 << 8, &mut steps),
        PowerSum::<6>::upto(1 << 7, &mut steps),
    ]
}

// Added up term by term, but for the first.
const AT_CAPS: [u64; 7] = [
    1 << 42,
    8_796_095_119_360,
    11_728_660_905_984,
    70_403_108_110_336,
    225_730_095_096_320,
    47_464_041_496_576,
    82_637_624_692_544,
];

#[test]
fn power_sums(rt: HostRuntime) {
    assert!(rt; sums::<Brand>(Blank::new(1)) == SUMS);
    assert!(rt; sums_at_caps::<Brand>(Blank::new(1)) == AT_CAPS);
}

// Parameters, and whether they are in range.
type Ranged = (u32, u32, u32, u32, bool);

const PARAMETERS: [Ranged; 9] = [
    (0, 0, 1, 1, false),
    (5, 0, 1, 1, false),
    (1, 4, 1, 1, false),
    (1, 0, 0, 1, false),
    (1, 0, 65537, 1, false),
    (1, 0, 1, 0, false),
    (1, 0, 1, 65537, false),
    (1, 0, 1, 1, true),
    (4, 3, 65536, 65536, true),
];

fn is_ranged(row: &Ranged) -> bool {
    match Power::new(row.0, row.1, row.2, row.3) {
        Ok(target) => row.4 && target.parameters() == (row.0, row.1, row.2, row.3),
        Err(Param) => !row.4,
    }
}

#[test]
fn parameters_in_range(rt: HostRuntime) {
    for (k, row) in PARAMETERS.iter().enumerate() {
        assert!(rt; is_ranged(row), "row {k}");
    }
}

#[test]
fn laws_are_called() {
    power_lengths_never_fall();
    groups_start_at_power_sums();
    sums_at_caps_pass_every_age();
}
