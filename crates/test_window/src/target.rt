// Worked rows: which parameters have a target, and when a pair of windows fits.
ghost use Rattle.std.specs.Prelude.{◌≤◌, IsTrue};

use super::windowing::at;
use ss_base::MOST_VALUES;
use ss_catalog::{Family, Params};
use ss_targets::{Param, Target, lengths_of_a_target_never_fall};
use std::test::Fail;

fn exp(b: u32, r: u32, s: u32) -> Params {
    Params {
        family: Family::Exp { b, r, s },
        within: None,
    }
}

fn power(p: u32, q: u32, r: u32, s: u32) -> Params {
    Params {
        family: Family::Power { p, q, r, s },
        within: None,
    }
}

// Whether parameters have a target, and it keeps them, or have none.
fn is_so(params: Params, has: bool) -> bool {
    match Target::of(params) {
        Ok(target) => has && target.params() == params,
        Err(Param) => !has,
    }
}

const EXPONENTIAL: [(u32, u32, u32, bool); 6] = [
    (2, 1, 1, true),
    (16, 65536, 65536, true),
    (1, 1, 1, false),
    (0, 1, 1, false),
    (2, 0, 1, false),
    (2, 1, 65537, false),
];

#[test]
fn exponential_parameters_that_have_a_target(rt: HostRuntime) {
    for (k, row) in EXPONENTIAL.iter().enumerate() {
        assert!(rt; is_so(exp(row.0, row.1, row.2), row.3), "row {k}");
    }
}

const POWER_LAW: [(u32, u32, u32, u32, bool); 6] = [
    (1, 0, 1, 1, true),
    (4, 3, 65536, 65536, true),
    (0, 0, 1, 1, false),
    (5, 0, 1, 1, false),
    (1, 4, 1, 1, false),
    (1, 0, 65537, 1, false),
];

#[test]
fn power_law_parameters_that_have_a_target(rt: HostRuntime) {
    for (k, row) in POWER_LAW.iter().enumerate() {
        assert!(rt; is_so(power(row.0, row.1, row.2, row.3), row.4), "row {k}");
    }
}

// The step of a clock, and whether windows can keep to it.
const STEPS: [(u32, bool); 4] = [(0, false), (1, true), (60, true), (u32::MAX, true)];

#[test]
fn steps_that_a_target_has(rt: HostRuntime) {
    for (k, row) in STEPS.iter().enumerate() {
        let within = Some(row.0);
        assert!(rt; is_so(Params { within, ..DOUBLING }, row.1), "row {k}");
        assert!(rt;
            is_so(
                Params {
                    within,
                    ..exp(1, 1, 1)
                },
                false
            ),
            "row {k}"
        );
    }
}

// A step, two times, and whether both lie in one.
const TOGETHER: [(Option<u32>, u64, u64, bool); 8] = [
    (None, 0, u64::MAX, true),
    (Some(1), 7, 7, true),
    (Some(1), 7, 8, false),
    (Some(60), 0, 59, true),
    (Some(60), 59, 60, false),
    (Some(60), 60, 119, true),
    (Some(60), 59, 119, false),
    (Some(u32::MAX), u64::MAX - 1, u64::MAX, false),
];

fn is_together(row: &(Option<u32>, u64, u64, bool)) -> Result<bool, Param> {
    let (within, t, u, together) = *row;
    let target = Target::of(Params { within, ..DOUBLING })?;
    Ok(target.in_step(t, u) == together)
}

#[test]
fn times_in_one_step(rt: HostRuntime) -> Result<(), Fail> {
    for (k, row) in TOGETHER.iter().enumerate() {
        assert!(rt; is_together(row)?, "row {k}");
    }
    Ok(())
}

// Whether positions can be l to r seen at n.
pub fn are_positions(l: u64, r: u64, n: u64) -> bool
    ensures { IsTrue result → (1 ≤ l) × (l ≤ r) × (r ≤ n) × (n ≤ MOST_VALUES) }
{
    1 <= l && l <= r && r <= n && n <= MOST_VALUES
}

const DOUBLING: Params = Params {
    family: Family::Exp { b: 2, r: 1, s: 1 },
    within: None,
};

// Positions l to r of doubling windows seen at n, and whether they fit then.
const FITS: [(u64, u64, u64, bool); 9] = [
    (1, 2, 2, false),
    (1, 2, 3, true),
    (1, 2, 4, false),
    (1, 2, 5, true),
    (1, 4, 6, false),
    (1, 4, 7, true),
    (3, 5, 8, true),
    (1, 1 << 39, MOST_VALUES, false),
    (2, 1 << 39, MOST_VALUES - 1, true),
];

fn fits(row: &(u64, u64, u64, bool)) -> Result<bool, Param> {
    let target = Target::of(DOUBLING)?;
    let (l, r, n, expected) = *row;
    Ok(are_positions(l, r, n) && target.fits(l, r, n) == expected)
}

#[test]
fn pairs_fit_where_they_stand(rt: HostRuntime) -> Result<(), Fail> {
    for (k, row) in FITS.iter().enumerate() {
        assert!(rt; fits(row)?, "row {k}");
    }
    Ok(())
}

const LINEAR: Params = Params {
    family: Family::Power {
        p: 1,
        q: 1,
        r: 1,
        s: 1,
    },
    within: None,
};

const CONSTANT: Params = Params {
    family: Family::Power {
        p: 1,
        q: 0,
        r: 1,
        s: 2,
    },
    within: None,
};

// Positions l to r seen at n, and when they first fit.
type FirstFit = (Params, u64, u64, u64, Option<u64>);

const FIRST_FITS: [FirstFit; 10] = [
    (DOUBLING, 1, 2, 2, Some(3)),
    (DOUBLING, 1, 2, 3, Some(3)),
    (DOUBLING, 1, 2, 4, Some(5)),
    (DOUBLING, 1, 4, 5, Some(7)),
    (DOUBLING, 3, 5, 5, Some(8)),
    (DOUBLING, 5, 6, 6, Some(7)),
    (LINEAR, 1, 2, 2, Some(3)),
    (LINEAR, 1, 4, 5, Some(10)),
    (CONSTANT, 1, 4, 4, None),
    (DOUBLING, 1, 1 << 39, MOST_VALUES, None),
];

fn first_fits_so(row: &FirstFit) -> Result<bool, Param> {
    let (params, l, r, n, expected) = *row;
    let target = Target::of(params)?;
    Ok(are_positions(l, r, n) && target.first_fit(l, r, n) == expected)
}

#[test]
fn first_fits(rt: HostRuntime) -> Result<(), Fail> {
    for (k, row) in FIRST_FITS.iter().enumerate() {
        assert!(rt; first_fits_so(row)?, "row {k}");
    }
    Ok(())
}

// The index and the length of a window.
type Oldest = (u64, u64);

// Of a reading a second for a day, for 30 days and for 365 days: the oldest target window.
const OLDEST: [(Params, Oldest, Oldest, Oldest); 5] = [
    (DOUBLING, (16, 65536), (21, 2_097_152), (24, 16_777_216)),
    (
        Params {
            family: Family::Exp { b: 2, r: 60, s: 1 },
            within: None,
        },
        (624, 1024),
        (919, 32768),
        (1140, 524_288),
    ),
    (
        Params {
            family: Family::Power {
                p: 1,
                q: 3,
                r: 60,
                s: 1,
            },
            within: None,
        },
        (491, 729),
        (1193, 8000),
        (2254, 54872),
    ),
    (
        Params {
            family: Family::Power {
                p: 1,
                q: 2,
                r: 60,
                s: 1,
            },
            within: None,
        },
        (946, 256),
        (3006, 2601),
        (6953, 13456),
    ),
    (
        Params {
            family: Family::Power {
                p: 1,
                q: 1,
                r: 4,
                s: 1,
            },
            within: None,
        },
        (829, 208),
        (4551, 1138),
        (15881, 3971),
    ),
];

fn is_oldest(target: &Target, age: u64, expected: Oldest) -> bool {
    let (index, _, len) = at(target, age);
    (index, len) == expected
}

fn are_oldest(row: &(Params, Oldest, Oldest, Oldest)) -> Result<bool, Param> {
    let target = Target::of(row.0)?;
    Ok(
        is_oldest(&target, 86_399, row.1)
            && is_oldest(&target, 2_591_999, row.2)
            && is_oldest(&target, 31_535_999, row.3),
    )
}

#[test]
fn windows_of_a_day_a_month_and_a_year(rt: HostRuntime) -> Result<(), Fail> {
    for (k, row) in OLDEST.iter().enumerate() {
        assert!(rt; are_oldest(row)?, "row {k}");
    }
    Ok(())
}

#[test]
fn laws_are_called() {
    lengths_of_a_target_never_fall();
}
