// Worked rows: tables of windows, and the edges of the parameters.
use ss_base::MOST_VALUES;
use ss_targets::{
    Decay, Exp, Param, Spot, exp_lengths_never_fall, first_fit_is_now_or_in_a_longer_window,
    fits_is_one_window, groups_follow_one_another, index_is_of_the_window_that_holds,
};
use std::test::Fail;

// The index, the start and the length of a window.
pub type Window = (u64, u64, u64);

pub fn parts(spot: Spot) -> Window {
    (spot.index, spot.start, spot.len)
}

// The window of an age up to the greatest. These two call through the bound.
pub fn at<D: Decay>(target: &D, age: u64) -> Window {
    parts(target.window_at(age.min(MOST_VALUES)))
}

// The window after that of an age, of at least a length.
pub fn next<D: Decay>(target: &D, age: u64, len: u64) -> Option<Window> {
    let spot = target.window_at(age.min(MOST_VALUES));
    if spot.start > MOST_VALUES {
        return None;
    }
    match target.next_at_least(spot, len) {
        Some(found) => Some(parts(found)),
        None => None,
    }
}

// The parameters, an age, and the window that holds it.
type Row = (u32, u32, u32, u64, Window);

const WINDOWS: [Row; 15] = [
    (2, 1, 1, 0, (0, 0, 1)),
    (2, 1, 1, 1, (1, 1, 2)),
    (2, 1, 1, 2, (1, 1, 2)),
    (2, 1, 1, 3, (2, 3, 4)),
    (2, 1, 1, 4, (2, 3, 4)),
    (2, 1, 1, 5, (2, 3, 4)),
    (2, 1, 1, 6, (2, 3, 4)),
    (3, 2, 1, 0, (0, 0, 1)),
    (3, 2, 1, 1, (1, 1, 1)),
    (3, 2, 1, 2, (2, 2, 3)),
    (3, 2, 1, 4, (2, 2, 3)),
    (3, 2, 1, 5, (3, 5, 3)),
    (3, 2, 1, 8, (4, 8, 9)),
    (2, 1, 1, MOST_VALUES, (40, (1 << 40) - 1, 1 << 40)),
    (16, 65536, 65536, MOST_VALUES, (192_256, 1 << 40, 1 << 24)),
];

fn holds(row: &Row) -> Result<bool, Param> {
    let target = Exp::new(row.0, row.1, row.2)?;
    Ok(at(&target, row.3) == row.4)
}

#[test]
fn windows_of_ages(rt: HostRuntime) -> Result<(), Fail> {
    for (k, row) in WINDOWS.iter().enumerate() {
        assert!(rt; holds(row)?, "row {k}");
    }
    Ok(())
}

// The parameters, an age and a length, and the next window of that length, or its absence.
type Next = (u32, u32, u32, u64, u64, Option<Window>);

const NEXT: [Next; 10] = [
    (2, 1, 1, 0, 1, Some((1, 1, 2))),
    (2, 1, 1, 0, 3, Some((2, 3, 4))),
    (2, 1, 1, 3, 4, Some((3, 7, 8))),
    (3, 2, 1, 0, 1, Some((1, 1, 1))),
    (3, 2, 1, 1, 3, Some((2, 2, 3))),
    (3, 2, 1, 2, 4, Some((4, 8, 9))),
    (2, 1, 1, 0, 1 << 40, Some((40, (1 << 40) - 1, 1 << 40))),
    (16, 65536, 65536, 0, 65537, Some((65536, 1 << 32, 1 << 20))),
    (2, 1, 1, 0, (1 << 40) + 1, None),
    (16, 65536, 65536, MOST_VALUES, 1, None),
];

fn follows(row: &Next) -> Result<bool, Param> {
    let target = Exp::new(row.0, row.1, row.2)?;
    Ok(next(&target, row.3, row.4) == row.5)
}

#[test]
fn next_windows_of_a_length(rt: HostRuntime) -> Result<(), Fail> {
    for (k, row) in NEXT.iter().enumerate() {
        assert!(rt; follows(row)?, "row {k}");
    }
    Ok(())
}

// Parameters, and whether they are in range.
type Ranged = (u32, u32, u32, bool);

const PARAMETERS: [Ranged; 8] = [
    (1, 1, 1, false),
    (17, 1, 1, false),
    (2, 0, 1, false),
    (2, 65537, 1, false),
    (2, 1, 0, false),
    (2, 1, 65537, false),
    (2, 1, 1, true),
    (16, 65536, 65536, true),
];

fn is_ranged(row: &Ranged) -> bool {
    Exp::new(row.0, row.1, row.2).is_ok() == row.3
}

#[test]
fn parameters_in_range(rt: HostRuntime) {
    for (k, row) in PARAMETERS.iter().enumerate() {
        assert!(rt; is_ranged(row), "row {k}");
    }
}

#[test]
fn laws_are_called() {
    index_is_of_the_window_that_holds();
    fits_is_one_window();
    exp_lengths_never_fall();
    first_fit_is_now_or_in_a_longer_window();
    groups_follow_one_another();
}
