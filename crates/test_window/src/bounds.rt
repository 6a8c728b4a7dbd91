// Worked rows: windows of a few values, and the edges of 64 bits.
use ss_base::{LAST_TIME, MOST_VALUES};
use ss_bounds::{
    Extreme, Split, count_bounds, count_guess, ends_of_sums_are_attained, extremes_hold_the_truth,
    free_times_are_parted, greatest_sum_at, guesses_lie_between, least_sum_at, max_bounds,
    min_bounds, several_hold_the_truth, split_windows_hold_the_truth, sum_bounds, sum_guess,
    values_can_be_parted,
};
use ss_summary::{Filter, Summary};

// The count, sum, least and greatest of a window, its ends in the range, and the times inside it and outside.
type Window = (u64, i128, i64, i64, u64, u64, u64);

// 5, -3, 8 and 1 at the times 10, 20, 30 and 40, from 10 to 25.
const FOUR: Window = (4, 11, -3, 8, 1, 15, 14);

// The same from 15 to 25.
const FOUR_WITHOUT_ENDS: Window = (4, 11, -3, 8, 0, 11, 18);

// 9 and 2 at 50 and 60, from 25 to 55.
const TWO: Window = (2, 11, 2, 9, 1, 5, 4);

// 4, 4, 6 and 6 at 10, 11, 12 and 13, from 10 to 11.
const EQUAL: Window = (4, 20, 4, 6, 1, 1, 1);

// 1 and 3 at 10 and 50, from 20 to 40, all of which a landmark covers.
const COVERED: Window = (2, 4, 1, 3, 0, 0, 18);

// Two at the greatest at 10 and 20, from 10 to 15.
const GREATEST: Window = (2, 18446744073709551614, i64::MAX, i64::MAX, 1, 5, 4);

// The least and the greatest at 10 and 20, from 10 to 15.
const FURTHEST: Window = (2, -1, i64::MIN, i64::MAX, 1, 5, 4);

// As many values as a window holds.
const FULL: Window = (MOST_VALUES, 0, i64::MIN, i64::MAX, 1, LAST_TIME, LAST_TIME);

// The window as a split one, if it can be one.
fn split_of(window: Window) -> Option<Split> {
    let (count, sum, min, max, ends, inside, outside) = window;
    let summary = Summary::of(count, sum, min, max, 0, LAST_TIME, Filter::full())?;
    if count < 2 || ends > 1 || inside > LAST_TIME || outside > LAST_TIME {
        return None;
    }
    if count - 2 > inside + outside {
        return None;
    }
    Some(Split {
        count: summary.count,
        sum: summary.sum,
        min: summary.min,
        max: summary.max,
        ends,
        inside,
        outside,
    })
}

// From which to which count, and from which to which sum.
type Bounds = ((u64, u64), (i128, i128));

const BOUNDS: [(Window, Bounds); 8] = [
    (FOUR, ((1, 3), (-5, 16))),
    (FOUR_WITHOUT_ENDS, ((0, 2), (-5, 16))),
    (TWO, ((1, 1), (2, 9))),
    (EQUAL, ((2, 2), (8, 12))),
    (COVERED, ((0, 0), (0, 0))),
    (
        GREATEST,
        ((1, 1), (9223372036854775807, 9223372036854775807)),
    ),
    (
        FURTHEST,
        ((1, 1), (-9223372036854775808, 9223372036854775807)),
    ),
    (
        FULL,
        (
            (1, 1099511627775),
            (
                -5070602400912917605437057007616,
                5070602400912917605437057007616,
            ),
        ),
    ),
];

fn bounds(window: Window) -> Option<Bounds> {
    let split = split_of(window)?;
    Some((count_bounds(split), sum_bounds(split)))
}

#[test]
fn counts_and_sums(rt: HostRuntime) {
    for (k, row) in BOUNDS.iter().enumerate() {
        assert!(rt; bounds(row.0) == Some(row.1), "row {k}");
    }
}

// The least numbers of values with the least and with the greatest sum of all.
const ATTAINED: [(Window, (u64, u64)); 8] = [
    (FOUR, (2, 2)),
    (FOUR_WITHOUT_ENDS, (2, 2)),
    (TWO, (1, 1)),
    (EQUAL, (2, 2)),
    (COVERED, (0, 0)),
    (GREATEST, (1, 1)),
    (FURTHEST, (1, 1)),
    (FULL, (549755813888, 549755813888)),
];

fn attained(window: Window) -> Option<(u64, u64)> {
    let split = split_of(window)?;
    Some((least_sum_at(split), greatest_sum_at(split)))
}

#[test]
fn ends_are_attained(rt: HostRuntime) {
    for (k, row) in ATTAINED.iter().enumerate() {
        assert!(rt; attained(row.0) == Some(row.1), "row {k}");
    }
}

// The value x times.
fn times(x: u64, value: i64) -> i128 {
    i128::from(x).wrapping_mul(i128::from(value))
}

// The least and the greatest sum of x values of a window.
fn sums(window: Window, x: u64) -> (i128, i128) {
    let (count, sum, min, max, _, _, _) = window;
    let others = count.wrapping_sub(x);
    let lo = times(x, min).max(sum.wrapping_sub(times(others, max)));
    let hi = times(x, max).min(sum.wrapping_sub(times(others, min)));
    (lo, hi)
}

// The first numbers from `fewest` to `most` with the least and with the greatest sum of all, by trying each.
fn tried(window: Window, fewest: u64, most: u64) -> (u64, u64) {
    let mut least = fewest;
    let mut greatest = fewest;
    for x in fewest..=most {
        if sums(window, x).0 < sums(window, least).0 {
            least = x;
        }
        if sums(window, x).1 > sums(window, greatest).1 {
            greatest = x;
        }
    }
    (least, greatest)
}

// The ends that hold of a window's values, and the times inside the range and outside it.
const PLACES: [(u64, u64, u64); 5] = [(0, 1, 3), (0, 2, 8), (1, 8, 8), (1, 8, 1), (1, 2, 2)];

const VALUES: [i64; 7] = [-3, -2, -1, 0, 1, 2, 3];

// One of the windows of 2 to 6 values from -3 to 3, with a sum from -20 to 20.
fn small_window(k: u64) -> Window {
    let (ends, inside, outside) = PLACES[(k % 5) as usize];
    let count = 2 + k / 5 % 5;
    let sum = i128::from(k / 25 % 41) - 20;
    let min = VALUES[(k / 1025 % 7) as usize];
    let max = VALUES[(k / 7175 % 7) as usize];
    (count, sum, min, max, ends, inside, outside)
}

// What is attained in a window, if it can be one, is what is found by trying.
fn is_as_tried(window: Window) -> bool {
    let Some(split) = split_of(window) else {
        return true;
    };
    let (fewest, most) = count_bounds(split);
    attained(window) == Some(tried(window, fewest, most))
}

#[test]
fn ends_are_attained_as_by_trying(rt: HostRuntime) {
    for k in 0..50225 {
        assert!(rt; is_as_tried(small_window(k)), "window {k}");
    }
}

// The count and the sum that are known, two windows, and the guesses of both.
type Guessed = ((i64, i64), Option<Window>, Option<Window>, (i128, i128));

// Three values with the sum 6, and three with 15: of each one end and two of four free times.
const THREE_LOW: Window = (3, 6, 1, 3, 1, 2, 2);

const THREE_HIGH: Window = (3, 15, 4, 6, 1, 2, 2);

// -4 and -1 at 10 and 11, from 10 to 10.
const BESIDE: Window = (2, -5, -4, -1, 1, 0, 0);

const GUESSES: [Guessed; 9] = [
    ((7, -7), None, None, (7, -7)),
    ((0, 0), Some(FOUR), None, (2, 6)),
    ((0, 0), None, Some(TWO), (1, 6)),
    ((0, 0), Some(FOUR), Some(TWO), (3, 11)),
    ((1, 7), Some(TWO), None, (2, 12)),
    ((0, 0), Some(THREE_LOW), Some(THREE_HIGH), (3, 10)),
    ((0, 0), Some(BESIDE), None, (1, -2)),
    ((1, -2), Some(BESIDE), None, (2, -4)),
    ((0, 0), Some(FULL), None, (549755813888, 0)),
];

fn is_guessed(row: &Guessed) -> bool {
    let count = count_guess(i128::from(row.0.0), split(row.1), split(row.2));
    let sum = sum_guess(i128::from(row.0.1), split(row.1), split(row.2));
    count == row.3.0 && sum == row.3.1
}

#[test]
fn guesses_of_counts_and_sums(rt: HostRuntime) {
    for (k, row) in GUESSES.iter().enumerate() {
        assert!(rt; is_guessed(row), "row {k}");
    }
}

// What is known exactly, two windows, and what is known of the least or the greatest value.
type Row = (Option<i64>, Option<Window>, Option<Window>, Extreme);

const LEAST: [Row; 9] = [
    (None, None, None, Extreme::Nothing),
    (None, Some(COVERED), None, Extreme::Nothing),
    (Some(7), Some(COVERED), None, Extreme::Sure { lo: 7, hi: 7 }),
    (None, Some(FOUR), None, Extreme::Sure { lo: -3, hi: 8 }),
    (None, Some(FOUR), Some(TWO), Extreme::Sure { lo: -3, hi: 8 }),
    (
        None,
        Some(FOUR_WITHOUT_ENDS),
        None,
        Extreme::Maybe { lo: -3, hi: 8 },
    ),
    (
        None,
        Some(FOUR_WITHOUT_ENDS),
        Some(TWO),
        Extreme::Sure { lo: -3, hi: 9 },
    ),
    (
        Some(5),
        Some(FOUR_WITHOUT_ENDS),
        Some(TWO),
        Extreme::Sure { lo: -3, hi: 5 },
    ),
    (
        Some(-4),
        None,
        Some(FOUR_WITHOUT_ENDS),
        Extreme::Sure { lo: -4, hi: -4 },
    ),
];

const MOST: [Row; 6] = [
    (None, Some(COVERED), None, Extreme::Nothing),
    (Some(7), Some(COVERED), None, Extreme::Sure { lo: 7, hi: 7 }),
    (None, Some(FOUR), Some(TWO), Extreme::Sure { lo: 2, hi: 9 }),
    (
        None,
        Some(FOUR_WITHOUT_ENDS),
        None,
        Extreme::Maybe { lo: -3, hi: 8 },
    ),
    (
        Some(5),
        Some(FOUR_WITHOUT_ENDS),
        Some(TWO),
        Extreme::Sure { lo: 5, hi: 9 },
    ),
    (
        Some(-4),
        None,
        Some(FOUR_WITHOUT_ENDS),
        Extreme::Sure { lo: -4, hi: 8 },
    ),
];

fn split(window: Option<Window>) -> Option<Split> {
    split_of(window?)
}

fn is_least(row: &Row) -> bool {
    min_bounds(row.0, split(row.1), split(row.2)) == row.3
}

#[test]
fn least_values(rt: HostRuntime) {
    for (k, row) in LEAST.iter().enumerate() {
        assert!(rt; is_least(row), "row {k}");
    }
}

fn is_greatest(row: &Row) -> bool {
    max_bounds(row.0, split(row.1), split(row.2)) == row.3
}

#[test]
fn greatest_values(rt: HostRuntime) {
    for (k, row) in MOST.iter().enumerate() {
        assert!(rt; is_greatest(row), "row {k}");
    }
}

#[test]
fn laws_are_called() {
    split_windows_hold_the_truth();
    ends_of_sums_are_attained();
    values_can_be_parted();
    extremes_hold_the_truth();
    free_times_are_parted();
    guesses_lie_between();
    several_hold_the_truth();
}
