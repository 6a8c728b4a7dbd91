// Worked rows: the figures of a few values, joined one after the other.
use ss_base::LAST_TIME;
use ss_summary::{
    Filter, Summary, joined_is_of_the_joined_list, joining_is_associative,
    possible_figures_are_those_of_values, possible_figures_pass_the_test,
};

// The count, the sum, the least, the greatest, and the first and the last time.
type Figures = (u64, i128, i64, i64, u64, u64);

fn figures(summary: Summary) -> Figures {
    (
        summary.count,
        summary.sum,
        summary.min,
        summary.max,
        summary.t_first,
        summary.t_last,
    )
}

// The summary of one value, if its time isn't too late.
fn one(value: (u64, i64)) -> Option<Summary> {
    let (t, v) = value;
    if t > LAST_TIME {
        return None;
    }
    Some(Summary::one(t, v))
}

// The summary of the values of both, if all of the second's times are greater. They are few.
fn joined(a: Summary, b: Summary) -> Option<Summary> {
    if a.t_last < b.t_first && a.count < 100 && b.count < 100 {
        Some(Summary::join(a, b))
    } else {
        None
    }
}

// Two values, each with its time.
type Pair = ((u64, i64), (u64, i64));

fn pair(values: Pair) -> Option<Summary> {
    joined(one(values.0)?, one(values.1)?)
}

fn two_pairs(first: Pair, second: Pair) -> Option<Summary> {
    joined(pair(first)?, pair(second)?)
}

// One pair or two, and their figures.
const ROWS: [(Pair, Option<Pair>, Figures); 4] = [
    (
        ((10, 5), (20, -3)),
        Some(((30, 8), (40, 1))),
        (4, 11, -3, 8, 10, 40),
    ),
    (((50, 9), (60, 2)), None, (2, 11, 2, 9, 50, 60)),
    (
        ((10, i64::MAX), (20, i64::MAX)),
        None,
        (2, 18446744073709551614, i64::MAX, i64::MAX, 10, 20),
    ),
    (
        ((10, i64::MIN), (20, i64::MAX)),
        None,
        (2, -1, i64::MIN, i64::MAX, 10, 20),
    ),
];

fn figures_of(first: Pair, second: Option<Pair>) -> Option<Figures> {
    let summary = match second {
        Some(second) => two_pairs(first, second)?,
        None => pair(first)?,
    };
    Some(figures(summary))
}

#[test]
fn worked_rows(rt: HostRuntime) {
    for (k, row) in ROWS.iter().enumerate() {
        assert!(rt; figures_of(row.0, row.1) == Some(row.2), "row {k}");
    }
}

#[test]
fn laws_are_called() {
    joining_is_associative();
    joined_is_of_the_joined_list();
    possible_figures_are_those_of_values();
    possible_figures_pass_the_test();
}

const POSSIBLE: [(Figures, bool); 16] = [
    ((4, 11, -3, 8, 10, 40), true),
    ((4, 21, -3, 8, 10, 40), true),
    ((4, 22, -3, 8, 10, 40), false),
    ((4, -1, -3, 8, 10, 40), true),
    ((4, -2, -3, 8, 10, 40), false),
    ((4, 11, -3, 8, 10, 13), true),
    ((4, 11, -3, 8, 10, 12), false),
    ((2, 5, 3, 2, 10, 40), false),
    ((0, 0, 0, 0, 10, 10), false),
    ((1, 5, 5, 5, 10, 10), true),
    ((1, 5, 5, 5, 10, 11), false),
    ((1, 6, 5, 6, 10, 10), false),
    ((1, 5, 5, 5, 1 << 62, 1 << 62), true),
    ((1, 5, 5, 5, (1 << 62) + 1, (1 << 62) + 1), false),
    ((1 << 40, 0, i64::MIN, i64::MAX, 1, 1 << 40), true),
    (
        (u64::MAX, i128::MAX, i64::MAX, i64::MAX, 0, u64::MAX),
        false,
    ),
];

// Whether there is a summary of these figures, and it has them and the filter, or none.
fn is_so(f: Figures, filter: Filter, possible: bool) -> bool {
    match Summary::of(f.0, f.1, f.2, f.3, f.4, f.5, filter) {
        Some(summary) => possible && figures(summary) == f && summary.filter == filter,
        None => !possible,
    }
}

#[test]
fn figures_make_a_summary(rt: HostRuntime) {
    for (k, row) in POSSIBLE.iter().enumerate() {
        assert!(rt; is_so(row.0, Filter::full(), row.1), "row {k}");
    }
}

// The values of a filter, and whether figures with the least value -3 and the greatest 8 may have it.
const FILTERED: [((i64, i64), bool); 4] = [
    ((-3, 8), true),
    ((-3, 5), false),
    ((5, 8), false),
    ((5, 1), false),
];

#[test]
fn a_filter_has_the_bits_of_the_ends(rt: HostRuntime) {
    for (k, row) in FILTERED.iter().enumerate() {
        let filter = Filter::union(Filter::of(row.0.0), Filter::of(row.0.1));
        assert!(rt; is_so((4, 11, -3, 8, 10, 40), filter, row.1), "row {k}");
    }
}
