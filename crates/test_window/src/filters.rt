// Worked rows: which values a filter tells of.
use ss_summary::{
    Filter, Summary, filters_are_of_their_points, filters_are_their_bits, uniting_is_associative,
};

// A value, the word that its bit lies in, and that word of its filter. The bits of 5 and of 238 are one.
const BITS: [(i64, usize, u64); 9] = [
    (5, 0, 1 << 23),
    (238, 0, 1 << 23),
    (-3, 0, 1 << 37),
    (8, 3, 1 << 49),
    (1, 2, 1 << 30),
    (0, 0, 1),
    (-1, 1, 1 << 33),
    (i64::MIN, 2, 1),
    (i64::MAX, 3, 1 << 33),
];

// Whether the filter of a value has this word alone, and the value.
fn is_filter_of(v: i64, place: usize, word: u64) -> bool {
    let mut words = [0; 4];
    if place < 4 {
        words[place] = word;
    }
    let filter = Filter::of(v);
    filter == Filter { words } && filter.has(v)
}

#[test]
fn each_value_has_a_bit(rt: HostRuntime) {
    for (k, row) in BITS.iter().enumerate() {
        assert!(rt; is_filter_of(row.0, row.1, row.2), "row {k}");
    }
}

// Whether the values of both are told of by the filter of the first and the second.
const SHARED: [(i64, i64, i64, bool); 7] = [
    (5, -3, 5, true),
    (5, -3, -3, true),
    (5, -3, 238, true),
    (5, -3, 8, false),
    (5, 5, -3, false),
    (i64::MIN, i64::MAX, i64::MAX, true),
    (i64::MIN, i64::MAX, 0, false),
];

#[test]
fn a_union_has_the_bits_of_both(rt: HostRuntime) {
    for (k, row) in SHARED.iter().enumerate() {
        let filter = Filter::union(Filter::of(row.0), Filter::of(row.1));
        assert!(rt; filter.has(row.2) == row.3, "row {k}");
        assert!(rt; Filter::full().has(row.2), "row {k}");
        assert!(rt;
            Filter::union(filter, Filter::full()) == Filter::full(),
            "row {k}"
        );
    }
}

#[test]
fn a_summary_has_the_filter_of_its_values(rt: HostRuntime) {
    let first = Summary::join(Summary::one(10, 5), Summary::one(20, -3));
    assert!(rt; first.filter == Filter::union(Filter::of(5), Filter::of(-3)));
    assert!(rt;
        Filter::full()
            == Filter {
                words: [u64::MAX; 4]
            }
    );
}

#[test]
fn laws_of_filters_are_called() {
    filters_are_of_their_points();
    filters_are_their_bits();
    uniting_is_associative();
}
