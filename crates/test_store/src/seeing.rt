// What is known for queries.
use crate::applying::READINGS;
use crate::passing::pass;
use crate::running::{Running, fresh, play};
use ss_base::LAST_TIME;
use ss_catalog::{Kind, Name, Query};
use ss_model::Presence::{self, Absent, Maybe, Present};
use ss_query::{Cut, Seen};
use ss_store::OpenError;
use ss_summary::Summary;
use std::alloc::Global;
use std::test::Fail;

// From which to which time; the first and the last position of the window that begins before this range and is cut by it, and
// of the one that begins in it, with zeros where there is none; and how many values the windows have that lie whole in it.
type Sight = (u64, u64, (u64, u64), (u64, u64), u64);

const SIGHTS: [Sight; 7] = [
    (10, 25, (0, 0), (1, 4), 0),
    (15, 25, (1, 4), (0, 0), 0),
    (25, 55, (1, 4), (5, 6), 0),
    (10, 40, (0, 0), (0, 0), 4),
    (25, 70, (1, 4), (0, 0), 3),
    (0, LAST_TIME, (0, 0), (0, 0), 7),
    (41, 49, (0, 0), (0, 0), 0),
];

fn ends(cut: Option<Cut>) -> (u64, u64) {
    match cut {
        None => (0, 0),
        Some(cut) => (cut.first, cut.last),
    }
}

fn count(whole: Option<Summary>) -> u64 {
    match whole {
        None => 0,
        Some(summary) => summary.count,
    }
}

fn is_sight(seen: Seen, sight: Sight) -> bool {
    let (_, _, left, right, whole) = sight;
    ends(seen.left) == left && ends(seen.right) == right && count(seen.whole) == whole
}

fn query(kind: Kind, from: u64, to: u64) -> Option<Query> {
    let name = Name::of(b"a")?;
    Some(Query {
        name,
        kind,
        from,
        to,
    })
}

fn is_known(running: &mut Running, sight: Sight) -> bool {
    let (from, to, _, _, _) = sight;
    let Some(query) = query(Kind::Sum, from, to) else {
        return false;
    };
    match running.store.see(&mut running.disk, &query) {
        Ok(seen) => is_sight(seen, sight),
        Err(_) => false,
    }
}

// The first range of which something else is known.
fn first_unknown(running: &mut Running) -> Option<usize> {
    for (row, sight) in SIGHTS.iter().enumerate() {
        if !is_known(running, *sight) {
            return Some(row);
        }
    }
    None
}

fn sights(alloc: Global) -> Result<Option<usize>, OpenError> {
    let mut running = fresh(alloc)?;
    play(&mut running, &READINGS);
    Ok(first_unknown(&mut running))
}

#[test]
fn windows_are_cut(rt: HostRuntime) -> Result<(), Fail> {
    pass(sights(rt.alloc())?)
}

// What is known of a value at times from one to another, where one is asked for.
const PRESENCES: [(Kind, u64, u64, Presence); 8] = [
    (Kind::Has { value: 8 }, 10, 40, Present),
    (Kind::Has { value: 1 }, 10, 40, Maybe),
    (Kind::Has { value: 4 }, 10, 40, Absent),
    (Kind::Has { value: 8 }, 10, 39, Maybe),
    (Kind::Has { value: 8 }, 41, 49, Absent),
    (Kind::Sum, 10, 40, Absent),
    (Kind::Max, 10, 40, Absent),
    (Kind::Count, 10, 40, Absent),
];

fn is_presence(running: &mut Running, row: (Kind, u64, u64, Presence)) -> bool {
    let (kind, from, to, presence) = row;
    let Some(query) = query(kind, from, to) else {
        return false;
    };
    match running.store.see(&mut running.disk, &query) {
        Ok(seen) => seen.presence == presence,
        Err(_) => false,
    }
}

// The first row of which something else is known.
fn first_otherwise(running: &mut Running) -> Option<usize> {
    for (row, known) in PRESENCES.iter().enumerate() {
        if !is_presence(running, *known) {
            return Some(row);
        }
    }
    None
}

fn presences(alloc: Global) -> Result<Option<usize>, OpenError> {
    let mut running = fresh(alloc)?;
    play(&mut running, &READINGS);
    Ok(first_otherwise(&mut running))
}

#[test]
fn a_value_is_looked_for_where_it_is_asked_for(rt: HostRuntime) -> Result<(), Fail> {
    pass(presences(rt.alloc())?)
}
