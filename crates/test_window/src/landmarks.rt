// Scripts of landmarks in time: what is told of them after each.
ghost use Rattle.std.specs.Prelude.{◌≤◌, IfOk};
ghost use Rattle.ss_landmarks.specs.Order.{AllEndBy};
ghost use Rattle.ss_base.specs.Steps.{IsFresh};

use ss_base::{LAST_TIME, Steps};
use ss_landmarks::{
    Landmarks, free_times_add_up, landmarks_stay_in_order, last_times_rise, the_last_is_open,
    times_may_follow, values_come_last, which_values_are_among_them,
};
use std::alloc::{AllocError, Global};
use std::marker::Brand;
use std::sync::ledger::{Blank, Ledger};

#[derive(Clone, Copy)]
enum Step {
    Open(u64),
    // A value at the time of the opening.
    First(i64),
    Add(u64, i64),
    Close(u64),
}

// Opens a landmark after the last time, if none is open, and gives the last time then.
fn open(landmarks: &mut Landmarks, last: u64, t: u64, slot: u32) -> u64
    requires ends { AllEndBy last landmarks.old.landmarks }
    requires room { 1 ≤ landmarks.old.room }
    ensures { AllEndBy result landmarks.new.landmarks }
{
    last_times_rise();
    if landmarks.opened().is_some() || t <= last || t > LAST_TIME {
        return last;
    }
    landmarks.start(t, slot);
    t
}

// Adds a value at the time of the opening, if it is the first one there.
fn first(landmarks: &mut Landmarks, last: u64, v: i64, slot: u32) -> u64
    requires ends { AllEndBy last landmarks.old.landmarks }
    requires room { 1 ≤ landmarks.old.value_room }
    ensures { AllEndBy result landmarks.new.landmarks }
{
    times_may_follow();
    last_times_rise();
    match landmarks.opened() {
        Some((start, _, 0)) if last <= start && start <= LAST_TIME => {
            landmarks.add(start, v, slot);
            start
        }
        _ => last,
    }
}

// Adds a value after the last time, if a landmark is open.
fn add(landmarks: &mut Landmarks, last: u64, t: u64, v: i64, slot: u32) -> u64
    requires ends { AllEndBy last landmarks.old.landmarks }
    requires room { 1 ≤ landmarks.old.value_room }
    ensures { AllEndBy result landmarks.new.landmarks }
{
    last_times_rise();
    if landmarks.opened().is_none() || t <= last || t > LAST_TIME {
        return last;
    }
    landmarks.add(t, v, slot);
    t
}

// Closes the open landmark, at the last time or after it.
fn close(landmarks: &mut Landmarks, last: u64, t: u64) -> u64
    requires { AllEndBy last landmarks.old.landmarks }
    ensures { AllEndBy result landmarks.new.landmarks }
{
    times_may_follow();
    last_times_rise();
    if landmarks.opened().is_none() || t < last || t > LAST_TIME {
        return last;
    }
    landmarks.finish(t);
    t
}

// Takes a step that may follow what came up to `last`, and gives the last time then. One that may not follow is left out.
fn take(landmarks: &mut Landmarks, last: u64, step: Step, slot: u32) -> Result<u64, AllocError>
    requires { AllEndBy last landmarks.old.landmarks }
    ensures { IfOk result (λ last. AllEndBy last landmarks.new.landmarks) }
{
    if landmarks.count() >= 100 || landmarks.values() >= 100 {
        return Ok(last);
    }
    landmarks.reserve()?;
    Ok(match step {
        Step::Open(t) => open(landmarks, last, t, slot),
        Step::First(v) => first(landmarks, last, v, slot),
        Step::Add(t, v) => add(landmarks, last, t, v, slot),
        Step::Close(t) => close(landmarks, last, t),
    })
}

// A script, and what is told after it: the free times of ranges, the values in ranges, which values these hold, how many
// landmarks and values there are, the slots of the landmarks and then of the values, and which landmark is open. The slot of
// a step is its number in the script, from 1.
struct Row {
    steps: &'static [Step],
    free: &'static [(u64, u64, u64)],
    values: &'static [(u64, u64, Figures)],
    holds: &'static [(u64, u64, i64, bool)],
    count: u32,
    number: u32,
    slots: &'static [u32],
    opened: Option<(u64, u32, u32)>,
}

// How many values, their sum, the least and the greatest.
type Figures = (u64, i128, Option<i64>, Option<i64>);

const NOTHING: Figures = (0, 0, None, None);

const ROWS: [Row; 7] = [
    Row {
        steps: &[Step::Add(5, 5), Step::Close(6)],
        free: &[(0, 10, 11), (5, 4, 0), (0, LAST_TIME, LAST_TIME + 1)],
        values: &[(0, 10, NOTHING)],
        holds: &[(0, 10, 5, false)],
        count: 0,
        number: 0,
        slots: &[],
        opened: None,
    },
    // One time, with the value at its opening.
    Row {
        steps: &[Step::Open(100), Step::First(7), Step::Close(100)],
        free: &[(99, 101, 2), (100, 100, 0), (0, 99, 100), (101, 101, 1)],
        values: &[
            (100, 100, (1, 7, Some(7), Some(7))),
            (101, 200, NOTHING),
            (0, 99, NOTHING),
        ],
        holds: &[(100, 100, 7, true), (0, 99, 7, false), (101, 200, 7, false)],
        count: 1,
        number: 1,
        slots: &[1, 2],
        opened: None,
    },
    // Both ends are covered, also after the last value.
    Row {
        steps: &[
            Step::Open(20),
            Step::First(100),
            Step::Add(30, 200),
            Step::Close(40),
        ],
        free: &[
            (11, 49, 18),
            (20, 40, 0),
            (19, 41, 2),
            (41, 50, 10),
            (0, 19, 20),
            (49, 11, 0),
        ],
        values: &[
            (20, 40, (2, 300, Some(100), Some(200))),
            (21, 30, (1, 200, Some(200), Some(200))),
            (20, 29, (1, 100, Some(100), Some(100))),
            (31, 40, NOTHING),
            (40, 20, NOTHING),
        ],
        holds: &[
            (20, 30, 100, true),
            (20, 30, 200, true),
            (21, 30, 100, false),
            (20, 29, 200, false),
            (20, 40, 300, false),
            (40, 20, 100, false),
        ],
        count: 1,
        number: 2,
        slots: &[1, 2, 3],
        opened: None,
    },
    // An open one covers all times from its opening on.
    Row {
        steps: &[
            Step::Open(20),
            Step::First(100),
            Step::Add(30, 200),
            Step::Close(40),
            Step::Open(80),
            Step::Add(90, -3),
        ],
        free: &[
            (70, 1000, 10),
            (11, 81, 48),
            (80, 80, 0),
            (79, 79, 1),
            (0, LAST_TIME, 59),
        ],
        values: &[
            (30, 90, (2, 197, Some(-3), Some(200))),
            (31, 90, (1, -3, Some(-3), Some(-3))),
            (0, 89, (2, 300, Some(100), Some(200))),
        ],
        holds: &[
            (90, 90, -3, true),
            (0, 89, -3, false),
            (0, 90, 3, false),
            (0, 90, 200, true),
        ],
        count: 2,
        number: 3,
        slots: &[1, 5, 2, 3, 6],
        opened: Some((80, 5, 1)),
    },
    // Steps that may not follow: a second opening, equal and earlier times, no open landmark.
    Row {
        steps: &[
            Step::Open(10),
            Step::Open(11),
            Step::First(1),
            Step::First(2),
            Step::Add(10, 3),
            Step::Close(9),
            Step::Close(10),
            Step::Close(12),
            Step::Add(13, 4),
            Step::Open(10),
            Step::Open(11),
        ],
        free: &[(9, 11, 1), (0, 9, 10), (10, 100, 0)],
        values: &[(0, 100, (1, 1, Some(1), Some(1)))],
        holds: &[(0, 100, 1, true), (0, 100, 2, false), (10, 10, 3, false)],
        count: 2,
        number: 1,
        slots: &[1, 11, 3],
        opened: Some((11, 11, 0)),
    },
    // The greatest times.
    Row {
        steps: &[
            Step::Open((1 << 40) + 1),
            Step::First(0),
            Step::Close((1 << 40) + 1),
            Step::Open(LAST_TIME - 1),
            Step::Add(LAST_TIME, 5),
        ],
        free: &[(LAST_TIME - 3, LAST_TIME, 2), (1 << 40, (1 << 40) + 3, 3)],
        values: &[
            (LAST_TIME, u64::MAX, (1, 5, Some(5), Some(5))),
            (0, u64::MAX, (2, 5, Some(0), Some(5))),
        ],
        holds: &[
            (LAST_TIME, LAST_TIME, 5, true),
            (0, LAST_TIME - 1, 5, false),
            (0, u64::MAX, 0, true),
        ],
        count: 2,
        number: 2,
        slots: &[1, 4, 2, 5],
        opened: Some((LAST_TIME - 1, 4, 1)),
    },
    // The greatest and the least values.
    Row {
        steps: &[
            Step::Open(1),
            Step::First(i64::MAX),
            Step::Add(2, i64::MAX),
            Step::Add(3, i64::MIN),
            Step::Close(3),
        ],
        free: &[(0, 4, 2)],
        values: &[
            (
                1,
                2,
                (2, 18446744073709551614, Some(i64::MAX), Some(i64::MAX)),
            ),
            (
                1,
                3,
                (3, 9223372036854775806, Some(i64::MIN), Some(i64::MAX)),
            ),
            (
                3,
                3,
                (1, -9223372036854775808, Some(i64::MIN), Some(i64::MIN)),
            ),
        ],
        holds: &[
            (1, 3, i64::MIN, true),
            (1, 2, i64::MIN, false),
            (2, 2, i64::MAX, true),
            (3, 3, i64::MAX, false),
        ],
        count: 1,
        number: 3,
        slots: &[1, 2, 3, 4],
        opened: None,
    },
];

fn landmarks_of(alloc: Global, steps: &[Step]) -> Result<Landmarks, AllocError> {
    let mut landmarks = Landmarks::new(alloc);
    let mut last = 0;
    let mut slot: u32 = 1;
    for step in steps {
        last = take(&mut landmarks, last, *step, slot)?;
        slot = slot.wrapping_add(1);
    }
    Ok(landmarks)
}

fn has_free<L: Ledger>(landmarks: &Landmarks, rows: &[(u64, u64, u64)], blank: Blank) -> bool
    requires { IsFresh L.name L.parts blank }
{
    let mut searches = Steps::<L>::new(blank);
    for (p, q, free) in rows {
        if *q > LAST_TIME || landmarks.free(*p, *q, &mut searches) != *free {
            return false;
        }
    }
    true
}

fn has_values(landmarks: &Landmarks, rows: &[(u64, u64, Figures)]) -> bool {
    for (a, b, figures) in rows {
        let found = landmarks.values_in(*a, *b);
        if (found.count, found.sum, found.least, found.greatest) != *figures {
            return false;
        }
    }
    true
}

// Whether the landmarks hold in each range the value of its row exactly where the row says so.
fn holds_values(landmarks: &Landmarks, rows: &[(u64, u64, i64, bool)]) -> bool {
    for (a, b, v, held) in rows {
        if landmarks.holds(*a, *b, *v) != *held {
            return false;
        }
    }
    true
}

// Whether the slots of all landmarks, and then those of all values, are these.
fn has_slots(landmarks: &Landmarks, slots: &[u32]) -> bool {
    let count = landmarks.count() + landmarks.values();
    if slots.len() != count as usize {
        return false;
    }
    for (place, slot) in slots.iter().enumerate() {
        if landmarks.slot_at(place as u32) != *slot {
            return false;
        }
    }
    true
}

// Whether all is told of a row's landmarks as the row says.
fn is_told(alloc: Global, row: &Row) -> Result<bool, AllocError> {
    let landmarks = landmarks_of(alloc, row.steps)?;
    let counts = landmarks.count() == row.count && landmarks.values() == row.number;
    Ok(
        counts
            && landmarks.opened() == row.opened
            && has_slots(&landmarks, row.slots)
            && has_free::<Brand>(&landmarks, row.free, Blank::new(1))
            && has_values(&landmarks, row.values)
            && holds_values(&landmarks, row.holds),
    )
}

#[test]
fn worked_rows(rt: HostRuntime) -> Result<(), AllocError> {
    for (number, row) in ROWS.iter().enumerate() {
        assert!(rt; is_told(rt.alloc(), row)?, "at row {number}");
    }
    Ok(())
}

#[test]
fn laws_are_called() {
    times_may_follow();
    landmarks_stay_in_order();
    last_times_rise();
    the_last_is_open();
    values_come_last();
    free_times_add_up();
    which_values_are_among_them();
}
