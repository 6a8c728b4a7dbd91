// Slots that give other bytes than before, and what the calls of a store answer then.
use crate::passing::pass;
use crate::running::Asked::{Close, Create, Open, Value};
use crate::running::{DOUBLING, IN_TWOS, Question, Row, Running, fill, play};
use crate::steps::Step::{
    self, Apply, Clear, Counts, EndAt, MoveTo, Reads, Settled, Tell, Untold, Within,
};
use crate::steps::first_wrong;
use ss_catalog::Kind;
use ss_model::Outcome::{self, Count};
use ss_store::{ApplyError, AskError};
use std::test::Fail;

/// What a store has taken before its slots change.
#[derive(Clone, Copy)]
pub enum Taken {
    One,
    Two,
    Around,
    Many,
    Spread,
}

use Taken::{Around, Many, One, Spread, Two};

// A stream of one window of one value, in slot 1.
const ONE_WINDOW: [Row; 2] = [
    (b'a', Create(DOUBLING), Ok((0, 0))),
    (b'a', Value(10, 5), Ok((1, 1))),
];

// A stream of two windows of one value, in slots 1 and 2. A third value joins them.
const TWO_WINDOWS: [Row; 3] = [
    (b'a', Create(DOUBLING), Ok((0, 0))),
    (b'a', Value(10, 5), Ok((1, 1))),
    (b'a', Value(20, -3), Ok((2, 2))),
];

// A stream of one window of two values, in slot 1, with a landmark between them.
const AROUND_A_LANDMARK: [Row; 6] = [
    (b'a', Create(IN_TWOS), Ok((0, 0))),
    (b'a', Value(10, 1), Ok((1, 1))),
    (b'a', Open(20), Ok((1, 1))),
    (b'a', Value(30, 100), Ok((1, 1))),
    (b'a', Close(40), Ok((1, 1))),
    (b'a', Value(50, 3), Ok((2, 1))),
];

// A stream of eight windows of two values, in slots 1 to 8. The windows end at 20, 40 and so on.
const MANY_WINDOWS: [Row; 17] = [
    (b'a', Create(IN_TWOS), Ok((0, 0))),
    (b'a', Value(10, 1), Ok((1, 1))),
    (b'a', Value(20, 1), Ok((2, 1))),
    (b'a', Value(30, 1), Ok((3, 2))),
    (b'a', Value(40, 1), Ok((4, 2))),
    (b'a', Value(50, 1), Ok((5, 3))),
    (b'a', Value(60, 1), Ok((6, 3))),
    (b'a', Value(70, 1), Ok((7, 4))),
    (b'a', Value(80, 1), Ok((8, 4))),
    (b'a', Value(90, 1), Ok((9, 5))),
    (b'a', Value(100, 1), Ok((10, 5))),
    (b'a', Value(110, 1), Ok((11, 6))),
    (b'a', Value(120, 1), Ok((12, 6))),
    (b'a', Value(130, 1), Ok((13, 7))),
    (b'a', Value(140, 1), Ok((14, 7))),
    (b'a', Value(150, 1), Ok((15, 8))),
    (b'a', Value(160, 1), Ok((16, 8))),
];

// The same, each window in a page of its own, in slots 3, 36, 69 and so on: after each, a landmark of another stream takes 32
// values.
fn spread(running: &mut Running) -> bool {
    let begun = [
        (b'a', Create(IN_TWOS), Ok((0, 0))),
        (b'y', Create(DOUBLING), Ok((0, 0))),
        (b'y', Open(1), Ok((0, 0))),
    ];
    if play(running, &begun) != 3 {
        return false;
    }
    for n in 0..8 {
        let first = 32 * n as u64 + 1;
        if play(running, &MANY_WINDOWS[2 * n + 1..2 * n + 3]) != 2
            || !fill(running, b'y', first, first + 32)
        {
            return false;
        }
    }
    true
}

/// Whether a store takes these.
pub fn take(running: &mut Running, taken: Taken) -> bool {
    match taken {
        One => play(running, &ONE_WINDOW) == 2,
        Two => play(running, &TWO_WINDOWS) == 3,
        Around => play(running, &AROUND_A_LANDMARK) == 6,
        Many => play(running, &MANY_WINDOWS) == 17,
        Spread => spread(running),
    }
}

const CHANGED_1: AskError = AskError::Changed { slot: 1 };

const CHANGED_2: AskError = AskError::Changed { slot: 2 };

const CHANGED_3: AskError = AskError::Changed { slot: 3 };

const STOPPED: AskError = AskError::Stopped;

const NO_MORE: ApplyError = ApplyError::Stopped;

// A query names the slot and stops the store.
const CLEARED: [Step; 44] = [
    Settled(One),
    Counts(Ok(1)),
    Settled(One),
    Clear(1),
    Counts(Err(CHANGED_1)),
    Counts(Err(STOPPED)),
    Reads(false, Err(STOPPED)),
    Apply(b'a', Value(30, 8), Err(NO_MORE)),
    Settled(Two),
    Counts(Ok(2)),
    Settled(Two),
    Clear(1),
    Counts(Err(CHANGED_1)),
    Counts(Err(STOPPED)),
    Reads(false, Err(STOPPED)),
    Apply(b'a', Value(30, 8), Err(NO_MORE)),
    Settled(Two),
    Counts(Ok(2)),
    Settled(Two),
    Clear(2),
    Counts(Err(CHANGED_2)),
    Counts(Err(STOPPED)),
    Reads(false, Err(STOPPED)),
    Apply(b'a', Value(30, 8), Err(NO_MORE)),
    // a reading names the slot of its window, and a join the slot that it reads
    Settled(Two),
    Clear(1),
    Reads(true, Ok((2, 2))),
    Reads(false, Err(CHANGED_1)),
    Reads(true, Err(STOPPED)),
    Settled(Two),
    Clear(2),
    Reads(false, Ok((1, 1))),
    Reads(true, Err(CHANGED_2)),
    Reads(false, Err(STOPPED)),
    Settled(Two),
    Clear(1),
    Apply(b'a', Value(30, 8), Err(ApplyError::Changed { slot: 1 })),
    Apply(b'a', Value(30, 8), Err(NO_MORE)),
    Counts(Err(STOPPED)),
    Settled(Two),
    Clear(2),
    Apply(b'a', Value(30, 8), Err(ApplyError::Changed { slot: 2 })),
    Apply(b'a', Value(30, 8), Err(NO_MORE)),
    Counts(Err(STOPPED)),
];

#[test]
fn a_free_slot_is_named_and_stops_the_store(rt: HostRuntime) -> Result<(), Fail> {
    pass(first_wrong(rt.alloc(), &CLEARED)?)
}

// A window has the times that are held of it.
const MOVED: [Step; 24] = [
    Settled(Around),
    EndAt(1, 50),
    Counts(Ok(3)),
    Settled(Around),
    EndAt(1, 19),
    Counts(Err(CHANGED_1)),
    Settled(Around),
    EndAt(1, 41),
    Counts(Err(CHANGED_1)),
    Settled(Around),
    EndAt(1, 51),
    Counts(Err(CHANGED_1)),
    Settled(Two),
    MoveTo(2, 20),
    Counts(Ok(2)),
    Settled(Two),
    MoveTo(2, 10),
    Counts(Err(CHANGED_2)),
    Settled(Two),
    MoveTo(2, 19),
    Counts(Err(CHANGED_2)),
    Settled(Two),
    MoveTo(2, 21),
    Counts(Err(CHANGED_2)),
];

#[test]
fn a_window_of_times_that_may_not_be_has_changed(rt: HostRuntime) -> Result<(), Fail> {
    pass(first_wrong(rt.alloc(), &MOVED)?)
}

// How many values a range has, by at most so many calls of the disk: one for each window that meets the range.
const RANGES: [(Question, Outcome, u64); 10] = [
    // the newest window, and a part of it
    ((b'a', Kind::Count, 150, 160), Count { lo: 2, hi: 2 }, 1),
    ((b'a', Kind::Count, 155, 160), Count { lo: 1, hi: 1 }, 1),
    // an old one, and the oldest
    ((b'a', Kind::Count, 30, 40), Count { lo: 2, hi: 2 }, 1),
    ((b'a', Kind::Count, 0, 20), Count { lo: 2, hi: 2 }, 1),
    // four windows, of which both ends split one
    ((b'a', Kind::Count, 35, 95), Count { lo: 6, hi: 6 }, 4),
    // between two windows, before the first and after the last
    ((b'a', Kind::Count, 41, 49), Count { lo: 0, hi: 0 }, 0),
    ((b'a', Kind::Count, 0, 9), Count { lo: 0, hi: 0 }, 0),
    (
        (b'a', Kind::Count, 161, u64::MAX),
        Count { lo: 0, hi: 0 },
        0,
    ),
    // inside one window, and all of them
    ((b'a', Kind::Count, 41, 59), Count { lo: 1, hi: 1 }, 1),
    (
        (b'a', Kind::Count, 0, u64::MAX),
        Count { lo: 16, hi: 16 },
        8,
    ),
];

const SPARING: [Step; 2] = [Settled(Spread), Within(&RANGES)];

#[test]
fn queries_read_only_windows_that_meet_the_range(rt: HostRuntime) -> Result<(), Fail> {
    pass(first_wrong(rt.alloc(), &SPARING)?)
}

const BESIDE_3: [(Question, Outcome); 4] = [
    ((b'a', Kind::Count, 30, 49), Count { lo: 2, hi: 2 }),
    ((b'a', Kind::Count, 61, 160), Count { lo: 10, hi: 10 }),
    ((b'a', Kind::Count, 0, 25), Count { lo: 2, hi: 2 }),
    ((b'a', Kind::Count, 41, 49), Count { lo: 0, hi: 0 }),
];

const UP_TO_3: [(Question, AskError); 1] = [((b'a', Kind::Count, 30, 50), CHANGED_3)];

const FROM_3: [(Question, AskError); 1] = [((b'a', Kind::Count, 60, 160), CHANGED_3)];

const IN_3: [(Question, AskError); 1] = [((b'a', Kind::Count, 51, 59), CHANGED_3)];

// A record of a window that lies wholly outside the range may change unnoticed.
const OUTSIDE: [Step; 12] = [
    Settled(Many),
    Clear(3),
    Tell(&BESIDE_3),
    Untold(&UP_TO_3),
    Settled(Many),
    Clear(3),
    Tell(&BESIDE_3),
    Untold(&FROM_3),
    Settled(Many),
    MoveTo(3, 60),
    Tell(&BESIDE_3),
    Untold(&IN_3),
];

#[test]
fn a_changed_record_is_noticed_by_queries_that_meet_its_window(
    rt: HostRuntime,
) -> Result<(), Fail> {
    pass(first_wrong(rt.alloc(), &OUTSIDE)?)
}
