// What the records of small images carry.
ghost use Rattle.ss_base.specs.Steps.{IsFresh};

use crate::images::Slot::{self, Dropped, Filtered, Free, Landmark, Stream, Value, Window};
use crate::images::{FORMATTED, image};
use crate::passing::pass;
use ss_base::Steps;
use ss_journal::{Journal, JournalError};
use ss_landmarks::Landmarks;
use ss_line::{Entry, Line};
use ss_parts::StreamParts;
use ss_recover::{Parts, RecoverError, rebuild};
use std::alloc::Global;
use std::marker::Brand;
use std::sync::ledger::{Blank, Ledger};
use std::test::Fail;

// The landmarks of a stream: how many there are, how many values they have, when the open one opened, the slot of its record
// and how many values it has, and how many of the times up to 100 are free.
type Marks = (u32, u32, Option<(u64, u32, u32)>, u64);

const NO_MARKS: Marks = (0, 0, None, 101);

// A window as it is held: the positions and the times of its first and its last value, and its slot.
type HeldWindow = (u64, u64, u64, u64, u32);

// A stream as it is read: its number, the slot of its record, its last time, its windows and its landmarks.
type Read = (u32, u32, Option<u64>, &'static [HeldWindow], Marks);

// Whether the entries of a line are these.
fn has_entries<L: Ledger>(line: &Line, want: &[HeldWindow], blank: Blank) -> bool
    requires { IsFresh L.name L.parts blank }
{
    let mut steps = Steps::<L>::new(blank);
    let mut place = line.first();
    for (first, last, t_first, t_last, slot) in want {
        let at = match place {
            Some(at) => at,
            None => return false,
        };
        let entry = Entry {
            first: *first,
            last: *last,
            t_first: *t_first,
            t_last: *t_last,
            slot: *slot,
        };
        if line.get(at, &mut steps) != entry {
            return false;
        }
        place = line.neighbours(at, &mut steps).1;
    }
    place.is_none()
}

fn has_marks<L: Ledger>(landmarks: &Landmarks, want: Marks, blank: Blank) -> bool
    requires { IsFresh L.name L.parts blank }
{
    landmarks.count() == want.0
        && landmarks.values() == want.1
        && landmarks.opened() == want.2
        && landmarks.free(0, 100, &mut Steps::<L>::new(blank)) == want.3
}

fn is_read(part: &StreamParts, want: &Read) -> bool {
    part.id.0 == want.0
        && part.slot == want.1
        && part.last_time == want.2
        && has_entries::<Brand>(&part.line, want.3, Blank::new(1))
        && has_marks::<Brand>(&part.landmarks, want.4, Blank::new(1))
}

fn are_read(parts: &Parts, want: &[Read]) -> bool {
    for (place, row) in want.iter().enumerate() {
        match parts.streams.get(place) {
            Some(part) if is_read(part, row) => {}
            _ => return false,
        }
    }
    parts.streams.len() == want.len()
}

fn rebuilt(alloc: Global, slots: &[Slot]) -> Result<Result<Parts, RecoverError>, JournalError> {
    let mut disk = image(alloc, FORMATTED, slots)?;
    let journal = Journal::open(alloc, &mut disk)?;
    match rebuild(alloc, journal, &mut disk) {
        Ok(read) => {
            let (_records, parts) = read;
            Ok(Ok(parts))
        }
        Err(error) => Ok(Err(error)),
    }
}

// Whether an image is read as this.
fn is_rebuilt(alloc: Global, slots: &[Slot], want: &[Read]) -> Result<bool, JournalError> {
    match rebuilt(alloc, slots)? {
        Ok(parts) => Ok(are_read(&parts, want)),
        Err(_) => Ok(false),
    }
}

// The first image that is read as something else.
fn unread(alloc: Global, rows: &[(&[Slot], &[Read])]) -> Result<Option<usize>, JournalError> {
    for (row, (slots, want)) in rows.iter().enumerate() {
        if !is_rebuilt(alloc, slots, want)? {
            return Ok(Some(row));
        }
    }
    Ok(None)
}

const WHOLE: [(&[Slot], &[Read]); 11] = [
    (&[Free], &[]),
    (
        &[
            Stream(0, b'a'),
            Window(0, 1, 4, 10, 40),
            Free,
            Free,
            Window(0, 5, 2, 50, 60),
            Window(0, 7, 1, 70, 70),
        ],
        &[(
            0,
            0,
            Some(70),
            &[(1, 4, 10, 40, 1), (5, 6, 50, 60, 4), (7, 7, 70, 70, 5)],
            NO_MARKS,
        )],
    ),
    // the records stand in any order, and numbers may be left out
    (
        &[
            Window(7, 3, 1, 9, 9),
            Stream(9, b'b'),
            Window(9, 1, 1, 5, 5),
            Window(7, 1, 2, 2, 8),
            Stream(7, b'c'),
            Stream(2, b'd'),
        ],
        &[
            (2, 5, None, &[], NO_MARKS),
            (7, 4, Some(9), &[(1, 2, 2, 8, 3), (3, 3, 9, 9, 0)], NO_MARKS),
            (9, 1, Some(5), &[(1, 1, 5, 5, 2)], NO_MARKS),
        ],
    ),
    // windows whose filters have all bits beside ones with the filters of their values
    (
        &[
            Stream(0, b'a'),
            Window(0, 1, 4, 10, 40),
            Filtered(0, 5, 2, 50, 60),
            Filtered(1, 1, 1, 5, 5),
            Stream(1, b'b'),
            Window(1, 2, 1, 6, 6),
        ],
        &[
            (
                0,
                0,
                Some(60),
                &[(1, 4, 10, 40, 1), (5, 6, 50, 60, 2)],
                NO_MARKS,
            ),
            (1, 4, Some(6), &[(1, 1, 5, 5, 3), (2, 2, 6, 6, 5)], NO_MARKS),
        ],
    ),
    // two windows that wait for a merge
    (
        &[
            Stream(0, b'a'),
            Window(0, 1, 1, 1, 1),
            Window(0, 2, 1, 2, 2),
            Window(0, 3, 1, 3, 3),
        ],
        &[(
            0,
            0,
            Some(3),
            &[(1, 1, 1, 1, 1), (2, 2, 2, 2, 2), (3, 3, 3, 3, 3)],
            NO_MARKS,
        )],
    ),
    // a landmark with two values and one that is open, in any order, and windows before and between them
    (
        &[
            Window(0, 3, 1, 30, 30),
            Value(0, 1, 2, 20, -5),
            Landmark(0, 2, 0, 40, None),
            Stream(0, b'a'),
            Window(0, 2, 1, 25, 25),
            Landmark(0, 1, 2, 10, Some(20)),
            Value(0, 1, 1, 10, 7),
            Window(0, 1, 1, 5, 5),
        ],
        &[(
            0,
            3,
            Some(40),
            &[(1, 1, 5, 5, 7), (2, 2, 25, 25, 4), (3, 3, 30, 30, 0)],
            (2, 2, Some((40, 2, 0)), 29),
        )],
    ),
    // a landmark alone
    (
        &[Landmark(0, 1, 0, 10, Some(12)), Stream(0, b'a')],
        &[(0, 1, Some(12), &[], (1, 0, None, 98))],
    ),
    // one that is open and has values
    (
        &[
            Value(7, 1, 2, 11, 1),
            Landmark(7, 1, 0, 10, None),
            Stream(7, b'a'),
            Value(7, 1, 1, 10, 1),
        ],
        &[(7, 2, Some(11), &[], (1, 2, Some((10, 1, 2)), 10))],
    ),
    // windows before and after landmarks, the first with one inside, in which it has as many values as there are free times
    (
        &[
            Window(0, 5, 1, 40, 40),
            Window(0, 1, 4, 8, 22),
            Landmark(0, 2, 0, 30, Some(30)),
            Landmark(0, 1, 1, 10, Some(20)),
            Value(0, 1, 1, 15, 3),
            Stream(0, b'a'),
        ],
        &[(
            0,
            5,
            Some(40),
            &[(1, 4, 8, 22, 1), (5, 5, 40, 40, 0)],
            (2, 1, None, 89),
        )],
    ),
    // more than nine landmarks, and of one more than nine values
    (
        &[
            Landmark(0, 10, 11, 50, Some(60)),
            Landmark(0, 9, 0, 9, Some(9)),
            Landmark(0, 8, 0, 8, Some(8)),
            Landmark(0, 7, 0, 7, Some(7)),
            Landmark(0, 6, 0, 6, Some(6)),
            Landmark(0, 5, 0, 5, Some(5)),
            Landmark(0, 4, 0, 4, Some(4)),
            Landmark(0, 3, 0, 3, Some(3)),
            Landmark(0, 2, 0, 2, Some(2)),
            Landmark(0, 1, 0, 1, Some(1)),
            Value(0, 10, 11, 60, 0),
            Value(0, 10, 10, 59, 0),
            Value(0, 10, 9, 58, 0),
            Value(0, 10, 8, 57, 0),
            Value(0, 10, 7, 56, 0),
            Value(0, 10, 6, 55, 0),
            Value(0, 10, 5, 54, 0),
            Value(0, 10, 4, 53, 0),
            Value(0, 10, 3, 52, 0),
            Value(0, 10, 2, 51, 0),
            Value(0, 10, 1, 50, 0),
            Stream(0, b'a'),
        ],
        &[(0, 21, Some(60), &[], (10, 11, None, 81))],
    ),
    // the landmarks of two streams
    (
        &[
            Landmark(4, 1, 1, 5, Some(6)),
            Landmark(3, 1, 1, 5, Some(7)),
            Value(3, 1, 1, 7, 1),
            Value(4, 1, 1, 6, 1),
            Stream(3, b'a'),
            Stream(4, b'b'),
            Window(3, 1, 1, 8, 8),
            Window(4, 1, 1, 4, 4),
        ],
        &[
            (3, 4, Some(8), &[(1, 1, 8, 8, 6)], (1, 1, None, 98)),
            (4, 5, Some(6), &[(1, 1, 4, 4, 7)], (1, 1, None, 99)),
        ],
    ),
];

#[test]
fn whole_images_are_read(rt: HostRuntime) -> Result<(), Fail> {
    pass(unread(rt.alloc(), &WHOLE)?)
}

// Whether of an image these slots are to be cleared, and this many streams stand.
fn is_doomed(
    alloc: Global,
    slots: &[Slot],
    doomed: &[u32],
    standing: usize,
) -> Result<bool, JournalError> {
    match rebuilt(alloc, slots)? {
        Ok(parts) => Ok(parts.doomed.as_slice() == doomed && parts.streams.len() == standing),
        Err(_) => Ok(false),
    }
}

// Images, which of their slots are to be cleared, in which order, and how many streams stand.
const DOOMED: [(&[Slot], &[u32], usize); 4] = [
    (&[Free, Stream(0, b'a'), Window(0, 1, 1, 1, 1)], &[], 1),
    (&[Dropped(0, b'a')], &[0], 0),
    // records of a dropped stream need not fit together
    (
        &[
            Dropped(2, b'b'),
            Window(2, 7, 1, 1, 1),
            Stream(3, b'a'),
            Landmark(2, 9, 0, 1, None),
            Window(3, 1, 1, 1, 1),
            Value(2, 1, 1, 1, 1),
        ],
        &[1, 3, 5, 0],
        1,
    ),
    // the records of streams come last
    (
        &[
            Dropped(5, b'b'),
            Window(5, 1, 1, 1, 1),
            Dropped(1, b'c'),
            Window(1, 1, 1, 1, 1),
        ],
        &[1, 3, 0, 2],
        0,
    ),
];

fn undoomed(
    alloc: Global,
    rows: &[(&[Slot], &[u32], usize)],
) -> Result<Option<usize>, JournalError> {
    for (row, (slots, doomed, standing)) in rows.iter().enumerate() {
        if !is_doomed(alloc, slots, doomed, *standing)? {
            return Ok(Some(row));
        }
    }
    Ok(None)
}

#[test]
fn records_of_dropped_streams_are_to_be_cleared(rt: HostRuntime) -> Result<(), Fail> {
    pass(undoomed(rt.alloc(), &DOOMED)?)
}
