// A line in use: what stands in it after each step, walked from its front, and that each call is one look. Then many steps
// in a row, each compared with those of a plain list.
ghost use Rattle.std.specs.Prelude.{◌≡◌, ◌+◌, ◌≤◌, ◌<◌, length, IfSome};
ghost use Rattle.ss_line.specs.Line.{StandsIn};
ghost use Rattle.ss_base.specs.Steps.{IsFresh};

use ss_base::Steps;
use ss_line::{At, Entry, Line};
use std::alloc::{AllocError, Global};
use std::marker::Brand;
use std::sync::ledger::{Blank, Ledger};

#[derive(Clone, Copy)]
enum Step {
    // An entry with this first position, at the end.
    Push(u64),
    // The one with this index gets this first position.
    Set(u32, u64),
    // The one with this index goes.
    Cut(u32),
}

fn window(first: u64) -> Entry {
    Entry {
        first,
        last: first,
        t_first: first,
        t_last: first,
        slot: 7,
    }
}

// The place with this index.
fn nth<L: Ledger>(line: &Line, index: u32, steps: &mut Steps<L>) -> Option<At>
    ensures { IfSome result (StandsIn line.now.entries) }
{
    let mut place = line.first();
    'walk: for _ in 0..index {
        match place {
            Some(at) => place = line.neighbours(at, steps).1,
            None => return None,
        }
    }
    place
}

fn take<L: Ledger>(line: &mut Line, step: Step, steps: &mut Steps<L>) {
    match step {
        Step::Push(first) => {
            if line.len() < line.places() {
                line.push(window(first), steps);
            }
        }
        Step::Set(index, first) => {
            if let Some(at) = nth(line, index, steps) {
                line.set(at, window(first), steps);
            }
        }
        Step::Cut(index) => {
            if let Some(at) = nth(line, index, steps) {
                line.cut_out(at, steps);
            }
        }
    }
}

// The number of each place and the first position of its entry, in order.
fn walk<L: Ledger>(
    alloc: Global,
    line: &Line,
    steps: &mut Steps<L>,
) -> Result<Vec<(u32, u64)>, AllocError> {
    let mut all = Vec::new(alloc);
    for index in 0..line.len() {
        if let Some(at) = nth(line, index, steps) {
            all.push((at.0, line.get(at, steps).first))?;
        }
    }
    Ok(all)
}

// A step, and what it leaves.
type Row = (Step, &'static [(u32, u64)]);

// A line with three places to spare.
const STEPS: [Row; 11] = [
    (Step::Push(10), &[(0, 10)]),
    (Step::Set(0, 11), &[(0, 11)]),
    (Step::Cut(0), &[]),
    (Step::Push(20), &[(0, 20)]),
    (Step::Push(30), &[(0, 20), (1, 30)]),
    (Step::Push(40), &[(0, 20), (1, 30), (2, 40)]),
    (Step::Cut(1), &[(0, 20), (2, 40)]),
    (Step::Cut(0), &[(2, 40)]),
    (Step::Push(50), &[(2, 40), (0, 50)]),
    (Step::Push(60), &[(2, 40), (0, 50), (1, 60)]),
    (Step::Set(1, 51), &[(2, 40), (0, 51), (1, 60)]),
];

// Whether a line has these entries, in order, and as many places as at first.
fn has<L: Ledger>(
    alloc: Global,
    line: &Line,
    left: &[(u32, u64)],
    steps: &mut Steps<L>,
) -> Result<bool, AllocError> {
    let found = walk(alloc, line, steps)?;
    Ok(found.as_slice() == left && line.places() == 3)
}

// Whether the last place of a line is that of the last of these entries.
fn ends_so(line: &Line, left: &[(u32, u64)]) -> bool {
    match (line.last(), left.last()) {
        (Some(at), Some(pair)) => at.0 == pair.0,
        (None, None) => true,
        _ => false,
    }
}

// Takes the step of a row. Whether this leaves what the row says.
fn leaves<L: Ledger>(
    alloc: Global,
    line: &mut Line,
    row: &Row,
    steps: &mut Steps<L>,
) -> Result<bool, AllocError> {
    take(line, row.0, steps);
    Ok(has(alloc, line, row.1, steps)? && ends_so(line, row.1))
}

// Whether each step leaves what its row says.
fn all_leave<L: Ledger>(alloc: Global, blank: Blank, rows: &[Row]) -> Result<bool, AllocError>
    requires { IsFresh L.name L.parts blank }
{
    let mut steps = Steps::<L>::new(blank);
    let mut line = Line::new(alloc);
    line.reserve(3)?;
    for row in rows {
        if !leaves(alloc, &mut line, row, &mut steps)? {
            return Ok(false);
        }
    }
    Ok(true)
}

#[test]
fn places_are_used_again_in_another_order(rt: HostRuntime) -> Result<(), AllocError> {
    assert!(rt; all_leave::<Brand>(rt.alloc(), Blank::new(1), &STEPS)?);
    Ok(())
}

// How many entries the line of many steps has at most.
const MOST_ENTRIES: u32 = 200;

// The next of a fixed sequence of numbers.
fn number_after(number: u32) -> u32 {
    number.wrapping_mul(1_664_525).wrapping_add(1_013_904_223)
}

// The step that a number stands for, over so many entries: a push in half of the cases, a cut and a set in a fourth each. In
// an empty line it is a push, and in a full one a cut takes the place of a push.
fn step_of(number: u32, len: u32) -> Step {
    let first = u64::from(number);
    if len == 0 {
        return Step::Push(first);
    }
    let index = (number >> 8) % len;
    match number >> 30 {
        0 => Step::Set(index, first),
        1 => Step::Cut(index),
        _ if len < MOST_ENTRIES => Step::Push(first),
        _ => Step::Cut(index),
    }
}

// Takes a step of a plain list, in which an entry that is put last has this place.
fn take_plain(plain: &mut Vec<(u32, u64)>, step: Step, last: Option<At>) -> Result<(), AllocError> {
    match step {
        Step::Push(first) => {
            if let Some(at) = last {
                plain.push((at.0, first))?;
            }
        }
        Step::Set(index, first) => {
            if let Some(pair) = plain.get_mut(index as usize) {
                pair.1 = first;
            }
        }
        Step::Cut(index) => {
            if (index as usize) < plain.len() {
                plain.remove(index as usize);
            }
        }
    }
    Ok(())
}

// Whether a line has these entries from its front on, and no more.
fn goes_on<L: Ledger>(line: &Line, plain: &[(u32, u64)], steps: &mut Steps<L>) -> bool {
    let mut place = line.first();
    'forth: for pair in plain {
        match place {
            Some(at) => {
                if at.0 != pair.0 || line.get(at, steps).first != pair.1 {
                    return false;
                }
                place = line.neighbours(at, steps).1;
            }
            None => return false,
        }
    }
    place.is_none()
}

// Whether a line has these places from its end back, and no more.
fn goes_back<L: Ledger>(line: &Line, plain: &[(u32, u64)], steps: &mut Steps<L>) -> bool {
    let mut place = line.last();
    'back: for pair in plain.iter().rev() {
        match place {
            Some(at) => {
                if at.0 != pair.0 {
                    return false;
                }
                place = line.neighbours(at, steps).0;
            }
            None => return false,
        }
    }
    place.is_none()
}

// Takes a step of a line and of a plain list, with room for a push. Whether the line has the entries of the list then.
fn keeps_up<L: Ledger>(
    line: &mut Line,
    plain: &mut Vec<(u32, u64)>,
    number: u32,
    steps: &mut Steps<L>,
) -> Result<bool, AllocError> {
    if line.len() < MOST_ENTRIES {
        line.reserve(1)?;
    }
    let step = step_of(number, line.len());
    take(line, step, steps);
    take_plain(plain, step, line.last())?;
    Ok(goes_on(line, plain, steps) && goes_back(line, plain, steps))
}

// Takes so many steps. Whether the line keeps up with the list, gets full, and has no more places than entries at most.
fn all_keep_up<L: Ledger>(alloc: Global, blank: Blank, times: u32) -> Result<bool, AllocError>
    requires { IsFresh L.name L.parts blank }
{
    let mut steps = Steps::<L>::new(blank);
    let mut line = Line::new(alloc);
    let mut plain = Vec::new(alloc);
    let mut number = 1;
    let mut greatest = 0;
    for _ in 0..times {
        number = number_after(number);
        if !keeps_up(&mut line, &mut plain, number, &mut steps)? {
            return Ok(false);
        }
        greatest = greatest.max(line.len());
    }
    Ok(greatest == MOST_ENTRIES && line.places() == MOST_ENTRIES)
}

#[test]
fn a_line_keeps_up_with_a_plain_list(rt: HostRuntime) -> Result<(), AllocError> {
    assert!(rt; all_keep_up::<Brand>(rt.alloc(), Blank::new(1), 1500)?);
    Ok(())
}
