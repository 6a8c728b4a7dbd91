// Lines in use with a schedule of their merges, beside the plain rule: as long as some two neighbours lie together in one
// target window, and in one step of the clock, join them.
ghost use Rattle.std.specs.Prelude.{◌≡◌, ◌+◌, ◌≤◌, ◌<◌, ◌∷◌, ◌++◌, [], ℕ, true, length, take, IfOk, IfSome, IfNone};
ghost use Rattle.ss_line.specs.Line.{StandsIn, index_of};
ghost use Rattle.ss_line.specs.declared.entry.At.{At};
ghost use Rattle.ss_line.specs.declared.entry.Entry.{Entry};
ghost use Rattle.ss_schedule.specs.Keyed.{FollowUpTo, IsKeyed, merge_rule};
ghost use Rattle.ss_schedule.specs.Pairs.{NoPairFits};
ghost use Rattle.ss_base.specs.Steps.{IsFresh};

use super::target::are_positions;
use ss_base::{MOST_VALUES, Steps};
use ss_catalog::{Family, Params};
use ss_line::{At, Entry, Line, MOST_PLACES};
use ss_schedule::{Schedule, keyed_at_the_next_count, the_last_one_pushed};
use ss_targets::Target;
use std::alloc::{AllocError, Global};
use std::marker::Brand;
use std::sync::ledger::{Blank, Ledger};

// The position after the last one of a line.
fn next_first<L: Ledger>(line: &Line, steps: &mut Steps<L>) -> Option<u64>
    ensures { IfSome result (λ first. (n : ℕ) (new : At × Entry) → FollowUpTo n line.now.entries → new.1.first ≡ first
        → first ≤ new.1.last → new.1.last ≤ n → FollowUpTo n (line.now.entries ++ new ∷ [])) }
{
    // Asked for the proof alone, here and below: with its length comes what holds of each line.
    let _len = line.len();
    let Some(at) = line.last() else {
        return Some(1);
    };
    line.get(at, steps).last.checked_add(1)
}

// The time of the value at a position.
fn time_of(position: u64) -> u64 {
    position.wrapping_mul(10)
}

// Puts a window of that many values at the end of a line, and makes room for it. None if they don't end at or below n.
fn put_last<L: Ledger>(
    line: &mut Line,
    schedule: &mut Schedule,
    len: u64,
    n: u64,
    steps: &mut Steps<L>,
) -> Result<Option<At>, AllocError>
    requires { IsKeyed n line.old.entries schedule.old }
    ensures kept { IfOk result (λ put. IfNone put (IsKeyed n line.new.entries schedule.new)) }
    ensures stands { IfOk result (λ put. IfSome put (StandsIn line.new.entries)) }
    ensures last { IfOk result (λ put. IfSome put (λ at. index_of line.new.entries at + 1 ≡ length line.new.entries)) }
    ensures room { IfOk result (λ put. IfSome put (λ at. at.0 < length schedule.new.keys)) }
    ensures keyed { IfOk result (λ put. IfSome put (λ at.
        IsKeyed n (take (index_of line.new.entries at) line.new.entries) schedule.new)) }
    ensures follow { IfOk result (λ put. IfSome put (λ _. FollowUpTo n line.new.entries)) }
{
    if line.len() == MOST_PLACES {
        return Ok(None);
    }
    line.reserve(1)?;
    schedule.reserve(line.places())?;
    let Some(first) = next_first(line, steps) else {
        return Ok(None);
    };
    if len == 0 || first > n || n - first < len - 1 {
        return Ok(None);
    }
    let last = first + (len - 1);
    let entry = Entry {
        first,
        last,
        t_first: time_of(first),
        t_last: time_of(last),
        slot: 7,
    };
    the_last_one_pushed();
    Ok(Some(line.push(entry, steps)))
}

// The same, and takes it up. Whether it did.
fn push<L: Ledger>(
    line: &mut Line,
    schedule: &mut Schedule,
    len: u64,
    n: u64,
    steps: &mut Steps<L>,
) -> Result<bool, AllocError>
    requires { IsKeyed n line.old.entries schedule.old }
    ensures { IfOk result (λ _. IsKeyed n line.new.entries schedule.new) }
{
    let Some(at) = put_last(line, schedule, len, n, steps)? else {
        return Ok(false);
    };
    schedule.add_window(line, at, n, steps);
    Ok(true)
}

// Joins the pairs that are due when n values are held, until none is.
fn merge_due<L: Ledger>(schedule: &mut Schedule, line: &mut Line, n: u64, steps: &mut Steps<L>)
    requires { IsKeyed n line.old.entries schedule.old }
    ensures keyed { IsKeyed n line.new.entries schedule.new }
    ensures none { NoPairFits (merge_rule schedule.new) n line.new.entries }
{
    let _len = line.len();
    while let Some(pair) = schedule.due(line, n, steps) {
        schedule.merged(line, pair, n, steps);
    }
}

// Puts one value more into a line of which no pair is due after n, and joins the pairs that are due then. Whether it did.
fn append<L: Ledger>(
    line: &mut Line,
    schedule: &mut Schedule,
    n: u64,
    steps: &mut Steps<L>,
) -> Result<bool, AllocError>
    requires few { n < MOST_VALUES }
    requires keyed { IsKeyed n line.old.entries schedule.old }
    requires none { NoPairFits (merge_rule schedule.old) n line.old.entries }
    ensures keyed { IfOk result (λ did. did ≡ true → IsKeyed (n + 1) line.new.entries schedule.new) }
    ensures none { IfOk result (λ did. did ≡ true → NoPairFits (merge_rule schedule.new) (n + 1) line.new.entries) }
{
    keyed_at_the_next_count();
    let Some(at) = put_last(line, schedule, 1, n + 1, steps)? else {
        return Ok(false);
    };
    schedule.add_window(line, at, n + 1, steps);
    merge_due(schedule, line, n + 1, steps);
    Ok(true)
}

// The index of the right one of the first two windows that lie together in one target window after n values, and in one step.
fn first_due(target: Target, windows: &[(u64, u64)], n: u64) -> Option<usize>
    ensures { IfSome result (λ k. (1 ≤ k) × (k < length windows.now)) }
{
    for k in 1..windows.len() {
        let first = windows[k - 1].0;
        let last = windows[k].1;
        let together = target.in_step(time_of(first), time_of(last));
        if together && are_positions(first, last, n) && target.fits(first, last, n) {
            return Some(k);
        }
    }
    None
}

// Joins windows by the plain rule.
fn close(target: Target, windows: &mut Vec<(u64, u64)>, n: u64) {
    while let Some(k) = first_due(target, windows, n) {
        windows[k - 1].1 = windows[k].1;
        windows.remove(k);
    }
}

// Whether an entry has these positions, and their times.
fn spans(entry: Entry, window: (u64, u64)) -> bool {
    let positions = entry.first == window.0 && entry.last == window.1;
    positions && entry.t_first == time_of(window.0) && entry.t_last == time_of(window.1)
}

// Whether a line has these windows, in order, and no others.
fn has<L: Ledger>(line: &Line, windows: &[(u64, u64)], steps: &mut Steps<L>) -> bool {
    let mut place = line.first();
    for window in windows {
        let Some(at) = place else {
            return false;
        };
        if !spans(line.get(at, steps), *window) {
            return false;
        }
        place = line.neighbours(at, steps).1;
    }
    place.is_none()
}

// Puts windows into an empty line.
fn load<L: Ledger>(
    line: &mut Line,
    schedule: &mut Schedule,
    windows: &[(u64, u64)],
    n: u64,
    steps: &mut Steps<L>,
) -> Result<bool, AllocError>
    requires { IsKeyed n line.old.entries schedule.old }
    ensures { IfOk result (λ _. IsKeyed n line.new.entries schedule.new) }
{
    for window in windows {
        let len = window.1.wrapping_sub(window.0).wrapping_add(1);
        if !push(line, schedule, len, n, steps)? {
            return Ok(false);
        }
    }
    Ok(true)
}

// Puts windows into an empty line, and then values one by one. Whether it has the windows of the plain rule each time.
fn agree<L: Ledger>(
    target: Target,
    line: &mut Line,
    schedule: &mut Schedule,
    windows: &mut Vec<(u64, u64)>,
    n: u64,
    steps: &mut Steps<L>,
) -> Result<bool, AllocError>
    requires few { n ≤ MOST_VALUES }
    requires keyed { IsKeyed n line.old.entries schedule.old }
{
    if !load(line, schedule, windows, n, steps)? {
        return Ok(false);
    }
    merge_due(schedule, line, n, steps);
    close(target, windows, n);
    if !has(line, windows, steps) {
        return Ok(false);
    }
    for count in n..(n + 300).min(MOST_VALUES) {
        if !append(line, schedule, count, steps)? {
            return Ok(false);
        }
        windows.push((count + 1, count + 1))?;
        close(target, windows, count + 1);
        if !has(line, windows, steps) {
            return Ok(false);
        }
    }
    Ok(true)
}

// That many windows, each of 1 to 9 values.
fn made(alloc: Global, count: u32) -> Result<Vec<(u64, u64)>, AllocError> {
    let mut windows = Vec::new(alloc);
    let mut last: u64 = 0;
    let mut random: u64 = 7;
    for _ in 0..count {
        random = random
            .wrapping_mul(6364136223846793005)
            .wrapping_add(1442695040888963407);
        let first = last.wrapping_add(1);
        last = last.wrapping_add(1 + (random >> 40) % 9);
        windows.push((first, last))?;
    }
    Ok(windows)
}

fn agrees<L: Ledger>(alloc: Global, blank: Blank, row: &Row) -> Result<bool, AllocError>
    requires { IsFresh L.name L.parts blank }
{
    let mut steps = Steps::<L>::new(blank);
    let (family, within, count) = *row;
    let Ok(target) = Target::of(Params { family, within }) else {
        return Ok(false);
    };
    let mut windows = made(alloc, count)?;
    let n = windows.last().map_or(0, |window| window.1).min(MOST_VALUES);
    let mut line = Line::new(alloc);
    let mut schedule = Schedule::new(alloc, target);
    agree(
        target,
        &mut line,
        &mut schedule,
        &mut windows,
        n,
        &mut steps,
    )
}

// The windows of a target, the step of the clock that they keep to, and how many windows are made up before the values come.
type Row = (Family, Option<u32>, u32);

const DOUBLING: Family = Family::Exp { b: 2, r: 1, s: 1 };

// Those without a step that begin with windows keep more than 64 of them, so the heap has seven levels and more. Values come every ten
// units of time, so within 10 none are merged, within 25 two or three at most, and within 1000 a hundred.
const ROWS: [Row; 12] = [
    (DOUBLING, None, 0),
    (Family::Exp { b: 3, r: 2, s: 1 }, None, 0),
    (
        Family::Power {
            p: 1,
            q: 1,
            r: 1,
            s: 1,
        },
        None,
        0,
    ),
    (
        Family::Power {
            p: 1,
            q: 0,
            r: 1,
            s: 2,
        },
        None,
        0,
    ),
    (DOUBLING, None, 100),
    (Family::Exp { b: 2, r: 40, s: 2 }, None, 100),
    (
        Family::Power {
            p: 2,
            q: 1,
            r: 3,
            s: 1,
        },
        None,
        100,
    ),
    (
        Family::Power {
            p: 4,
            q: 3,
            r: 1,
            s: 2,
        },
        None,
        200,
    ),
    (DOUBLING, Some(10), 0),
    (DOUBLING, Some(25), 0),
    (DOUBLING, Some(1000), 100),
    (
        Family::Power {
            p: 1,
            q: 0,
            r: 1,
            s: 4,
        },
        Some(60),
        100,
    ),
];

#[test]
fn merges_are_those_of_the_plain_rule(rt: HostRuntime) -> Result<(), AllocError> {
    for (k, row) in ROWS.iter().enumerate() {
        assert!(rt; agrees::<Brand>(rt.alloc(), Blank::new(1), row)?, "row {k}");
    }
    Ok(())
}
