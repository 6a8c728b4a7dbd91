// The windows of a stream by their times in use: what is found after each step, at each edge.
ghost use Rattle.std.specs.Prelude.{◌≤◌, All, IfOk};

use ss_line::At;
use ss_schedule::Times;
use std::alloc::{AllocError, Global};

#[derive(Clone, Copy)]
enum Step {
    // A window that begins at this time, last, at this place.
    Push(u64, u32),
    // The window that begins at this time gets this place.
    Put(u64, u32),
    // The window that begins at this time goes, as one that is joined to the one before it.
    Cut(u64),
}

// Notes a window that begins after the last time, and gives the last time then. One that doesn't is left out.
fn push(times: &mut Times, last: u64, t: u64, at: u32) -> Result<u64, AllocError>
    requires { All (λ e. e.0 ≤ last) times.old }
    ensures { IfOk result (λ last. All (λ e. e.0 ≤ last) times.new) }
{
    if t <= last {
        return Ok(last);
    }
    times.reserve(t)?;
    put(times, t, t, at);
    Ok(t)
}

fn put(times: &mut Times, last: u64, t: u64, at: u32)
    requires { All (λ e. e.0 ≤ last) times.old }
    ensures { All (λ e. e.0 ≤ last) times.new }
{
    times.put(t, At(at));
}

fn cut(times: &mut Times, last: u64, t: u64)
    requires { All (λ e. e.0 ≤ last) times.old }
    ensures { All (λ e. e.0 ≤ last) times.new }
{
    times.cut_out(t);
}

// Takes a step, where no window begins after `last`, and gives the last time then.
fn take(times: &mut Times, last: u64, step: Step) -> Result<u64, AllocError>
    requires { All (λ e. e.0 ≤ last) times.old }
    ensures { IfOk result (λ last. All (λ e. e.0 ≤ last) times.new) }
{
    match step {
        Step::Push(t, at) => return push(times, last, t, at),
        Step::Put(t, at) => put(times, last, t, at),
        Step::Cut(t) => cut(times, last, t),
    }
    Ok(last)
}

// A step, and the windows that it leaves, with their times and places.
type Row = (Step, &'static [(u64, u32)]);

const STEPS: [Row; 12] = [
    (Step::Put(5, 1), &[]),
    (Step::Cut(5), &[]),
    (Step::Push(10, 3), &[(10, 3)]),
    (Step::Push(11, 0), &[(10, 3), (11, 0)]),
    (Step::Push(30, 7), &[(10, 3), (11, 0), (30, 7)]),
    (Step::Put(11, 5), &[(10, 3), (11, 5), (30, 7)]),
    (Step::Put(12, 9), &[(10, 3), (11, 5), (30, 7)]),
    (Step::Cut(11), &[(10, 3), (30, 7)]),
    (Step::Cut(11), &[(10, 3), (30, 7)]),
    (Step::Push(u64::MAX, 1), &[(10, 3), (30, 7), (u64::MAX, 1)]),
    (Step::Cut(10), &[(30, 7), (u64::MAX, 1)]),
    (Step::Cut(u64::MAX), &[(30, 7)]),
];

// Whether these windows are found, each from its time on until the next one begins, and none before them.
fn has(times: &Times, windows: &[(u64, u32)]) -> bool {
    let mut found = None;
    for (t, at) in windows {
        if *t > 0 && times.seek(*t - 1) != found {
            return false;
        }
        found = Some(At(*at));
        if times.seek(*t) != found {
            return false;
        }
    }
    times.seek(u64::MAX) == found
}

// Whether each step leaves what its row says.
fn all_leave(alloc: Global, rows: &[Row]) -> Result<bool, AllocError> {
    let mut times = Times::new(alloc);
    let mut last = 0;
    for row in rows {
        last = take(&mut times, last, row.0)?;
        if !has(&times, row.1) {
            return Ok(false);
        }
    }
    Ok(true)
}

#[test]
fn a_window_is_found_by_its_times(rt: HostRuntime) -> Result<(), AllocError> {
    assert!(rt; all_leave(rt.alloc(), &STEPS)?);
    Ok(())
}
