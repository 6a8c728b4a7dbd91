// Landmarks of ten values each.
ghost use Rattle.std.specs.Prelude.{◌<◌, ◌≤◌, IfOk};
ghost use Rattle.ss_landmarks.specs.Order.{AllEndBy};
ghost use Rattle.ss_base.specs.Steps.{IsFresh};

use crate::timing::{micros_since, now};
use ss_base::{LAST_TIME, Steps};
use ss_landmarks::{Landmarks, MOST_LANDMARK_SLOTS, Tally, last_times_rise, times_may_follow};
use std::alloc::{AllocError, Global};
use std::marker::Brand;
use std::rt::Clock;
use std::sync::ledger::{Blank, Ledger};

/// The most values.
pub const MOST_VALUES: u32 = 10_000_000;

// How many values a landmark has.
const EACH: u32 = 10;

// How many times go from one opening to the next: the opening, a time for each value, and the closing.
const SPAN: u64 = 12;

// How many times each call is made.
const CALLS: u32 = 1_000_000;

// How often the values of all times are added up.
const WALKS: u32 = 10;

/// The microseconds that each of them takes.
#[derive(Clone, Copy)]
pub struct Times {
    pub change: f64,
    pub free: f64,
    /// `values_in` over a range with ten values.
    pub range: f64,
    /// A value of a `values_in` over all.
    pub value: f64,
}

#[derive(Clone, Copy)]
enum Change {
    Open,
    Add(i64),
    Close,
}

// Makes a change at the time after the last one, if there is a place for it, and gives that time.
fn take(landmarks: &mut Landmarks, last: u64, change: Change) -> Result<u64, AllocError>
    requires ends { AllEndBy last landmarks.old.landmarks }
    requires early { last ≤ LAST_TIME }
    ensures ends { IfOk result (λ last. AllEndBy last landmarks.new.landmarks) }
    ensures early { IfOk result (λ last. last ≤ LAST_TIME) }
{
    times_may_follow();
    last_times_rise();
    if landmarks.count() >= MOST_LANDMARK_SLOTS
        || landmarks.values() >= MOST_LANDMARK_SLOTS
        || last >= LAST_TIME
    {
        return Ok(last);
    }
    landmarks.reserve()?;
    let t = last + 1;
    match (change, landmarks.opened()) {
        (Change::Open, None) => {
            landmarks.start(t, 1);
            return Ok(t);
        }
        (Change::Add(v), Some(_)) => {
            landmarks.add(t, v, 1);
            return Ok(t);
        }
        (Change::Close, Some(_)) => {
            landmarks.finish(t);
            return Ok(t);
        }
        _ => {}
    }
    Ok(last)
}

/// So many values at rising times from 1 on, ten in a landmark. Between two landmarks no time is free.
pub fn landmarks_with(alloc: Global, values: u32) -> Result<Landmarks, AllocError> {
    let mut landmarks = Landmarks::new(alloc);
    let mut last = 0;
    for k in 0..values {
        if k % EACH == 0 {
            last = take(&mut landmarks, last, Change::Open)?;
        }
        last = take(&mut landmarks, last, Change::Add(i64::from(k % 1000)))?;
        if k % EACH == EACH - 1 {
            last = take(&mut landmarks, last, Change::Close)?;
        }
    }
    Ok(landmarks)
}

// The first time of the range that a call asks for: as good as any in any order.
fn from_of(call: u32, times: u64) -> u64
    requires { 0 < times }
    ensures { result < times }
{
    u64::from(call).wrapping_mul(7919) % times
}

// The free times of so many ranges, added up.
fn sum_of_free<L: Ledger>(landmarks: &Landmarks, times: u64, blank: Blank) -> u64
    requires fresh { IsFresh L.name L.parts blank }
    requires some { 0 < times }
    requires early { times ≤ LAST_TIME }
{
    let mut searches = Steps::<L>::new(blank);
    let mut sum = 0u64;
    for call in 0..CALLS {
        sum = sum.wrapping_add(landmarks.free(from_of(call, times), times, &mut searches));
    }
    sum
}

// The figures of a tally in one number, so that each is wanted.
fn mixed(tally: &Tally) -> i128 {
    let least = i128::from(tally.least.unwrap_or(0));
    let greatest = i128::from(tally.greatest.unwrap_or(0));
    tally
        .sum
        .wrapping_add(i128::from(tally.count))
        .wrapping_add(least)
        .wrapping_add(greatest)
}

// The tallies of so many ranges that are as long as a landmark, added up.
fn sum_of_values(landmarks: &Landmarks, times: u64) -> i128
    requires { 0 < times }
{
    let mut sum = 0i128;
    for call in 0..CALLS {
        let from = from_of(call, times);
        sum = sum.wrapping_add(mixed(&landmarks.values_in(from, from.saturating_add(SPAN - 1))));
    }
    sum
}

// The tallies of nearly all values, added up so often.
fn sum_of_walks(landmarks: &Landmarks) -> i128 {
    let mut sum = 0i128;
    for call in 0..WALKS {
        sum = sum.wrapping_add(mixed(&landmarks.values_in(u64::from(call), u64::MAX)));
    }
    sum
}

// The microseconds of a call of `free`.
fn time_of_free<R: Clock>(rt: &R, landmarks: &Landmarks, times: u64) -> f64
    requires some { 0 < times }
    requires early { times ≤ LAST_TIME }
{
    let begin = now(rt);
    let sum = sum_of_free::<Brand>(landmarks, times, Blank::new(1));
    micros_since(rt, &begin, sum > 0) / f64::from(CALLS)
}

// The microseconds of a tally of ten values.
fn time_of_ranges<R: Clock>(rt: &R, landmarks: &Landmarks, times: u64) -> f64
    requires { 0 < times }
{
    let begin = now(rt);
    let sum = sum_of_values(landmarks, times);
    micros_since(rt, &begin, sum > 0) / f64::from(CALLS)
}

// The microseconds of a tally of nearly all values.
fn time_of_walks<R: Clock>(rt: &R, landmarks: &Landmarks) -> f64 {
    let begin = now(rt);
    let sum = sum_of_walks(landmarks);
    micros_since(rt, &begin, sum > 0) / f64::from(WALKS)
}

// The times of the calls over landmarks of so many values, which were made in so many microseconds.
fn times_of<R: Clock>(rt: &R, micros: f64, landmarks: &Landmarks, values: u32) -> Times
    requires few { values ≤ MOST_VALUES }
{
    let times = u64::from(values / EACH + 1) * SPAN;
    Times {
        change: micros / f64::from(values),
        free: time_of_free(rt, landmarks, times),
        range: time_of_ranges(rt, landmarks, times),
        value: time_of_walks(rt, landmarks) / f64::from(values),
    }
}

/// The times of the calls over so many values.
pub fn landmark_times<R: AllocGlobal + Clock>(rt: &R, values: u32) -> Result<Times, AllocError>
    requires few { values ≤ MOST_VALUES }
{
    let begin = now(rt);
    let landmarks = landmarks_with(rt.alloc(), values)?;
    let micros = micros_since(rt, &begin, landmarks.values() == values);
    Ok(times_of(rt, micros, &landmarks, values))
}
