// Look-ups of target windows.
ghost use Rattle.std.specs.Prelude.{◌≤◌};

use crate::timing::{FAILED, micros_since, now};
use ss_base::MOST_VALUES;
use ss_catalog::{Family, Params};
use ss_targets::{Decay, Target};
use std::rt::Clock;

/// The families of targets without a step, with their names.
pub const TARGETS: [(&str, Family); 5] = [
    ("exp 2 1 1", Family::Exp { b: 2, r: 1, s: 1 }),
    (
        "power 1 1 1 1",
        Family::Power {
            p: 1,
            q: 1,
            r: 1,
            s: 1,
        },
    ),
    (
        "power 2 1 1 1",
        Family::Power {
            p: 2,
            q: 1,
            r: 1,
            s: 1,
        },
    ),
    (
        "power 1 1 4 1",
        Family::Power {
            p: 1,
            q: 1,
            r: 4,
            s: 1,
        },
    ),
    (
        "power 4 3 1 1",
        Family::Power {
            p: 4,
            q: 3,
            r: 1,
            s: 1,
        },
    ),
];

/// How many values were taken. The oldest has one less as its age.
pub const TAKEN: [u64; 3] = [1_000, 1_000_000, 1_000_000_000];

/// The ages whose look-ups are timed.
pub const AGES: [u64; 4] = [1_000, 1_000_000, 1_000_000_000, MOST_VALUES];

// How many look-ups are timed.
const LOOK_UPS: u32 = 1_000;

/// How many windows of a target cover so many values, how many windows stand at most, and how long the oldest target
/// window is.
#[derive(Clone, Copy)]
pub struct Cover {
    pub windows: u64,
    pub most: u64,
    pub oldest: u64,
}

// The cover of so many values in a target.
fn cover_in(target: &Target, taken: u64) -> Option<Cover> {
    let oldest = target.window_at(MOST_VALUES.min(taken.saturating_sub(1)));
    if oldest.index >= MOST_VALUES {
        return None;
    }
    let windows = oldest.index + 1;
    Some(Cover {
        windows,
        most: 2 * windows - 1,
        oldest: oldest.len,
    })
}

/// The cover of so many values, if there is such a target.
pub fn cover_of(params: Params, taken: u64) -> Option<Cover> {
    match Target::of(params) {
        Ok(target) => cover_in(&target, taken),
        Err(_) => None,
    }
}

// Looks up an age and the seven before it in turn, and answers the indices in one number.
fn indices(target: &Target, age: u64) -> u64
    requires { age ≤ MOST_VALUES }
{
    let mut found = 0u64;
    for k in 0..LOOK_UPS {
        found ^= target.window_at(age.saturating_sub(u64::from(k % 8))).index;
    }
    found
}

// The nanoseconds of a look-up of an age in the target.
fn time_in<R: Clock>(rt: &R, target: &Target, age: u64) -> f64
    requires { age ≤ MOST_VALUES }
{
    let begin = now(rt);
    let found = indices(target, age);
    micros_since(rt, &begin, found < u64::MAX) * 1e3 / f64::from(LOOK_UPS)
}

/// The nanoseconds of a look-up of an age.
pub fn look_up_time<R: Clock>(rt: &R, params: Params, age: u64) -> f64 {
    match Target::of(params) {
        Ok(target) => time_in(rt, &target, MOST_VALUES.min(age)),
        Err(_) => FAILED,
    }
}
