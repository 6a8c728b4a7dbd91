// The time that calls take.
use std::rt::Clock;
use std::time::Instant;

/// In place of a time where the clock failed, or a call answered what it should not: less than 0, as is each part of it.
pub const FAILED: f64 = -1.0;

/// The instant now, if the clock tells it.
pub fn now<R: Clock>(rt: &R) -> Option<Instant> {
    match Instant::now(rt) {
        Ok(instant) => Some(instant),
        Err(_) => None,
    }
}

// The microseconds since an instant.
fn micros<R: Clock>(rt: &R, begin: &Instant) -> f64 {
    match begin.elapsed(rt) {
        Ok(time) => time.as_secs_f64() * 1e6,
        Err(_) => FAILED,
    }
}

/// The microseconds since the instant, where the calls answered what they should.
pub fn micros_since<R: Clock>(rt: &R, begin: &Option<Instant>, right: bool) -> f64 {
    match begin {
        Some(begin) if right => micros(rt, begin),
        _ => FAILED,
    }
}
