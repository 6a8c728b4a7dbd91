// What is looked up among landmarks and values whose times rise, by halves.
ghost use Rattle.std.specs.Prelude.{◌≡◌, ◌-◌, ◌≤◌, [], map, take, drop, length, FitsSigned};
ghost use Rattle.std.specs.Int.{w64};
ghost use Rattle.std.specs.List.{filter, All};
ghost use Rattle.ss_landmarks.specs.Order.{RiseFrom};
ghost use Rattle.ss_landmarks.specs.Stored.{bare_value, landmarks_from, free_before, KnowFree};
ghost use Rattle.ss_landmarks.specs.ValuesIn.{is_among, lies_in};

use crate::stored::{Closed, Opened, StoredValue};

// How many times before this one are free. A landmark knows how many are before it, and the one that opens last before
// this time says what comes after.
pub fn free_before(closed: &[Closed], current: &Option<Opened>, t: u64) -> u64
    requires { KnowFree closed.now current.now }
    ensures { result ≡ free_before (landmarks_from closed.now current.now []) t }
{
    if let Some(opened) = current {
        if opened.start <= t {
            return opened.free_before;
        }
    }
    let begun = closed.partition_point(|c| c.start < t);
    if begun == 0 {
        return t;
    }
    let last = closed[begun - 1];
    last.free_before + t.saturating_sub(last.finish + 1)
}

// From which place to before which one the values with time in a..=b stand.
pub fn places_in(values: &[StoredValue], a: u64, b: u64) -> (usize, usize)
    requires { RiseFrom 0 (map bare_value values.now) }
    ensures values { map bare_value (take (result.1 - result.0) (drop result.0 values.now)) ≡ filter (lies_in a b) (map bare_value values.now) }
    ensures order { result.0 ≤ result.1 }
    ensures within { result.1 ≤ length values.now }
{
    let from = values.partition_point(|value| value.t < a);
    let to = values.partition_point(|value| value.t <= b);
    (from, to.max(from))
}

// The values with time in a..=b.
pub fn values_in(values: &[StoredValue], a: u64, b: u64) -> &[StoredValue]
    requires { RiseFrom 0 (map bare_value values.now) }
    ensures values { map bare_value result.now ≡ filter (lies_in a b) (map bare_value values.now) }
    ensures fit { All (λ value. FitsSigned w64 value.v) result.now }
{
    let (from, to) = places_in(values, a, b);
    &values[from..to]
}

// Whether some value is v.
pub fn is_among(values: &[StoredValue], v: i64) -> bool
    ensures { result ≡ is_among v (map bare_value values.now) }
{
    values.iter().any(|value| value.v == v)
}
