// What is known of whether the value that is asked for is there.
ghost use Rattle.std.specs.Prelude.{◌≡◌, ◌+◌, ◌≤◌, IsTrue};
ghost use Rattle.ss_landmarks.specs.Free.{is_free};
ghost use Rattle.ss_landmarks.specs.ValuesIn.{values_between};
ghost use Rattle.ss_model.specs.Interval.{is_extreme, may_have, may_reach};
ghost use Rattle.ss_model.specs.Marks.{lies_free};
ghost use Rattle.ss_query.specs.Asked.{presence_in, presence_of_marks, presence_with, stronger};

use crate::Presence;
use crate::asking::{is_split, is_whole, split_of};
use ss_base::Steps;
use ss_bounds::count_bounds;
use ss_catalog::{Kind, Query};
use ss_landmarks::Landmarks;
use ss_model::Window;
use ss_summary::Summary;
use std::sync::ledger::Ledger;

// Whether it is there, by the values of landmarks in the range alone.
pub fn presence_of_marks(query: &Query, landmarks: &Landmarks) -> Presence
    ensures { result ≡ presence_of_marks query.now.kind (values_between landmarks.now.landmarks query.now.from query.now.to) }
{
    match query.kind {
        Kind::Has { value } => {
            if landmarks.holds(query.from, query.to, value) {
                Presence::Present
            } else {
                Presence::Absent
            }
        }
        _ => Presence::Absent,
    }
}

// The stronger of two things that are known of it.
fn stronger(known: Presence, other: Presence) -> Presence
    ensures { result ≡ stronger known other }
{
    match known {
        Presence::Absent => other,
        Presence::Present => Presence::Present,
        Presence::Maybe => match other {
            Presence::Present => Presence::Present,
            _ => Presence::Maybe,
        },
    }
}

// Whether a value is the least or the greatest of a window that lies whole in the range.
fn is_extreme(query: &Query, window: &Window, value: i64) -> bool
    ensures { result ≡ is_extreme query.now.from query.now.to value window.now }
{
    let summary = window.summary;
    is_whole(query, window) && (summary.min == value || summary.max == value)
}

// Whether some of the values of a window may lie in the range.
fn may_reach<S: Ledger>(
    query: &Query,
    landmarks: &Landmarks,
    window: &Window,
    searches: &mut Steps<S>,
) -> bool
    requires order { query.now.from ≤ query.now.to }
    requires free { IsTrue (lies_free landmarks.now.landmarks window.now) }
    ensures searches { searches.new ≤ searches.old + 2 }
    ensures reaches { result ≡ may_reach (is_free landmarks.now.landmarks) query.now.from query.now.to window.now }
{
    is_whole(query, window)
        || is_split(query, window)
            && 1 <= count_bounds(split_of(query, landmarks, window, searches)).1
}

// Whether a value may be one of those of a window.
fn may_have(summary: Summary, value: i64) -> bool
    ensures { result ≡ may_have value summary }
{
    summary.min <= value && value <= summary.max && summary.filter.has(value)
}

// What one window tells of a value.
fn presence_in<S: Ledger>(
    query: &Query,
    landmarks: &Landmarks,
    window: &Window,
    value: i64,
    searches: &mut Steps<S>,
) -> Presence
    requires order { query.now.from ≤ query.now.to }
    requires free { IsTrue (lies_free landmarks.now.landmarks window.now) }
    ensures searches { searches.new ≤ searches.old + 2 }
    ensures presence { result ≡ presence_in landmarks.now.landmarks query.now.from query.now.to value window.now }
{
    if is_extreme(query, window, value) {
        return Presence::Present;
    }
    if may_reach(query, landmarks, window, searches) && may_have(window.summary, value) {
        Presence::Maybe
    } else {
        Presence::Absent
    }
}

// What is known with one more window.
pub fn presence_with<S: Ledger>(
    known: Presence,
    query: &Query,
    landmarks: &Landmarks,
    window: &Window,
    searches: &mut Steps<S>,
) -> Presence
    requires order { query.now.from ≤ query.now.to }
    requires free { IsTrue (lies_free landmarks.now.landmarks window.now) }
    ensures searches { searches.new ≤ searches.old + 2 }
    ensures presence { result ≡ presence_with landmarks.now.landmarks query.now.kind query.now.from query.now.to known window.now }
{
    match query.kind {
        Kind::Has { value } => {
            let other = presence_in(query, landmarks, window, value, searches);
            stronger(known, other)
        }
        _ => known,
    }
}
