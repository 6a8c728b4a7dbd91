// What the windows of a stream say of a range of times, one after the other.
ghost use Rattle.std.specs.Prelude.{◌≡◌, ◌↔◌, ◌+◌, ◌^◌, ◌<◌, ◌≤◌, Some, IsTrue, IfSome};
ghost use Rattle.ss_bounds.specs.Times.{ends_in, times_inside};
ghost use Rattle.ss_landmarks.specs.Free.{is_free};
ghost use Rattle.ss_landmarks.specs.ValuesIn.{values_between};
ghost use Rattle.ss_model.specs.Closed.{last_position};
ghost use Rattle.ss_model.specs.Interval.{is_apart, is_split, is_whole, split_figures};
ghost use Rattle.ss_model.specs.Marks.{lies_free};
ghost use Rattle.ss_base.specs.declared.limits.TheConstants.{MOST_VALUES};
ghost use Rattle.ss_query.specs.Asked.{Follows, HasCuts, IsCut, cut_of, joined_with, left_with, marks_seen, right_with, seen_with, whole_with};

use crate::Cut;
use crate::presence::{presence_of_marks, presence_with};
use ss_base::{LAST_TIME, MOST_VALUES, Steps};
use ss_bounds::Split;
use ss_catalog::Query;
use ss_landmarks::{Landmarks, Tally};
use ss_model::{Presence, Window};
use ss_summary::Summary;
use std::sync::ledger::Ledger;

/// What the landmarks and the windows that were read so far say of a range of times.
#[derive(Clone, Copy, Debug)]
pub struct Seen {
    /// The values of landmarks in the range.
    pub marked: Tally,
    /// The windows that lie whole in the range, as one.
    pub whole: Option<Summary>,
    /// The window that the range splits and that begins before it.
    pub left: Option<Cut>,
    /// The window that the range splits and that begins in it.
    pub right: Option<Cut>,
    /// Whether the value that is asked for is there. Where none is asked for, it is absent.
    pub presence: Presence,
    /// How many values the windows have that were read.
    pub taken: u64,
    /// The least time at which the next window may begin.
    pub next_time: u64,
}

// Before any window was read.
pub fn nothing_seen(query: &Query, landmarks: &Landmarks) -> Seen
    ensures { result ≡ marks_seen query.now.kind (values_between landmarks.now.landmarks query.now.from query.now.to) }
{
    Seen {
        marked: landmarks.values_in(query.from, query.to),
        whole: None,
        left: None,
        right: None,
        presence: presence_of_marks(query, landmarks),
        taken: 0,
        next_time: 0,
    }
}

// Whether a window may come next: a stream can have its values besides those so far, and its times are after theirs.
pub fn follows(seen: Seen, window: &Window) -> bool
    requires { seen.taken ≤ MOST_VALUES }
    ensures after { IsTrue result ↔ Follows seen window.now }
    ensures rises { window.now.summary.t_first ≤ window.now.summary.t_last }
{
    let summary = window.summary;
    summary.count <= MOST_VALUES - seen.taken && seen.next_time <= summary.t_first
}

// Whether all times of a window lie in the range.
pub fn is_whole(query: &Query, window: &Window) -> bool
    ensures { result ≡ is_whole query.now.from query.now.to window.now }
{
    query.from <= window.summary.t_first && window.summary.t_last <= query.to
}

// Whether none does.
fn is_apart(query: &Query, window: &Window) -> bool
    ensures { result ≡ is_apart query.now.from query.now.to window.now }
{
    window.summary.t_last < query.from || query.to < window.summary.t_first
}

// Whether some do and some don't.
pub fn is_split(query: &Query, window: &Window) -> bool
    ensures { result ≡ is_split query.now.from query.now.to window.now }
{
    !is_whole(query, window) && !is_apart(query, window)
}

// How many of two times lie in the range.
fn ends_in(query: &Query, first: u64, last: u64) -> u64
    ensures { result ≡ ends_in query.now.from query.now.to first last }
{
    let is_first = query.from <= first && first <= query.to;
    let is_last = query.from <= last && last <= query.to;
    u64::from(is_first) + u64::from(is_last)
}

// How many free times strictly between two lie in the range.
fn times_inside<S: Ledger>(
    query: &Query,
    landmarks: &Landmarks,
    first: u64,
    last: u64,
    searches: &mut Steps<S>,
) -> u64
    requires order { first < last }
    requires time { last ≤ LAST_TIME }
    ensures times { result ≡ times_inside (is_free landmarks.now.landmarks) query.now.from query.now.to first last }
    ensures one_search { searches.new ≡ searches.old + 1 }
{
    let begin = query.from.max(first + 1);
    let end = query.to.min(last - 1);
    landmarks.free(begin, end, searches)
}

// The figures of a window that the range splits.
pub fn split_of<S: Ledger>(
    query: &Query,
    landmarks: &Landmarks,
    window: &Window,
    searches: &mut Steps<S>,
) -> Split
    requires order { query.now.from ≤ query.now.to }
    requires split { IsTrue (is_split query.now.from query.now.to window.now) }
    requires free { IsTrue (lies_free landmarks.now.landmarks window.now) }
    ensures figures { result ≡ split_figures (is_free landmarks.now.landmarks) query.now.from query.now.to window.now }
    ensures searches { searches.new ≡ searches.old + 2 }
{
    let summary = window.summary;
    let inside = times_inside(query, landmarks, summary.t_first, summary.t_last, searches);
    let between = landmarks.free(summary.t_first + 1, summary.t_last - 1, searches);
    Split {
        count: summary.count,
        sum: summary.sum,
        min: summary.min,
        max: summary.max,
        ends: ends_in(query, summary.t_first, summary.t_last),
        inside,
        outside: between - inside,
    }
}

// A window that the range splits, as it is cut.
fn cut_of<S: Ledger>(
    query: &Query,
    landmarks: &Landmarks,
    window: &Window,
    searches: &mut Steps<S>,
) -> Cut
    requires order { query.now.from ≤ query.now.to }
    requires split { IsTrue (is_split query.now.from query.now.to window.now) }
    requires free { IsTrue (lies_free landmarks.now.landmarks window.now) }
    requires place { last_position window.now < 2 ^ 64 }
    ensures value { result ≡ cut_of landmarks.now.landmarks query.now.from query.now.to window.now }
    ensures cut { IsCut result }
    ensures searches { searches.new ≡ searches.old + 2 }
{
    let split = split_of(query, landmarks, window, searches);
    Cut {
        first: window.first,
        last: window.first + (split.count - 1),
        split,
    }
}

// A summary with the values of one more window.
fn joined(whole: Option<Summary>, summary: Summary) -> Summary
    requires { IfSome whole (λ older. (older.t_last < summary.t_first) × (older.count + summary.count ≤ MOST_VALUES)) }
    ensures { Some result ≡ joined_with whole summary }
{
    match whole {
        None => summary,
        Some(older) => Summary::join(older, summary),
    }
}

// The whole windows with one more, if it is one.
fn whole_with(whole: Option<Summary>, query: &Query, window: &Window) -> Option<Summary>
    requires { IfSome whole (λ older. (older.t_last < window.now.summary.t_first)
        × (older.count + window.now.summary.count ≤ MOST_VALUES)) }
    ensures { result ≡ whole_with query.now.from query.now.to whole window.now }
{
    if is_whole(query, window) {
        Some(joined(whole, window.summary))
    } else {
        whole
    }
}

// The split window that begins before the range, if this is the one.
fn left_with<S: Ledger>(
    left: Option<Cut>,
    query: &Query,
    landmarks: &Landmarks,
    window: &Window,
    searches: &mut Steps<S>,
) -> Option<Cut>
    requires order { query.now.from ≤ query.now.to }
    requires free { IsTrue (lies_free landmarks.now.landmarks window.now) }
    requires place { last_position window.now < 2 ^ 64 }
    requires cut { IfSome left IsCut }
    ensures value { result ≡ left_with landmarks.now.landmarks query.now.from query.now.to left window.now }
    ensures cut { IfSome result IsCut }
    ensures searches { searches.new ≤ searches.old + 2 }
    ensures unsearched { query.now.from ≤ window.now.summary.t_first → searches.new ≡ searches.old }
{
    if is_split(query, window) && window.summary.t_first < query.from {
        Some(cut_of(query, landmarks, window, searches))
    } else {
        left
    }
}

// The split window that begins in the range, if this is the one.
fn right_with<S: Ledger>(
    right: Option<Cut>,
    query: &Query,
    landmarks: &Landmarks,
    window: &Window,
    searches: &mut Steps<S>,
) -> Option<Cut>
    requires order { query.now.from ≤ query.now.to }
    requires free { IsTrue (lies_free landmarks.now.landmarks window.now) }
    requires place { last_position window.now < 2 ^ 64 }
    requires cut { IfSome right IsCut }
    ensures value { result ≡ right_with landmarks.now.landmarks query.now.from query.now.to right window.now }
    ensures cut { IfSome result IsCut }
    ensures searches { searches.new ≤ searches.old + 2 }
    ensures unsearched { window.now.summary.t_first < query.now.from → searches.new ≡ searches.old }
{
    if is_split(query, window) && query.from <= window.summary.t_first {
        Some(cut_of(query, landmarks, window, searches))
    } else {
        right
    }
}

// What is known with one more window, all times of which are later.
pub fn with_window<S: Ledger>(
    seen: Seen,
    query: &Query,
    landmarks: &Landmarks,
    window: &Window,
    searches: &mut Steps<S>,
) -> Seen
    requires few { seen.taken + window.now.summary.count ≤ MOST_VALUES }
    requires order { query.now.from ≤ query.now.to }
    requires free { IsTrue (lies_free landmarks.now.landmarks window.now) }
    requires whole { IfSome seen.whole (λ older. (older.t_last < window.now.summary.t_first)
        × (older.count + window.now.summary.count ≤ MOST_VALUES)) }
    requires place { last_position window.now < 2 ^ 64 }
    requires cuts { HasCuts seen }
    ensures value { result ≡ seen_with landmarks.now.landmarks query.now.kind query.now.from query.now.to seen window.now }
    ensures cuts { HasCuts result }
    // Two for the cut of a window that the range splits, and two for a value that may be in it.
    ensures searches { searches.new ≤ searches.old + 4 }
{
    Seen {
        marked: seen.marked,
        whole: whole_with(seen.whole, query, window),
        left: left_with(seen.left, query, landmarks, window, searches),
        right: right_with(seen.right, query, landmarks, window, searches),
        presence: presence_with(seen.presence, query, landmarks, window, searches),
        taken: seen.taken + window.summary.count,
        next_time: window.summary.t_last + 1,
    }
}
