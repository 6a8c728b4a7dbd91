// The windows of a stream, among its records in the order of their places.
ghost use Rattle.std.specs.Prelude.{◌≡◌, ◌+◌, ◌≤◌, ◌<◌, ◌++◌, [], ◌∷◌, All, length, OnOk, IfOk, IfErr, IfSome};
ghost use Rattle.std.specs.List.{list_all};
ghost use Rattle.ss_line.specs.declared.line.TheConstants.{MOST_PLACES};
ghost use Rattle.ss_base.specs.declared.limits.TheConstants.{MOST_VALUES};
ghost use Rattle.ss_targets.specs.Rule.{rule_of};
ghost use Rattle.ss_targets.specs.Targets.{params_of};
ghost use Rattle.ss_model.specs.Marks.{lies_free};
ghost use Rattle.ss_model.specs.declared.types.TheConstants.{MOST_RECORDS};
ghost use Rattle.ss_recover.specs.Carried.{window_of};
ghost use Rattle.ss_recover.specs.Conditions.{keep_step, tile, times_rise};
ghost use Rattle.ss_recover.specs.Order.{stream_of};
ghost use Rattle.ss_recover.specs.Runs.{windows_in};
ghost use Rattle.ss_recover.specs.Shown.{AreWindowsOf, Grows, IsInside, is_after};
ghost use Rattle.ss_recover.specs.Usable.{IsUsable, without_slots};
ghost use Rattle.ss_recover.specs.declared.recover_error.RecoverError.TheVariants.{OutOfMemory};

use crate::RecoverError;
use crate::found::Found;
use ss_base::Steps;
use ss_codec::Record;
use ss_landmarks::Landmarks;
use ss_line::{Entry, Line};
use ss_model::Window;
use ss_parts::lies_free;
use ss_targets::Target;
use std::alloc::Global;
use std::sync::ledger::Ledger;

// The windows so far, each as it is held, and the time of the newest.
#[derive(Drop)]
pub struct Windows {
    pub line: Line,
    pub newest: Option<u64>,
}

// The window of a record, if it is one of the stream of this number.
fn window_of(id: u32, holds: &Record) -> Option<Window>
    requires { IsUsable holds.now }
    ensures value { result ≡ window_of id holds.now }
    ensures inside { IfSome result IsInside }
{
    match *holds {
        Record::Window {
            id: own,
            first,
            summary,
        } => {
            if own == id {
                Some(Window { first, summary })
            } else {
                None
            }
        }
        Record::Free | Record::Stream { .. } | Record::Landmark { .. } | Record::Value { .. } =>
            None,
    }
}

// Whether a time comes after the last one, if there is one.
fn is_after(last: Option<u64>, t: u64) -> bool
    ensures { result ≡ is_after last t }
{
    match last {
        Some(last) => last < t,
        None => true,
    }
}

// The position after those of a window's values.
fn next_after(window: &Window) -> u64
    requires { IsInside window.now }
    ensures { result ≡ window.now.first + window.now.summary.count }
{
    let summary = window.summary;
    window.first + summary.count
}

// Whether the windows hold each position from 1 on.
pub fn tile(id: u32, found: &[Found]) -> bool
    requires { All (λ f. IsUsable f.holds) found.now }
    ensures { result ≡ tile (windows_in id (without_slots found.now)) }
{
    let mut next = 1;
    for one in found {
        match window_of(id, &one.holds) {
            Some(window) => {
                if window.first != next {
                    return false;
                }
                next = next_after(&window);
            }
            None => {}
        }
    }
    true
}

// Whether the last time of each window is before the first of the next.
pub fn times_rise(id: u32, found: &[Found]) -> bool
    requires { All (λ f. IsUsable f.holds) found.now }
    ensures { result ≡ times_rise (windows_in id (without_slots found.now)) }
{
    let mut newest = None;
    for one in found {
        if let Some(window) = window_of(id, &one.holds) {
            if !is_after(newest, window.summary.t_first) {
                return false;
            }
            newest = Some(window.summary.t_last);
        }
    }
    true
}

// Whether the first time of each window and its last lie in one step of the clock.
pub fn keep_step(target: &Target, id: u32, found: &[Found]) -> bool
    requires { All (λ f. IsUsable f.holds) found.now }
    ensures { result ≡ keep_step (rule_of (params_of target.now)).step (windows_in id (without_slots found.now)) }
{
    for one in found {
        if let Some(window) = window_of(id, &one.holds) {
            if !target.in_step(window.summary.t_first, window.summary.t_last) {
                return false;
            }
        }
    }
    true
}

// Whether each window lies free among landmarks.
pub fn lie_free<L: Ledger>(
    landmarks: &Landmarks,
    id: u32,
    found: &[Found],
    steps: &mut Steps<L>,
) -> bool
    requires { All (λ f. IsUsable f.holds) found.now }
    ensures { result ≡ list_all (lies_free landmarks.now.landmarks) (windows_in id (without_slots found.now)) }
{
    for one in found {
        if let Some(window) = window_of(id, &one.holds) {
            if !lies_free(landmarks, &window, steps) {
                return false;
            }
        }
    }
    true
}

impl Windows {
    // One more window, in its slot.
    fn put<L: Ledger>(
        &mut self,
        slot: u32,
        window: Window,
        steps: &mut Steps<L>,
    ) -> Result<(), RecoverError>
        requires room { length self.old.line.entries + 1 ≤ MOST_PLACES }
        requires inside { IsInside window }
        ensures ok { OnOk result (Grows self.old self.new slot window) }
        ensures err { IfErr result (λ error. error ≡ OutOfMemory) }
    {
        self.line.reserve(1)?;
        let summary = window.summary;
        let entry = Entry {
            first: window.first,
            last: window.first + (summary.count - 1),
            t_first: summary.t_first,
            t_last: summary.t_last,
            slot,
        };
        let _ = self.line.push(entry, steps);
        self.newest = Some(summary.t_last);
        Ok(())
    }
}

// The windows, each in the slot of its record.
pub fn windows_of<L: Ledger>(
    alloc: Global,
    id: u32,
    found: &[Found],
    steps: &mut Steps<L>,
) -> Result<Windows, RecoverError>
    requires usable { All (λ f. IsUsable f.holds) found.now }
    requires own { All (λ f. stream_of f.holds ≡ id) found.now }
    requires few { length found.now < MOST_RECORDS }
    ensures ok { IfOk result (AreWindowsOf id found.now) }
    ensures err { IfErr result (λ error. error ≡ OutOfMemory) }
{
    let mut windows = Windows {
        line: Line::new(alloc),
        newest: None,
    };
    for one in found {
        match window_of(id, &one.holds) {
            Some(window) => windows.put(one.slot, window, steps)?,
            None => {}
        }
    }
    Ok(windows)
}
