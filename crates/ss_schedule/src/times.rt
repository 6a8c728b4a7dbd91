// The windows of a stream by their times.
use ss_line::At;
use std::alloc::{AllocError, Global};
use std::collections::BTreeMap;
use std::marker::Model;

/// Where the windows of a stream stand in its line, by the time at which each begins. No two begin at one time.
#[derive(Drop)]
pub struct Times {
    places: BTreeMap<u64, At>,
}

impl Model for Times {
    ghost use Rattle.std.specs.Prelude.{ℕ, List};
    ghost use Rattle.ss_line.specs.declared.entry.At.{At};

    // The time and the place of each window, in the order of the times.
    ghost Value = { List (ℕ × At) };

    ghost view = { λ s. s.places.entries };
}

impl Times {
    ghost use Rattle.std.specs.Prelude.{◌≡◌, ◌≢◌, ◌<◌, ℕ, [], ◌∷◌, ◌++◌, List, All, OnOk, OnErr};
    ghost use Rattle.ss_line.specs.declared.entry.At.{At};
    ghost use Rattle.ss_schedule.specs.Times.{IsSought};

    /// No windows.
    pub fn new(alloc: Global) -> Times
        ensures { result ≡ [] }
    {
        Times {
            places: BTreeMap::new(alloc),
        }
    }

    /// Notes a window that begins after all others, and its place. An error leaves what was there.
    pub fn push(&mut self, t: u64, at: At) -> Result<(), AllocError>
        requires { All (λ e. e.0 < t) self.old }
        ensures ok { OnOk result (self.new ≡ self.old ++ (t, at) ∷ []) }
        ensures err { OnErr result (self.new ≡ self.old) }
    {
        self.places.insert(t, at)?;
        Ok(())
    }

    /// Notes the time of a window that begins after all others; its place is told later. An error leaves what was there.
    pub fn reserve(&mut self, t: u64) -> Result<(), AllocError>
        requires { All (λ e. e.0 < t) self.old }
        ensures ok { OnOk result (self.new ≡ self.old ++ (t, record { 0 = 0 }) ∷ []) }
        ensures err { OnErr result (self.new ≡ self.old) }
    {
        self.push(t, At(0))
    }

    /// Tells the place of the window that begins at a time. Where none begins then, nothing changes. It takes no memory.
    pub fn put(&mut self, t: u64, at: At)
        ensures place { (before behind : List (ℕ × At)) (was : At) → self.old ≡ before ++ (t, was) ∷ behind
            → self.new ≡ before ++ (t, at) ∷ behind }
        ensures absent { All (λ e. e.0 ≢ t) self.old → self.new ≡ self.old }
    {
        if let Some(place) = self.places.get_mut(&t) {
            *place = at;
        }
    }

    /// Forgets the window that begins at a time. Where none begins then, nothing changes.
    pub fn cut_out(&mut self, t: u64)
        ensures rest { (before behind : List (ℕ × At)) (was : At) → self.old ≡ before ++ (t, was) ∷ behind
            → self.new ≡ before ++ behind }
        ensures absent { All (λ e. e.0 ≢ t) self.old → self.new ≡ self.old }
    {
        // Asked for the proof alone: with its length comes what holds of each map.
        let _len = self.places.len();
        self.places.remove(&t);
    }

    /// The place of the last window that begins at a time or before it. None says that all begin later. It takes a number of
    /// steps that grows as the logarithm of how many windows there are.
    pub fn seek(&self, t: u64) -> Option<At>
        ensures { IsSought t self.now result }
    {
        let (_, at) = self.places.range(..=t).next_back()?;
        Some(*at)
    }
}
