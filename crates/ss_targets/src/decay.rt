// What every family of target windows offers.
ghost use Rattle.std.specs.Prelude.{◌≡◌, ◌+◌, ◌≤◌, ℕ, IfSome, IfNone};
ghost use Rattle.ss_targets.specs.FirstFit.{FindsOfLength, IsWindow, NoneOfLength};
ghost use Rattle.ss_targets.specs.Windowing.{cut, Holds, ArePositive, NeverFall};

use ss_base::MOST_VALUES;

/// A target window: its index from 0, the least age that it holds, and how many ages it holds.
#[derive(Clone, Copy, Debug, PartialEq, Eq)]
pub struct Spot {
    pub index: u64,
    pub start: u64,
    pub len: u64,
}

/// The one refusal of parameters: some parameter is outside its range.
#[derive(Clone, Copy, Debug, PartialEq, Eq)]
pub struct Param;

/// A sequence of window lengths, counted back from the newest value.
pub trait Decay {
    /// The length of each window, by its index.
    ghost length_of: { Self → ℕ → ℕ };

    /// The window that holds an age. The newest value has age 0.
    fn window_at(&self, age: u64) -> Spot
        requires { age ≤ MOST_VALUES }
        ensures holds { Holds (length_of self.now) result.index age }
        ensures start { result.start ≡ cut (length_of self.now) result.index }
        ensures len { result.len ≡ length_of self.now result.index };

    /// The first window of all that has at least a length. None says that each such window begins past the greatest age.
    fn first_at_least(&self, len: u64) -> Option<Spot>
        ensures some { IfSome result (FindsOfLength (length_of self.now) 0 len) }
        ensures none { IfNone result (NoneOfLength (length_of self.now) 0 len) };

    /// The first window after `spot`, which is a target window, that has at least a length. None says that each such
    /// window begins past the greatest age.
    fn next_at_least(&self, spot: Spot, len: u64) -> Option<Spot>
        requires window { IsWindow (length_of self.now) spot }
        requires early { spot.start ≤ MOST_VALUES }
        ensures some { IfSome result (FindsOfLength (length_of self.now) (spot.index + 1) len) }
        ensures none { IfNone result (NoneOfLength (length_of self.now) (spot.index + 1) len) }
    {
        if MOST_VALUES - spot.start < spot.len {
            return None;
        }
        let next = self.window_at(spot.start + spot.len);
        if len <= next.len {
            Some(next)
        } else {
            self.first_at_least(len)
        }
    }

    /// No window is empty.
    ghost positive: { (target : Self) → ArePositive (length_of target) };

    /// No window is shorter than the one before it, which is the next newer one.
    ghost never_falls: { (target : Self) → NeverFall (length_of target) };
}
