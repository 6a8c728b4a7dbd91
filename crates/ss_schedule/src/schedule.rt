// The schedule of merges.
use crate::keys::Keys;
use crate::pair::{Pair, join, pair_before, pair_behind};
use crate::sifting::NEVER;
use ss_base::{MOST_VALUES, Steps};
use ss_line::{At, Line, MOST_PLACES};
use ss_targets::Target;
use std::alloc::{AllocError, Global};
use std::marker::Model;
use std::sync::ledger::Ledger;

/// For each pair of neighbours in a line that lies in one step of the clock, the count of values at which the two first lie in one
/// target window. So whether some pair may be one window at a count is known without a look at the line, and an entry more or two
/// that are joined change at most three pairs. docs/DEFINITIONS.md ("First fits") says when a pair first fits.
#[derive(Drop)]
pub struct Schedule {
    target: Target,
    // By the place of the right one of a pair: the place of the left one, and when the two first fit.
    keys: Keys,
}

impl Model for Schedule {
    ghost use Rattle.ss_schedule.specs.Keyed.{ScheduleState};

    ghost Value = { ScheduleState };

    ghost view = { λ s. record { target = s.target; keys = s.keys } };
}

impl Schedule {
    ghost use Rattle.std.specs.Prelude.{◌≡◌, ◌+◌, ◌≤◌, ◌<◌, ℕ, max, true, List, [], ◌∷◌, ◌++◌, length, take, Some, None};
    ghost use Rattle.std.specs.Prelude.{IfSome, IfNone, IsOk, MatchOption, OnOk};
    ghost use Rattle.ss_line.specs.declared.entry.At.{At};
    ghost use Rattle.ss_line.specs.declared.entry.Entry.{Entry};
    ghost use Rattle.ss_line.specs.Line.{StandsIn, index_of};
    ghost use Rattle.ss_schedule.specs.declared.pair.Pair.{Pair};
    ghost use Rattle.ss_schedule.specs.Held.{fit_of};
    ghost use Rattle.ss_schedule.specs.Keyed.{FollowUpTo, IsKeyOf, IsKeyed, PutsKey, key_at, merge_rule};
    ghost use Rattle.ss_schedule.specs.Pairs.{AreSideBySide, IsPairIn, IsSpan, NoPairFits, joined_entry, pair_may_join};

    /// A schedule for this target, keyed for no entries, with no room.
    pub fn new(alloc: Global, target: Target) -> Schedule
        ensures target { result.target ≡ target }
        ensures room { length result.keys ≡ 0 }
        ensures keyed { (n : ℕ) → n ≤ MOST_VALUES → IsKeyed n [] result }
    {
        Schedule {
            target,
            keys: Keys::new(alloc),
        }
    }

    /// Makes room for that many places of a line, if there is less, and for no more. An error leaves the keys, and the room
    /// never falls.
    pub fn reserve(&mut self, places: u32) -> Result<(), AllocError>
        requires { places ≤ MOST_PLACES }
        ensures ok { OnOk result (places ≤ length self.new.keys) }
        ensures enough { places ≤ length self.old.keys → IsOk result }
        ensures grows { length self.old.keys ≤ length self.new.keys }
        ensures least { length self.new.keys ≤ max (length self.old.keys) places }
        ensures target { self.new.target ≡ self.old.target }
        ensures keys { (at : At) → key_at self.new.keys at ≡ key_at self.old.keys at }
        ensures keyed { (n : ℕ) (entries : List (At × Entry)) → IsKeyed n entries self.old → IsKeyed n entries self.new }
    {
        self.keys.reserve(places)
    }

    // The key of a pair, seen at n; none without a pair, and for one that lies in two steps of the clock.
    fn key_of(&self, pair: Option<Pair>, n: u64) -> Option<(At, u64)>
        requires span { IfSome pair (IsSpan n) }
        requires few { n ≤ MOST_VALUES }
        ensures key { IsKeyOf (merge_rule self.now) n pair result }
        ensures early { fit_of result ≤ NEVER }
    {
        let pair = pair?;
        if !self.target.in_step(pair.t_first, pair.t_last) {
            return None;
        }
        let fit = self.target.first_fit(pair.first, pair.last, n)?;
        Some((pair.left, fit))
    }

    // Puts the key of a pair, seen at n, at a place.
    fn put(&mut self, at: At, pair: Option<Pair>, n: u64)
        requires room { at.0 < length self.old.keys }
        requires span { IfSome pair (IsSpan n) }
        requires few { n ≤ MOST_VALUES }
        ensures { PutsKey self.old self.new n at pair }
    {
        let key = self.key_of(pair, n);
        self.keys.set(at, key);
    }

    /// Takes up the entry at a place, when n values are held: it is the next one of the line after those that the schedule
    /// is keyed for. At most 3 looks at the line.
    pub fn add_window<L: Ledger>(&mut self, line: &Line, at: At, n: u64, steps: &mut Steps<L>)
        requires stands { StandsIn line.now.entries at }
        requires room { at.0 < length self.old.keys }
        requires keyed { IsKeyed n (take (index_of line.now.entries at) line.now.entries) self.old }
        requires follow { FollowUpTo n (take (index_of line.now.entries at + 1) line.now.entries) }
        ensures keyed { IsKeyed n (take (index_of line.now.entries at + 1) line.now.entries) self.new }
        ensures target { self.new.target ≡ self.old.target }
        ensures room { length self.new.keys ≡ length self.old.keys }
        ensures looks { steps.new ≤ steps.old + 3 }
    {
        // Asked for the proof alone, here and below: with its length comes what holds of each line.
        let _len = line.len();
        let entry = line.get(at, steps);
        let (before, _) = line.neighbours(at, steps);
        let previous = pair_before(line, before, at, entry, steps);
        self.put(at, previous, n);
    }

    /// A pair of neighbours that may be one window when n values are held. None says that there is none, without a
    /// look at the line; otherwise there are at most 2.
    pub fn due<L: Ledger>(&self, line: &Line, n: u64, steps: &mut Steps<L>) -> Option<Pair>
        requires { IsKeyed n line.now.entries self.now }
        ensures pair { IfSome result (IsPairIn line.now.entries) }
        ensures fits { IfSome result (λ pair. pair_may_join (merge_rule self.now) n pair ≡ true) }
        ensures none { IfNone result (NoPairFits (merge_rule self.now) n line.now.entries) }
        ensures looks { MatchOption result (steps.new ≡ steps.old) (λ _. steps.new ≤ steps.old + 2) }
    {
        let _len = line.len();
        let (right, left) = self.keys.least_by(n)?;
        let window = line.get(left, steps);
        let next = line.get(right, steps);
        Some(Pair {
            left,
            right,
            first: window.first,
            last: next.last,
            t_first: window.t_first,
            t_last: next.t_last,
        })
    }

    /// Joins two neighbours that may be one window when n values are held: the left one takes the last position of
    /// the right one, which is cut out of the line, and the keys follow. At most 6 looks at the line.
    pub fn merged<L: Ledger>(&mut self, line: &mut Line, pair: Pair, n: u64, steps: &mut Steps<L>)
        requires neighbours { IsPairIn line.old.entries pair }
        requires fits { pair_may_join (merge_rule self.old) n pair ≡ true }
        requires keyed { IsKeyed n line.old.entries self.old }
        ensures joined { (it : AreSideBySide line.old.entries pair.left pair.right)
            → line.new.entries ≡ it.before ++ (pair.left, joined_entry it.window it.next) ∷ it.rest }
        ensures fewer { length line.new.entries + 1 ≡ length line.old.entries }
        ensures spare { line.new.spare ≡ line.old.spare + 1 }
        ensures keyed { IsKeyed n line.new.entries self.new }
        ensures target { self.new.target ≡ self.old.target }
        ensures room { length self.new.keys ≡ length self.old.keys }
        ensures looks { steps.new ≤ steps.old + 6 }
    {
        let _len = line.len();
        let joined = join(line, pair, steps);
        let (before, behind) = line.neighbours(pair.left, steps);
        let previous = pair_before(line, before, pair.left, joined, steps);
        let next = pair_behind(line, pair.left, joined, behind, steps);
        self.put(pair.right, None, n);
        self.put(pair.left, previous, n);
        if let Some(pair) = next {
            self.put(pair.right, next, n);
        }
    }
}
