// What is kept beside the line of one stream.
use crate::pair::Pair;
use crate::schedule::Schedule;
use crate::times::Times;
use ss_base::Steps;
use ss_line::{At, Line};
use ss_targets::Target;
use std::alloc::{AllocError, Global};
use std::sync::ledger::Ledger;

/// When the windows of one stream are joined, and where they stand in its line by the times at which they begin.
#[derive(Drop)]
pub struct Index {
    pub schedule: Schedule,
    pub times: Times,
}

impl Index {
    ghost use Rattle.std.specs.Prelude.{◌≡◌, ◌+◌, ◌<◌, ◌≤◌, ℕ, max, true, List, [], ◌∷◌, ◌++◌, All, length, take};
    ghost use Rattle.std.specs.Prelude.{IfNone, IfSome, MatchOption, OnErr, OnOk};
    ghost use Rattle.ss_line.specs.Line.{StandsIn, index_of};
    ghost use Rattle.ss_line.specs.declared.entry.At.{At};
    ghost use Rattle.ss_line.specs.declared.entry.Entry.{Entry};
    ghost use Rattle.ss_line.specs.declared.line.TheConstants.{MOST_PLACES};
    ghost use Rattle.ss_base.specs.declared.limits.TheConstants.{MOST_VALUES};
    ghost use Rattle.ss_schedule.specs.Keyed.{FollowUpTo, HasPlaces, IsKeyed, merge_rule};
    ghost use Rattle.ss_schedule.specs.Pairs.{AreSideBySide, IsPairIn, NoPairFits, joined_entry, pair_may_join};

    /// The index of a line without windows, with no room.
    pub fn new(alloc: Global, target: Target) -> Index
        ensures target { result.schedule.target ≡ target }
        ensures keyed { (n : ℕ) → n ≤ MOST_VALUES → IsKeyed n [] result.schedule }
        ensures times { result.times ≡ [] }
    {
        Index {
            schedule: Schedule::new(alloc, target),
            times: Times::new(alloc),
        }
    }

    /// Makes room for all places of a line. An error leaves what the index says.
    pub fn reserve_places(&mut self, line: &Line) -> Result<(), AllocError>
        ensures room { OnOk result (HasPlaces line.now self.new.schedule) }
        ensures least { length self.new.schedule.keys ≤ max (length self.old.schedule.keys) (length line.now.entries + line.now.spare) }
        ensures target { self.new.schedule.target ≡ self.old.schedule.target }
        ensures keyed { (n : ℕ) (entries : List (At × Entry)) → IsKeyed n entries self.old.schedule → IsKeyed n entries self.new.schedule }
        ensures times { self.new.times ≡ self.old.times }
    {
        self.schedule.reserve(line.places())
    }

    /// Makes room for one more window in a line, and for all its places in the index, and notes the time at which the window
    /// begins, which is after all others. An error leaves what both hold.
    pub fn reserve_window(&mut self, line: &mut Line, t: u64) -> Result<(), AllocError>
        requires few { length line.old.entries < MOST_PLACES }
        requires later { All (λ e. e.0 < t) self.old.times }
        ensures spare { OnOk result (1 ≤ line.new.spare) }
        ensures room { OnOk result (HasPlaces line.new self.new.schedule) }
        ensures entries { line.new.entries ≡ line.old.entries }
        ensures grows { line.old.spare ≤ line.new.spare }
        ensures few { line.new.spare ≤ max line.old.spare 1 }
        ensures least { length self.new.schedule.keys ≤ max (length self.old.schedule.keys) (length line.new.entries + line.new.spare) }
        ensures target { self.new.schedule.target ≡ self.old.schedule.target }
        ensures keyed { (n : ℕ) (entries : List (At × Entry)) → IsKeyed n entries self.old.schedule → IsKeyed n entries self.new.schedule }
        ensures noted { OnOk result (self.new.times ≡ self.old.times ++ (t, record { 0 = 0 }) ∷ []) }
        ensures err { OnErr result (self.new.times ≡ self.old.times) }
    {
        line.reserve(1)?;
        self.reserve_places(line)?;
        self.times.reserve(t)
    }

    /// Takes up the window at a place, which begins at a time, when n values are held: it is the next one of the line after
    /// those that the schedule is keyed for, and its time was noted last. It takes no memory.
    pub fn add_window<L: Ledger>(
        &mut self,
        line: &Line,
        at: At,
        n: u64,
        t: u64,
        steps: &mut Steps<L>,
    )
        requires stands { StandsIn line.now.entries at }
        requires room { at.0 < length self.old.schedule.keys }
        requires keyed { IsKeyed n (take (index_of line.now.entries at) line.now.entries) self.old.schedule }
        requires follow { FollowUpTo n (take (index_of line.now.entries at + 1) line.now.entries) }
        ensures keyed { IsKeyed n (take (index_of line.now.entries at + 1) line.now.entries) self.new.schedule }
        ensures target { self.new.schedule.target ≡ self.old.schedule.target }
        ensures room { length self.new.schedule.keys ≡ length self.old.schedule.keys }
        ensures placed { (before : List (ℕ × At)) (was : At) → self.old.times ≡ before ++ (t, was) ∷ [] → self.new.times ≡ before ++ (t, at) ∷ [] }
        ensures looks { steps.new ≤ steps.old + 3 }
    {
        self.schedule.add_window(line, at, n, steps);
        self.times.put(t, at);
    }

    /// Takes up the window at a place, which begins at a time after all others, when n values are held: it is the next one of
    /// the line after those that the index is of.
    pub fn push_window<L: Ledger>(
        &mut self,
        line: &Line,
        at: At,
        n: u64,
        t: u64,
        steps: &mut Steps<L>,
    ) -> Result<(), AllocError>
        requires stands { StandsIn line.now.entries at }
        requires room { at.0 < length self.old.schedule.keys }
        requires keyed { IsKeyed n (take (index_of line.now.entries at) line.now.entries) self.old.schedule }
        requires follow { FollowUpTo n (take (index_of line.now.entries at + 1) line.now.entries) }
        requires later { All (λ e. e.0 < t) self.old.times }
        ensures keyed { OnOk result (IsKeyed n (take (index_of line.now.entries at + 1) line.now.entries) self.new.schedule) }
        ensures noted { OnOk result (self.new.times ≡ self.old.times ++ (t, at) ∷ []) }
        ensures target { OnOk result (self.new.schedule.target ≡ self.old.schedule.target) }
        ensures room { OnOk result (length self.new.schedule.keys ≡ length self.old.schedule.keys) }
    {
        self.times.push(t, at)?;
        self.schedule.add_window(line, at, n, steps);
        Ok(())
    }

    /// Two neighbours of a line that may be one window when n values are held. None says that there are none.
    pub fn due<L: Ledger>(&self, line: &Line, n: u64, steps: &mut Steps<L>) -> Option<Pair>
        requires { IsKeyed n line.now.entries self.now.schedule }
        ensures pair { IfSome result (IsPairIn line.now.entries) }
        ensures due { IfSome result (λ pair. pair_may_join (merge_rule self.now.schedule) n pair ≡ true) }
        ensures none { IfNone result (NoPairFits (merge_rule self.now.schedule) n line.now.entries) }
        ensures looks { MatchOption result (steps.new ≡ steps.old) (λ _. steps.new ≤ steps.old + 2) }
    {
        self.schedule.due(line, n, steps)
    }

    /// Joins two neighbours of a line that may be one window when n values are held. The right one, which
    /// begins at a time, is cut out of the line, and its time is forgotten.
    pub fn merged<L: Ledger>(
        &mut self,
        line: &mut Line,
        pair: Pair,
        t: u64,
        n: u64,
        steps: &mut Steps<L>,
    )
        requires neighbours { IsPairIn line.old.entries pair }
        requires due { pair_may_join (merge_rule self.old.schedule) n pair ≡ true }
        requires keyed { IsKeyed n line.old.entries self.old.schedule }
        ensures joined { (it : AreSideBySide line.old.entries pair.left pair.right)
            → line.new.entries ≡ it.before ++ (pair.left, joined_entry it.window it.next) ∷ it.rest }
        ensures fewer { length line.new.entries + 1 ≡ length line.old.entries }
        ensures spare { line.new.spare ≡ line.old.spare + 1 }
        ensures keyed { IsKeyed n line.new.entries self.new.schedule }
        ensures target { self.new.schedule.target ≡ self.old.schedule.target }
        ensures room { length self.new.schedule.keys ≡ length self.old.schedule.keys }
        ensures times { (before behind : List (ℕ × At)) (was : At) → self.old.times ≡ before ++ (t, was) ∷ behind
            → self.new.times ≡ before ++ behind }
        ensures looks { steps.new ≤ steps.old + 6 }
    {
        self.schedule.merged(line, pair, n, steps);
        self.times.cut_out(t);
    }
}
