// Pairs of neighbours.
ghost use Rattle.std.specs.Prelude.{◌≡◌, ◌+◌, ◌≤◌, ◌∷◌, ◌++◌, length, Some, None, IfSome, IfNone};
ghost use Rattle.ss_line.specs.Line.{IsLine, StandsIn, entry_at, index_of, place_at, place_before};
ghost use Rattle.ss_schedule.specs.Pairs.{AreSideBySide, IsPairIn, joined_entry, pair_at};

use ss_base::Steps;
use ss_line::{At, Entry, Line};
use std::sync::ledger::Ledger;

/// Two neighbours in a line: the places of the left and of the right one, and the positions, counted from 1, and the times
/// of the first and the last value that they have together.
#[derive(Clone, Copy, Debug, PartialEq, Eq)]
pub struct Pair {
    pub left: At,
    pub right: At,
    pub first: u64,
    pub last: u64,
    pub t_first: u64,
    pub t_last: u64,
}

/// The pair of the entry before the one at a place and that one, if there is one before it.
pub fn pair_before<L: Ledger>(
    line: &Line,
    before: Option<At>,
    at: At,
    entry: Entry,
    steps: &mut Steps<L>,
) -> Option<Pair>
    requires stands { StandsIn line.now.entries at }
    requires entry { entry_at line.now.entries at ≡ Some entry }
    requires before { before ≡ place_before line.now.entries (index_of line.now.entries at) }
    requires before_stands { IfSome before (StandsIn line.now.entries) }
    ensures pair { result ≡ pair_at line.now.entries at }
    ensures look { steps.new ≤ steps.old + 1 }
{
    // Asked for the proof alone, here and below: with its length comes what holds of each line.
    let _len = line.len();
    let left = before?;
    let window = line.get(left, steps);
    Some(Pair {
        left,
        right: at,
        first: window.first,
        last: entry.last,
        t_first: window.t_first,
        t_last: entry.t_last,
    })
}

/// The pair of the entry at a place and the one behind it, if there is one.
pub fn pair_behind<L: Ledger>(
    line: &Line,
    at: At,
    entry: Entry,
    behind: Option<At>,
    steps: &mut Steps<L>,
) -> Option<Pair>
    requires stands { StandsIn line.now.entries at }
    requires entry { entry_at line.now.entries at ≡ Some entry }
    requires behind { behind ≡ place_at line.now.entries (index_of line.now.entries at + 1) }
    requires behind_stands { IfSome behind (StandsIn line.now.entries) }
    ensures none { IfNone result (behind ≡ None) }
    ensures pair { IfSome result (λ pair. (behind ≡ Some pair.right) × (pair_at line.now.entries pair.right ≡ Some pair)) }
    ensures look { steps.new ≤ steps.old + 1 }
{
    let _len = line.len();
    let right = behind?;
    let next = line.get(right, steps);
    Some(Pair {
        left: at,
        right,
        first: entry.first,
        last: next.last,
        t_first: entry.t_first,
        t_last: next.t_last,
    })
}

/// Joins two neighbours at the place of the left one, and gives the entry that they make.
pub fn join<L: Ledger>(line: &mut Line, pair: Pair, steps: &mut Steps<L>) -> Entry
    requires { IsPairIn line.old.entries pair }
    ensures joined { (it : AreSideBySide line.old.entries pair.left pair.right)
        → line.new.entries ≡ it.before ++ (pair.left, joined_entry it.window it.next) ∷ it.rest }
    ensures entry { entry_at line.new.entries pair.left ≡ Some result }
    ensures stands { StandsIn line.new.entries pair.left }
    ensures line { IsLine line.new }
    ensures fewer { length line.new.entries + 1 ≡ length line.old.entries }
    ensures spare { line.new.spare ≡ line.old.spare + 1 }
    ensures look { steps.new ≡ steps.old + 3 }
{
    let next = line.cut_out(pair.right, steps);
    let window = line.get(pair.left, steps);
    let joined = Entry {
        last: next.last,
        t_last: next.t_last,
        ..window
    };
    line.set(pair.left, joined, steps);
    let _len = line.len();
    joined
}
