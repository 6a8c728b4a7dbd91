// Of how many values of a split window the mean is least or greatest, whatever else lies in the range. Where the sum of x values is
// straight, the mean rises all the way or falls, so it is at an end of a stretch.
ghost use Rattle.std.specs.Prelude.{◌≡◌, ◌^◌, ◌≤◌, IfSome};
ghost use Rattle.ss_bounds.specs.declared.side.Side.TheVariants.{Greatest, Least};
ghost use Rattle.ss_bounds.specs.Split.{IsSplit, greatest_count, least_count};
ghost use Rattle.ss_bounds.specs.Corners.{AreBends, AreCorners, AreCornersOf, AreSmall, IsSmall, fewest_of, sum_at};
ghost use Rattle.ss_bounds.specs.Means.{so_many};

use crate::bounds::count_bounds;
use crate::fraction::Fraction;
use crate::lines::turns;
use crate::side::{Side, sum_at};
use crate::split::Split;

// Some numbers of values, each with its sum: the fewest, the fewest but 0, those beside the crossing of the two lines, and the most.
#[derive(Clone, Copy, Debug)]
pub struct Corners {
    pub fewest: Fraction,
    pub some: Fraction,
    pub before: Fraction,
    pub after: Fraction,
    pub most: Fraction,
}

// What is needed of a window that may be there: its corners for either end, and how many of its values lie in the range for sure.
#[derive(Clone, Copy, Debug)]
pub struct Sides {
    pub least: Option<Corners>,
    pub greatest: Option<Corners>,
    pub fewest: u64,
}

pub fn sides_of(split: Option<Split>) -> Sides
    ensures least { AreCornersOf Least split result.least }
    ensures greatest { AreCornersOf Greatest split result.greatest }
    ensures small { IfSome result.least AreSmall × IfSome result.greatest AreSmall }
    ensures fewest { result.fewest ≡ fewest_of split }
    ensures few { result.fewest ≤ 2 ^ 40 }
{
    match split {
        None => Sides {
            least: None,
            greatest: None,
            fewest: 0,
        },
        Some(split) => Sides {
            least: Some(corners_of(Side::Least, split)),
            greatest: Some(corners_of(Side::Greatest, split)),
            fewest: count_bounds(split).0,
        },
    }
}

pub fn corners_of(side: Side, split: Split) -> Corners
    ensures split { IsSplit split }
    ensures corners { AreCorners (sum_at side split) (least_count split) (greatest_count split) result }
    ensures small { AreSmall result }
{
    // Read for the proof alone: with a field comes what holds of each split.
    let _count = split.count;
    let (fewest, most) = count_bounds(split);
    let (before, after) = bends(side, split, fewest, most);
    Corners {
        fewest: taken(side, split, fewest),
        some: taken(side, split, fewest.max(1).min(most)),
        before: taken(side, split, before),
        after: taken(side, split, after),
        most: taken(side, split, most),
    }
}

// The numbers beside the crossing point of the two lines, or the nearest from `fewest` to `most`.
fn bends(side: Side, split: Split, fewest: u64, most: u64) -> (u64, u64)
    requires order { fewest ≤ most }
    requires all { most ≤ split.count }
    ensures { AreBends (sum_at side split) fewest most result.0 result.1 }
{
    match side {
        Side::Least => turns(split, fewest, most),
        Side::Greatest => {
            let count = split.count;
            let (before, after) = turns(split, count - most, count - fewest);
            (count - after, count - before)
        }
    }
}

// So many values of the window.
fn taken(side: Side, split: Split, x: u64) -> Fraction
    requires { x ≤ split.count }
    ensures value { result ≡ so_many (sum_at side split) x }
    ensures small { IsSmall result }
{
    // Read for the proof alone: with a field comes what holds of each split.
    let _count = split.count;
    Fraction {
        over: sum_at(side, split, x),
        under: x,
    }
}
