// Streams that were read, and their indexes.
ghost use Rattle.std.specs.Prelude.{◌≡◌, ◌+◌, ◌<◌, ℕ, All, IfOk, OnOk, [], length, map, take};
ghost use Rattle.ss_line.specs.Line.{StandsIn, index_of};
ghost use Rattle.ss_schedule.specs.Keyed.{FollowUpTo, HasPlaces, IsKeyed};
ghost use Rattle.ss_parts.specs.Held.{TimesRise, entries_of};
ghost use Rattle.ss_stream.specs.Held.{IsOrdered, held_parts, values_held};
ghost use Rattle.ss_stream.specs.Indexed.{IsKeyedAt, IsKeyedFor, IsTimed};

use crate::closing::values_held;
use crate::held::HeldStream;
use ss_base::Steps;
use ss_line::{At, Line};
use ss_parts::StreamParts;
use ss_schedule::Index;
use std::alloc::{AllocError, Global};
use std::sync::ledger::Ledger;

// Takes up the window at a place of a line, which is the next one after those that the index is of.
fn push_window<L: Ledger>(
    line: &Line,
    index: &mut Index,
    at: At,
    n: u64,
    steps: &mut Steps<L>,
) -> Result<(), AllocError>
    requires stands { StandsIn line.now.entries at }
    requires room { at.0 < length index.old.schedule.keys }
    requires keyed { IsKeyed n (take (index_of line.now.entries at) line.now.entries) index.old.schedule }
    requires follow { FollowUpTo n (take (index_of line.now.entries at + 1) line.now.entries) }
    requires timed { IsTimed (take (index_of line.now.entries at) line.now.entries) index.old.times }
    requires rise { (last : ℕ) × TimesRise 0 last (map (λ e. e.1) line.now.entries) }
    ensures keyed { OnOk result (IsKeyed n (take (index_of line.now.entries at + 1) line.now.entries) index.new.schedule) }
    ensures timed { OnOk result (IsTimed (take (index_of line.now.entries at + 1) line.now.entries) index.new.times) }
    ensures target { OnOk result (index.new.schedule.target ≡ index.old.schedule.target) }
    ensures room { OnOk result (length index.new.schedule.keys ≡ length index.old.schedule.keys) }
{
    let t = line.get(at, steps).t_first;
    index.push_window(line, at, n, t, steps)
}

// Takes up each of a stream's windows, in order.
fn add_windows<L: Ledger>(
    part: &StreamParts,
    index: &mut Index,
    n: u64,
    steps: &mut Steps<L>,
) -> Result<(), AllocError>
    requires target { index.old.schedule.target ≡ part.now.target }
    requires fresh { IsKeyed n [] index.old.schedule }
    requires none { index.old.times ≡ [] }
    requires ordered { IsOrdered part.now }
    requires all { n ≡ values_held (entries_of part.now) }
    requires room { HasPlaces part.now.line index.old.schedule }
    ensures { OnOk result (IsKeyedAt n part.now index.new) }
{
    let Some(mut at) = part.line.first() else {
        return Ok(());
    };
    // Each place lies below their number.
    let _places = part.line.places();
    push_window(&part.line, index, at, n, steps)?;
    while let Some(next) = part.line.neighbours(at, steps).1 {
        push_window(&part.line, index, next, n, steps)?;
        at = next;
    }
    Ok(())
}

// A stream with its index.
fn held_with_index<L: Ledger>(
    alloc: Global,
    part: StreamParts,
    steps: &mut Steps<L>,
) -> Result<HeldStream, AllocError>
    requires { IsOrdered part }
    ensures part { IfOk result (λ stream. stream.part ≡ part) }
    ensures keyed { IfOk result IsKeyedFor }
{
    let n = values_held(&part, steps);
    let mut index = Index::new(alloc, part.target);
    index.reserve_places(&part.line)?;
    add_windows(&part, &mut index, n, steps)?;
    Ok(HeldStream { part, index })
}

/// Streams that were read, each with its index, in order.
pub fn held_streams<L: Ledger>(
    alloc: Global,
    parts: Vec<StreamParts>,
    steps: &mut Steps<L>,
) -> Result<Vec<HeldStream>, AllocError>
    requires { All IsOrdered parts.items }
    ensures parts { IfOk result (λ streams. held_parts streams.items ≡ parts.items) }
    ensures keyed { IfOk result (λ streams. All IsKeyedFor streams.items) }
{
    let mut streams = Vec::with_capacity(alloc, parts.len())?;
    for part in parts {
        streams.push(held_with_index(alloc, part, steps)?)?;
    }
    Ok(streams)
}
