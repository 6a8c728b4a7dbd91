// How many windows of a stream stand once those that are due are joined.
ghost use Rattle.std.specs.Prelude.{◌≡◌, ◌≤◌, length};
ghost use Rattle.ss_targets.specs.Rule.{rule_of};
ghost use Rattle.ss_targets.specs.Targets.{params_of};
ghost use Rattle.ss_base.specs.declared.limits.TheConstants.{MOST_VALUES};
ghost use Rattle.ss_model.specs.ClosedState.{closed_stream};
ghost use Rattle.ss_model.specs.Standing.{IsStream};
ghost use Rattle.ss_model.specs.State.{Stream};
ghost use Rattle.ss_parts.specs.Held.{Agrees, TileFrom, entries_of};
ghost use Rattle.ss_stream.specs.Joining.{may_be_joined};

use crate::values_held;
use ss_base::Steps;
use ss_line::Entry;
use ss_parts::StreamParts;
use ss_targets::Target;
use std::sync::ledger::Ledger;

// Whether an entry and a later one, with all between them, may be one when n values are held.
fn may_be_joined(target: &Target, window: Entry, next: Entry, n: u64) -> bool
    requires first { 1 ≤ window.first }
    requires order { window.first ≤ next.last }
    requires taken { next.last ≤ n }
    requires few { n ≤ MOST_VALUES }
    ensures { result ≡ may_be_joined (rule_of (params_of target.now)) n window next }
{
    target.in_step(window.t_first, next.t_last) && target.fits(window.first, next.last, n)
}

/// How many windows a stream has once those that are due are joined. No window is read: the positions and the times say which
/// they are.
pub fn closed_windows<L: Ledger>(part: &StreamParts, steps: &mut Steps<L>) -> u32
    requires tiles { TileFrom 1 (entries_of part.now) }
    ensures windows { (s : Stream) → IsStream s → Agrees part.now s → result ≡ length (closed_stream s).windows }
    ensures few { result ≤ length part.now.line.entries }
{
    let Some(mut at) = part.line.first() else {
        return 0;
    };
    // Asked for the proof alone, here and below: with its length comes what holds of each line.
    let _len = part.line.len();
    let n = values_held(part, steps);
    let mut first = part.line.get(at, steps);
    let mut count = 1;
    while let Some(next) = part.line.neighbours(at, steps).1 {
        let entry = part.line.get(next, steps);
        if !may_be_joined(&part.target, first, entry, n) {
            first = entry;
            count += 1;
        }
        at = next;
    }
    count
}
