// A walk over the windows of one stream, for a query.
ghost use Rattle.std.specs.Prelude.{◌≡◌, ◌+◌, ◌*◌, ◌<◌, ◌≤◌, All, IfOk};
ghost use Rattle.std.specs.List.{Contains};
ghost use Rattle.ss_outside.specs.Disk.{OfContent};
ghost use Rattle.ss_outside.specs.Step.{Step};
ghost use Rattle.ss_outside.specs.Verdict.{IfChanged};
ghost use Rattle.ss_journal.specs.Kept.{IsRunning};
ghost use Rattle.ss_journal.specs.declared.format.TheConstants.{MOST_SLOTS};
ghost use Rattle.ss_records.specs.Kept.{AreKept};
ghost use Rattle.ss_parts.specs.Places.{BeginsAt, BeginsNear};
ghost use Rattle.ss_parts.specs.Held.{window_slots_of};
ghost use Rattle.ss_parts.specs.Reading.{KeepsRecords, verdict_of_read};
ghost use Rattle.ss_query.specs.Answered.{SeesEntry, SeesStream, begun_in};
ghost use Rattle.ss_query.specs.Asked.{HasCuts, HasRoom, IsFewMarked};

use crate::Seen;
use crate::asking::{follows, nothing_seen, with_window};
use ss_base::Steps;
use ss_catalog::Query;
use ss_line::{At, Entry};
use ss_model::Window;
use ss_outside::Disk;
use ss_parts::{ReadError, StreamParts, read_window};
use ss_records::Records;
use std::sync::ledger::Ledger;

// What is known with the window of an entry that begins by the end of the range. Its record is read only where it doesn't end
// before the range.
fn see_entry<D: Disk, R: Ledger, S: Ledger>(
    records: &mut Records,
    disk: &mut D,
    part: &StreamParts,
    query: &Query,
    entry: Entry,
    seen: Seen,
    reads: &mut Steps<R>,
    searches: &mut Steps<S>,
) -> Result<Seen, ReadError>
    requires order { query.now.from ≤ query.now.to }
    requires begins { entry.t_first ≤ query.now.to }
    requires open { HasRoom seen × HasCuts seen }
    requires running { IsRunning records.old.journal }
    requires slot { entry.slot < MOST_SLOTS }
    requires one_disk { OfContent (D.seen disk.old) (AreKept records.old) }
    ensures sees { Step (verdict_of_read result) (D.seen disk.old) (D.seen disk.new)
        (SeesEntry part.now query.now entry seen records.old records.new result) }
    ensures room { IfOk result (λ now. HasRoom now × (now.marked ≡ seen.marked)) }
    ensures cuts { IfOk result HasCuts }
    ensures changed { IfChanged (verdict_of_read result) (λ slot. slot ≡ entry.slot) }
    ensures records { KeepsRecords (verdict_of_read result) records.old records.new }
    ensures few { (reads.new ≤ reads.old + 1) × (searches.new + 7 * reads.old ≤ searches.old + 7 * reads.new) }
{
    if entry.t_last < query.from {
        return Ok(seen);
    }
    let window = Window {
        first: entry.first,
        summary: read_window(records, disk, part, entry, reads, searches)?,
    };
    if !follows(seen, &window) {
        return Err(ReadError::Changed { slot: entry.slot });
    }
    Ok(with_window(seen, query, &part.landmarks, &window, searches))
}

/// What is known of a stream for a query: it tallies the values of landmarks in the range, and reads the records of those
/// windows, oldest first, that have times in the range. It begins at a place before which each window ends before the range,
/// and looks at each window from there on, up to the first that begins after the range. It writes nothing, and takes no memory.
pub fn see_from<D: Disk, L: Ledger, R: Ledger, S: Ledger>(
    part: &StreamParts,
    start: Option<At>,
    records: &mut Records,
    disk: &mut D,
    query: &Query,
    steps: &mut Steps<L>,
    reads: &mut Steps<R>,
    searches: &mut Steps<S>,
) -> Result<Seen, ReadError>
    requires begins { BeginsAt part.now.line.entries query.now.from start }
    requires order { query.now.from ≤ query.now.to }
    requires running { IsRunning records.old.journal }
    requires slots { All (λ slot. slot < MOST_SLOTS) (window_slots_of part.now) }
    requires one_disk { OfContent (D.seen disk.old) (AreKept records.old) }
    // What is known of the stream whose records the content has, each in the slot where it is held.
    ensures sees { Step (verdict_of_read result) (D.seen disk.old) (D.seen disk.new)
        (SeesStream part.now query.now records.old records.new result) }
    // Over every disk the values of landmarks are few, and the cut windows are such as a range may split.
    ensures marked { IfOk result (λ seen. IsFewMarked seen.marked) }
    ensures cuts { IfOk result HasCuts }
    // A slot that has changed is that of a window.
    ensures changed { IfChanged (verdict_of_read result) (Contains (window_slots_of part.now)) }
    ensures records { KeepsRecords (verdict_of_read result) records.old records.new }
    // Two looks at the first window, two at each other one that begins in the range, and one at the one after these; one record
    // for each window that begins in the range, and one for the first.
    ensures few { BeginsNear part.now.line.entries query.now.from start
        → (steps.new ≤ steps.old + 2 * begun_in query.now.from query.now.to part.now.line.entries + 3)
        × (reads.new ≤ reads.old + begun_in query.now.from query.now.to part.now.line.entries + 1) }
    // Seven searches of the landmarks for each record that is read.
    ensures few_searches { searches.new + 7 * reads.old ≤ searches.old + 7 * reads.new }
{
    // Asked for the proof alone: with these come what holds of each line, and of all landmarks.
    let _len = part.line.len();
    let _known = part.landmarks.count();
    let mut seen = nothing_seen(query, &part.landmarks);
    let mut next = start;
    while let Some(at) = next {
        let entry = part.line.get(at, steps);
        if query.to < entry.t_first {
            return Ok(seen);
        }
        seen = see_entry(records, disk, part, query, entry, seen, reads, searches)?;
        next = part.line.neighbours(at, steps).1;
    }
    Ok(seen)
}
