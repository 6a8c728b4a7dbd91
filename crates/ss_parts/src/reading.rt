// Window records, read again.
ghost use Rattle.std.specs.Prelude.{◌≡◌, ◌↔◌, ◌+◌, ◌<◌, ◌≤◌, Some, IsTrue, IfSome, IfNone, IfOk};
ghost use Rattle.ss_outside.specs.Disk.{OfContent};
ghost use Rattle.ss_outside.specs.Step.{Step};
ghost use Rattle.ss_outside.specs.Verdict.{IfChanged};
ghost use Rattle.ss_journal.specs.Kept.{IsRunning};
ghost use Rattle.ss_journal.specs.declared.format.TheConstants.{MOST_SLOTS};
ghost use Rattle.ss_records.specs.Kept.{AreKept};
ghost use Rattle.ss_codec.specs.declared.record.Record.{Record};
ghost use Rattle.ss_model.specs.Marks.{lies_free};
ghost use Rattle.ss_model.specs.declared.types.Window.{Window};
ghost use Rattle.ss_parts.specs.Held.{span_held, span_of, times_held, times_of, window_record};
ghost use Rattle.ss_parts.specs.Reading.{IsWindowOf, KeepsRecords, ReadsWindow, verdict_of_read};

use crate::{ReadError, StreamParts, lies_free};
use ss_base::Steps;
use ss_catalog::StreamId;
use ss_codec::{Record, decode};
use ss_line::Entry;
use ss_model::Window;
use ss_outside::Disk;
use ss_records::Records;
use ss_summary::Summary;
use std::sync::ledger::Ledger;

// Whether a window with this first position and this summary has the positions of the entry.
fn is_placed_as(first: u64, summary: Summary, entry: Entry) -> bool
    ensures same { IsTrue result ↔ ((first ≡ entry.first) × (first + summary.count ≡ entry.last + 1)) }
    ensures some { 1 ≤ summary.count }
{
    let more = summary.count - 1;
    first == entry.first && first <= entry.last && entry.last - first == more
}

// Whether it has the times of the entry.
fn is_timed_as(summary: Summary, entry: Entry) -> bool
    ensures { IsTrue result ↔ ((summary.t_first ≡ entry.t_first) × (summary.t_last ≡ entry.t_last)) }
{
    summary.t_first == entry.t_first && summary.t_last == entry.t_last
}

// The summary of what a slot spells, if that is the window of this entry.
fn summary_of(spelled: Option<Record>, id: StreamId, entry: Entry) -> Option<Summary>
    ensures some { IfSome result (λ summary. (spelled ≡ Some (Record.Window id.0 entry.first summary))
        × (entry.first + summary.count ≡ entry.last + 1) × (times_held entry ≡ (summary.t_first, summary.t_last))) }
    ensures none { IfNone result ((w : Window) → spelled ≡ Some (window_record id.0 w) → span_held entry ≡ span_of w
        → ¬ (times_held entry ≡ times_of w)) }
{
    match spelled? {
        Record::Window {
            id: number,
            first,
            summary,
        } if number == id.0 && is_placed_as(first, summary, entry) && is_timed_as(summary, entry) =>
            { Some(summary) }
        _ => None,
    }
}

// Whether a window of this summary lies among the landmarks of its stream as one has to.
fn lies_among_landmarks<S: Ledger>(
    part: &StreamParts,
    entry: Entry,
    summary: Summary,
    searches: &mut Steps<S>,
) -> bool
    ensures searches { searches.new ≤ searches.old + 3 }
    ensures free { result ≡ lies_free part.now.landmarks.landmarks (record { first = entry.first; summary = summary }) }
{
    let first = entry.first;
    // Read for the proof alone: with a field comes what holds of each summary.
    let _count = summary.count;
    lies_free(&part.landmarks, &Window { first, summary }, searches)
}

/// The summary of a window that is held, read from its record. It writes nothing. Each call is one read of a record, and three
/// searches of the landmarks at most.
pub fn read_window<D: Disk, R: Ledger, S: Ledger>(
    records: &mut Records,
    disk: &mut D,
    part: &StreamParts,
    entry: Entry,
    reads: &mut Steps<R>,
    searches: &mut Steps<S>,
) -> Result<Summary, ReadError>
    requires running { IsRunning records.old.journal }
    requires slot { entry.slot < MOST_SLOTS }
    requires one_disk { OfContent (D.seen disk.old) (AreKept records.old) }
    // The window of the record that lies in the slot of the entry.
    ensures reads { Step (verdict_of_read result) (D.seen disk.old) (D.seen disk.new)
        (ReadsWindow part.now entry records.old records.new result) }
    // Over every disk it has as many values as its positions say and the times that are held, and lies among the landmarks as a
    // window has to.
    ensures window { IfOk result (IsWindowOf part.now entry) }
    ensures changed { IfChanged (verdict_of_read result) (λ slot. slot ≡ entry.slot) }
    ensures records { KeepsRecords (verdict_of_read result) records.old records.new }
    ensures one_read { reads.new ≡ reads.old + 1 }
    ensures searches { searches.new ≤ searches.old + 3 }
{
    let bytes = records.read(disk, entry.slot, reads)?;
    match summary_of(decode(&bytes), part.id, entry) {
        Some(summary) if lies_among_landmarks(part, entry, summary, searches) => Ok(summary),
        _ => Err(ReadError::Changed { slot: entry.slot }),
    }
}
