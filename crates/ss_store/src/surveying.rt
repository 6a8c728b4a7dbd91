// What a disk holds, counted without a write.
ghost use Rattle.std.specs.Prelude.{◌≡◌, ◌≤◌, All, List};
ghost use Rattle.ss_journal.specs.declared.format.TheConstants.{MOST_SLOTS};
ghost use Rattle.ss_base.specs.Steps.{IsFresh};
ghost use Rattle.ss_model.specs.ClosedState.{closed_state};
ghost use Rattle.ss_model.specs.Standing.{IsState};
ghost use Rattle.ss_model.specs.State.{Stream};
ghost use Rattle.ss_parts.specs.Held.{AllAgree, TileFrom, entries_of};
ghost use Rattle.ss_outside.specs.Step.{Step};
ghost use Rattle.ss_outside.specs.Verdict.{IsFirm};
ghost use Rattle.ss_store.specs.Applied.{SurveysStore};
ghost use Rattle.ss_store.specs.Errors.{verdict_of_opening};
ghost use Rattle.ss_store.specs.Surveyed.{survey_of};
ghost use Rattle.ss_store.specs.Kept.{live_held};

use crate::opening::read_all;
use crate::{OpenError, Store};
use ss_base::Steps;
use ss_outside::Disk;
use ss_parts::StreamParts;
use ss_stream::closed_windows;
use std::alloc::Global;
use std::marker::Brand;
use std::sync::ledger::{Blank, Ledger};

/// How many streams, windows, landmarks and values of landmarks a store holds once the merges that are due are made.
#[derive(Clone, Copy, Debug, PartialEq, Eq)]
pub struct Survey {
    pub streams: u32,
    pub windows: u32,
    pub landmarks: u32,
    pub values: u32,
}

// What some streams have, once the merges that are due are made.
fn surveyed<L: Ledger>(streams: &[StreamParts], steps: &mut Steps<L>) -> Survey
    requires tiles { All (λ part. TileFrom 1 (entries_of part)) streams.now }
    requires few { live_held streams.now ≤ MOST_SLOTS }
    ensures { (all : List Stream) → IsState all → AllAgree streams.now all → result ≡ survey_of (closed_state all) }
{
    let mut survey = Survey {
        streams: 0,
        windows: 0,
        landmarks: 0,
        values: 0,
    };
    for part in streams {
        survey.streams += 1;
        survey.windows += closed_windows(part, steps);
        survey.landmarks += part.landmarks.count();
        survey.values += part.landmarks.values();
    }
    survey
}

// The same, with a counter.
fn surveyed_in<L: Ledger>(streams: &[StreamParts], blank: Blank) -> Survey
    requires fresh { IsFresh L.name L.parts blank }
    requires tiles { All (λ part. TileFrom 1 (entries_of part)) streams.now }
    requires few { live_held streams.now ≤ MOST_SLOTS }
    ensures { (all : List Stream) → IsState all → AllAgree streams.now all → result ≡ survey_of (closed_state all) }
{
    surveyed(streams, &mut Steps::<L>::new(blank))
}

impl Store {
    /// Says what the store on a disk holds once the merges that are due are made, and makes none of them: nothing is
    /// written. Entries in use count as if they were settled. An error is that of `Store::open`, which it gives in its place.
    pub fn survey<D: Disk>(alloc: Global, disk: &mut D) -> Result<Survey, OpenError>
        // What the state has to which the content recovers, or why it recovers to none. Nothing is written.
        ensures surveys { Step (verdict_of_opening result) (D.seen disk.old) (D.seen disk.new) (SurveysStore result) }
        // Over every disk no record has changed: each was read once.
        ensures unchanged { IsFirm (verdict_of_opening result) }
    {
        let (records, parts) = read_all(alloc, disk)?;
        // Each slot that is live is one of those that a disk has.
        let _live = records.live();
        Ok(surveyed_in::<Brand>(&parts.streams, Blank::new(1)))
    }
}
