// The newest value of a stream.
ghost use Rattle.std.specs.Prelude.{◌≡◌, ◌+◌, length, option_map, IfSome};
ghost use Rattle.ss_landmarks.specs.Newest.{newest_value};
ghost use Rattle.ss_line.specs.Line.{StandsIn, index_of};
ghost use Rattle.ss_model.specs.Newest.{known_exactly, newest_told};
ghost use Rattle.ss_store.specs.Newest.{is_newer, newest_place};

use super::Store;
use crate::AskError;
use ss_base::Steps;
use ss_catalog::{Name, Refusal, StreamId};
use ss_landmarks::Landmarks;
use ss_line::At;
use ss_model::{Known, Newest};
use ss_outside::Disk;
use ss_parts::StreamParts;
use std::marker::Brand;
use std::sync::ledger::{Blank, Ledger};

// What is told of a last time and of the newest value.
fn told(last_time: Option<u64>, known: Option<Known>) -> Newest
    ensures { result ≡ newest_told last_time known }
{
    match last_time {
        None => Newest::Nothing,
        Some(last) => match known {
            None => Newest::Time(last),
            Some(known) => Newest::Value {
                last,
                at: known.at,
                lo: known.lo,
                hi: known.hi,
            },
        },
    }
}

// The newest value of landmarks, which is known exactly.
fn known_kept(landmarks: &Landmarks) -> Option<Known>
    ensures { result ≡ option_map known_exactly (newest_value landmarks.now.landmarks) }
{
    match landmarks.newest() {
        None => None,
        Some((at, value)) => Some(Known {
            at,
            lo: value,
            hi: value,
        }),
    }
}

// Whether a time is later than that of the newest value of landmarks, where they have one.
fn is_newer(landmarks: &Landmarks, t: u64) -> bool
    ensures { result ≡ is_newer (newest_value landmarks.now.landmarks) t }
{
    match landmarks.newest() {
        None => true,
        Some((at, _)) => at < t,
    }
}

// The place of the newest window, if its newest value is newer than each of landmarks.
fn newest_place<L: Ledger>(part: &StreamParts, steps: &mut Steps<L>) -> Option<At>
    ensures place { result ≡ newest_place part.now }
    ensures stands { IfSome result (StandsIn part.now.line.entries) }
    ensures last { IfSome result (λ at. index_of part.now.line.entries at + 1 ≡ length part.now.line.entries) }
{
    // Asked for the proof alone: with its length comes what holds of each line.
    let _len = part.line.len();
    let at = part.line.last()?;
    let entry = part.line.get(at, steps);
    if is_newer(&part.landmarks, entry.t_last) {
        Some(at)
    } else {
        None
    }
}

impl Store {
    ghost use Rattle.std.specs.Prelude.{◌≡◌, ◌≢◌, ◌↔◌, true, false, Some, IsSome, IfSome, Err};
    ghost use Rattle.std.specs.List.{Contains};
    ghost use Rattle.ss_outside.specs.Step.{Step};
    ghost use Rattle.ss_outside.specs.Verdict.{IfChanged, IfUndone};
    ghost use Rattle.ss_catalog.specs.declared.refusal.Refusal.{Refusal};
    ghost use Rattle.ss_base.specs.Steps.{IsFresh};
    ghost use Rattle.ss_parts.specs.Held.{window_slots_of};
    ghost use Rattle.ss_store.specs.Applied.{Looks, StandsOn};
    ghost use Rattle.ss_store.specs.Errors.{verdict_of_ask};
    ghost use Rattle.ss_store.specs.Kept.{part_named, part_numbered};
    ghost use Rattle.ss_store.specs.Newest.{TellsNewest, refuses_reading_held};

    /// How far the stream of a name has come, and what is known of its newest value. It writes nothing, takes no memory, and reads one
    /// window at most: the newest one, where its newest value is newer than each of landmarks. A refusal makes no call of the disk.
    pub fn newest<D: Disk>(&mut self, disk: &mut D, name: &Name) -> Result<Newest, AskError>
        requires one_disk { StandsOn self.old (D.seen disk.old) }
        // What is told of the stream of the state that is shown, with what is staged.
        ensures tells { Step (verdict_of_ask result) (D.seen disk.old) (D.seen disk.new) (TellsNewest self.old.records name.now result) }
        ensures looks { Looks (verdict_of_ask result) self.old self.new (D.seen disk.old) (D.seen disk.new) }
        // A slot that has changed is that of a window of the stream.
        ensures changed { IfChanged (verdict_of_ask result) (λ slot. IfSome (part_named name.now self.old.streams) (λ part.
            Contains (window_slots_of part) slot)) }
        // Stopped comes first, exactly where the store had stopped, and then the refusal exactly where it applies.
        ensures stopped { (result ≡ Err AskError.Stopped) ↔ (self.old.stopped ≡ true) }
        ensures refused { self.old.stopped ≡ false → (r : Refusal) →
            (result ≡ Err (AskError.Refused r)) ↔ (refuses_reading_held self.old.streams name.now ≡ Some r) }
        ensures uncalled { IfUndone (verdict_of_ask result) (disk.new ≡ disk.old) }
        ensures same { IfUndone (verdict_of_ask result) (self.new ≡ self.old) }
        ensures idle { self.old.stopped ≡ true → (self.new ≡ self.old) × (disk.new ≡ disk.old) }
    {
        if self.stopped {
            return Err(AskError::Stopped);
        }
        match self.find(name) {
            None => Err(AskError::Refused(Refusal::Unknown)),
            Some(id) => self.newest_of::<D, Brand>(disk, name, id, Blank::new(1)),
        }
    }

    // The same of the stream of a name that has a number, where the store hasn't stopped.
    fn newest_of<D: Disk, L: Ledger>(
        &mut self,
        disk: &mut D,
        name: &Name,
        id: StreamId,
        blank: Blank,
    ) -> Result<Newest, AskError>
        requires fresh { IsFresh L.name L.parts blank }
        requires stands { IsSome (part_numbered id.0 self.old.streams) }
        requires same { part_numbered id.0 self.old.streams ≡ part_named name.now self.old.streams }
        requires runs { self.old.stopped ≡ false }
        requires one_disk { StandsOn self.old (D.seen disk.old) }
        ensures tells { Step (verdict_of_ask result) (D.seen disk.old) (D.seen disk.new) (TellsNewest self.old.records name.now result) }
        ensures looks { Looks (verdict_of_ask result) self.old self.new (D.seen disk.old) (D.seen disk.new) }
        ensures changed { IfChanged (verdict_of_ask result) (λ slot. IfSome (part_named name.now self.old.streams) (λ part.
            Contains (window_slots_of part) slot)) }
        ensures running { result ≢ Err AskError.Stopped }
        ensures unrefused { (r : Refusal) → result ≢ Err (AskError.Refused r) }
    {
        let part = self.part(id);
        let last_time = part.last_time;
        let kept = known_kept(&part.landmarks);
        match newest_place(part, &mut Steps::<L>::new(blank)) {
            None => Ok(told(last_time, kept)),
            Some(at) => {
                let summary = self.window_read(disk, id, at)?.summary;
                let known = Known {
                    at: summary.t_last,
                    lo: summary.min,
                    hi: summary.max,
                };
                Ok(told(last_time, Some(known)))
            }
        }
    }
}
