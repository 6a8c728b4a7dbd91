// The real disk: a file. It tells nothing of its bytes.
ghost use Rattle.std.specs.Prelude.{◌≡◌, ◌⊎◌, ◌+◌, ◌<◌, ◌≤◌, ◌^◌, ℕ, List, length, string_bytes, None, Some, IsErr, IsFalse, IsSome, IfErr, IfOk, OnOk};
ghost use Rattle.ss_outside.specs.Disk.{IsReadFrom};
ghost use Rattle.ss_outside.specs.Memory.{one_more};
ghost use Rattle.ss_outside.specs.Verdict.{Rose};
ghost use Rattle.ss_file.specs.FileDisk.{EndsAfterFault, IsFaultless, KeepsFile, LooksAtFile, TellsWhy};
ghost use Rattle.ss_file.specs.Opening.{IsNative, IsSettledAs, MayHold, StaysHeld, is_writable};
ghost use Rattle.ss_file.specs.Reason.{IsCaused, IsOwn, own};
ghost use Rattle.ss_file.specs.System.{Synced, Unwritten};

#[cfg(test)]
mod tests;

use crate::judge::judge;
use crate::opening::{Missing, Opened, open};
use crate::reading::read_whole;
use crate::reason::{Reason, Trouble};
use crate::system::System;
use crate::writing::write_whole;
use ss_journal::{ENTRY_SIZE, FIRST_ENTRY, FIRST_SLOT};
use ss_outside::{Disk, Failed};

/// A file. It is opened at the first call, and made where there is none, if it is to be. What it holds then is durable
/// before any of it is read, unless it may only be read. After a fault each call fails, and none of the system is made, so
/// a sync that failed is not tried again.
#[derive(Drop)]
pub struct FileDisk<S> {
    system: S,
    path: String,
    missing: Missing,
    opened: Option<Opened>,
    faults: u64,
    why: Option<Reason>,
}

// Whether a store that is being settled writes there first: a slot, or the gate of an entry. A commit begins behind a gate,
// and a birth in front of all entries.
fn is_settled_at(at: u64) -> bool {
    at >= FIRST_SLOT || (at >= FIRST_ENTRY && (at - FIRST_ENTRY) % ENTRY_SIZE as u64 == 0)
}

// Why nothing can be written at a place of a file that may only be read.
fn read_only_at(at: u64) -> Reason
    ensures { (result ≡ own Trouble.ReadOnly) ⊎ (result ≡ own Trouble.ReadOnlyWithWork) }
{
    Reason::own(if is_settled_at(at) {
        Trouble::ReadOnlyWithWork
    } else {
        Trouble::ReadOnly
    })
}

impl<S: System> FileDisk<S> {
    pub fn new(system: S, path: String, missing: Missing) -> FileDisk<S>
        ensures count { IsFaultless result.faults result.why }
        ensures missing { result.missing ≡ missing }
        ensures held { StaysHeld result.missing result.opened (S.holds result.system) }
    {
        FileDisk {
            system,
            path,
            missing,
            opened: None,
            faults: 0,
            why: None,
        }
    }

    /// Why the first call that failed did so.
    pub fn why(&self) -> Option<Reason> {
        self.why
    }

    /// The path that it was made with.
    pub fn path(&self) -> &str {
        self.path.as_str()
    }

    /// What stands behind it, once a call has been answered.
    pub fn opened(&self) -> Option<Opened> {
        self.opened
    }

    /// Fails from now on: no further call of the system is made. This is why, if no call has failed before.
    pub fn refuse(&mut self, trouble: Trouble)
        ensures ends { self.new.faults ≡ one_more self.old.faults }
        ensures why { self.old.why ≡ None → self.new.why ≡ Some (own trouble) }
        ensures first { IsSome self.old.why → self.new.why ≡ self.old.why }
        ensures same { self.new ≡ record self.old { faults = self.new.faults; why = self.new.why } }
    {
        let refusal: Result<(), Reason> = Err(Reason::own(trouble));
        let _ = judge(refusal, &mut self.faults, &mut self.why);
    }

    // Opens the file at the first call. After a fault nothing is done any more.
    fn ready(&mut self) -> Result<Opened, Reason>
        ensures ends { EndsAfterFault self.old.faults self.new.faults self.old.why self.new.why (IsErr result) (self.new ≡ self.old) }
        ensures opens { IfOk result (λ opened. self.new.opened ≡ Some opened) }
        ensures settled { self.old.opened ≡ None →
            IfOk result (λ opened. IsSettledAs opened (S.holds self.new.system)) }
        ensures native { self.old.opened ≡ None → OnOk result ((image : List ℕ) →
            MayHold self.new.opened (S.fits self.new.system) image → IsNative image) }
        ensures looks { LooksAtFile self.old.missing self.old.opened (S.holds self.old.system)
            self.new.missing self.new.opened (S.holds self.new.system) }
        ensures counts { S.faults self.old.system ≤ S.faults self.new.system }
        ensures blames { IfErr result (λ reason. IsSome reason.error → Rose (S.faults self.old.system) (S.faults self.new.system)) }
        ensures own { self.old.faults ≡ 0 → IfErr result (λ reason. reason.error ≡ None →
            IsOwn (string_bytes self.old.path) self.new.opened (S.holds self.new.system) (S.fits self.new.system) reason.trouble) }
    {
        if self.faults > 0 {
            return Err(Reason::own(Trouble::FailedBefore));
        }
        if let Some(opened) = self.opened {
            return Ok(opened);
        }
        let opened = open(&mut self.system, self.path.as_str(), self.missing)?;
        self.opened = Some(opened);
        Ok(opened)
    }

    fn try_len(&mut self) -> Result<u64, Reason>
        ensures ends { EndsAfterFault self.old.faults self.new.faults self.old.why self.new.why (IsErr result) (self.new ≡ self.old) }
        ensures measures { IfOk result (λ answer. (image : List ℕ) →
            MayHold self.new.opened (S.fits self.new.system) image → answer ≡ length image) }
        ensures looks { LooksAtFile self.old.missing self.old.opened (S.holds self.old.system)
            self.new.missing self.new.opened (S.holds self.new.system) }
        ensures counts { S.faults self.old.system ≤ S.faults self.new.system }
        ensures blames { IfErr result (λ reason. IsSome reason.error → Rose (S.faults self.old.system) (S.faults self.new.system)) }
        ensures own { self.old.faults ≡ 0 → IfErr result (λ reason. reason.error ≡ None →
            IsOwn (string_bytes self.old.path) self.new.opened (S.holds self.new.system) (S.fits self.new.system) reason.trouble) }
    {
        if self.ready()? == Opened::Nothing {
            return Ok(0);
        }
        match self.system.len() {
            Ok(length) => Ok(length),
            Err(error) => Err(Reason::of(error, Trouble::NotRead)),
        }
    }

    fn try_read(&mut self, at: u64, into: &mut [u8]) -> Result<(), Reason>
        ensures ends { EndsAfterFault self.old.faults self.new.faults self.old.why self.new.why (IsErr result) (self.new ≡ self.old) }
        ensures reads { at + length into.old < 2 ^ 64 → OnOk result ((image : List ℕ) →
            MayHold self.new.opened (S.fits self.new.system) image → IsReadFrom image at into.new) }
        ensures looks { LooksAtFile self.old.missing self.old.opened (S.holds self.old.system)
            self.new.missing self.new.opened (S.holds self.new.system) }
        ensures counts { S.faults self.old.system ≤ S.faults self.new.system }
        ensures blames { IfErr result (λ reason. IsSome reason.error → Rose (S.faults self.old.system) (S.faults self.new.system)) }
        ensures own { self.old.faults ≡ 0 → IfErr result (λ reason. reason.error ≡ None →
            IsOwn (string_bytes self.old.path) self.new.opened (S.holds self.new.system) (S.fits self.new.system) reason.trouble) }
    {
        if self.ready()? == Opened::Nothing {
            into.fill(0);
            return Ok(());
        }
        match read_whole(&mut self.system, at, into) {
            Ok(()) => Ok(()),
            Err(error) => Err(Reason::of(error, Trouble::NotRead)),
        }
    }

    fn try_write(&mut self, at: u64, bytes: &[u8]) -> Result<(), Reason>
        ensures ends { EndsAfterFault self.old.faults self.new.faults self.old.why self.new.why (IsErr result) (self.new ≡ self.old) }
        ensures writes { at + length bytes.now < 2 ^ 64 →
            OnOk result (S.has_written self.new.system at bytes.now) }
        ensures refused { IsFalse (is_writable self.new.opened) →
            IsErr result × (S.holds self.old.system Unwritten → S.holds self.new.system Unwritten) }
        ensures keeps { KeepsFile self.old.missing self.old.opened (S.holds self.old.system)
            self.new.missing self.new.opened (S.holds self.new.system) }
        ensures counts { S.faults self.old.system ≤ S.faults self.new.system }
        ensures blames { IfErr result (λ reason. IsSome reason.error → Rose (S.faults self.old.system) (S.faults self.new.system)) }
        ensures own { self.old.faults ≡ 0 → IfErr result (λ reason. reason.error ≡ None →
            IsOwn (string_bytes self.old.path) self.new.opened (S.holds self.new.system) (S.fits self.new.system) reason.trouble) }
    {
        match self.ready()? {
            Opened::Nothing => return Err(Reason::own(Trouble::NoFile)),
            Opened::ReadOnly => return Err(read_only_at(at)),
            Opened::Writable | Opened::Made => {}
        }
        match write_whole(&mut self.system, at, bytes) {
            Ok(()) => Ok(()),
            Err(error) => Err(Reason::of(error, Trouble::NotWritten)),
        }
    }

    fn try_sync(&mut self) -> Result<(), Reason>
        ensures ends { EndsAfterFault self.old.faults self.new.faults self.old.why self.new.why (IsErr result) (self.new ≡ self.old) }
        ensures synced { OnOk result (S.holds self.new.system Synced) }
        ensures looks { LooksAtFile self.old.missing self.old.opened (S.holds self.old.system)
            self.new.missing self.new.opened (S.holds self.new.system) }
        ensures counts { S.faults self.old.system ≤ S.faults self.new.system }
        ensures blames { IfErr result (λ reason. IsSome reason.error → Rose (S.faults self.old.system) (S.faults self.new.system)) }
        ensures own { self.old.faults ≡ 0 → IfErr result (λ reason. reason.error ≡ None →
            IsOwn (string_bytes self.old.path) self.new.opened (S.holds self.new.system) (S.fits self.new.system) reason.trouble) }
    {
        self.ready()?;
        match self.system.sync_data() {
            Ok(()) => Ok(()),
            Err(error) => Err(Reason::of(error, Trouble::NotSynced)),
        }
    }
}

impl<S: System> Disk for FileDisk<S> {
    ghost use Rattle.ss_outside.specs.Step.{Measures, ReadsAt, Step, Syncs, WritesAt};
    ghost use Rattle.ss_outside.specs.Verdict.{verdict};
    ghost use Rattle.ss_file.specs.FileDisk.{untold};
    ghost use Rattle.std.proofs.lemmas.Bool.{false≢true};

    ghost seen = { λ s. untold s.faults };

    ghost knows_now = { λ _ told. absurd (false≢true told) };

    fn len(&mut self) -> Result<u64, Failed>
        ensures step { Step (verdict result) (untold self.old.faults) (untold self.new.faults) (Measures result) }
        ensures measures { IfOk result (λ answer. (image : List ℕ) →
            MayHold self.new.opened (S.fits self.new.system) image → answer ≡ length image) }
        ensures looks { LooksAtFile self.old.missing self.old.opened (S.holds self.old.system)
            self.new.missing self.new.opened (S.holds self.new.system) }
        ensures caused { IsFaultless self.old.faults self.old.why → TellsWhy self.new.faults self.new.why
            (IsCaused (string_bytes self.old.path) self.new.opened (S.holds self.new.system) (S.fits self.new.system)
            (S.faults self.old.system) (S.faults self.new.system)) result }
    {
        let answer = self.try_len();
        judge(answer, &mut self.faults, &mut self.why)
    }

    fn read_at(&mut self, at: u64, into: &mut [u8]) -> Result<(), Failed>
        ensures step { Step (verdict result) (untold self.old.faults) (untold self.new.faults) (ReadsAt at into.new result) }
        ensures reads { at + length into.old < 2 ^ 64 → OnOk result ((image : List ℕ) →
            MayHold self.new.opened (S.fits self.new.system) image → IsReadFrom image at into.new) }
        ensures looks { LooksAtFile self.old.missing self.old.opened (S.holds self.old.system)
            self.new.missing self.new.opened (S.holds self.new.system) }
        ensures caused { IsFaultless self.old.faults self.old.why → TellsWhy self.new.faults self.new.why
            (IsCaused (string_bytes self.old.path) self.new.opened (S.holds self.new.system) (S.fits self.new.system)
            (S.faults self.old.system) (S.faults self.new.system)) result }
    {
        let answer = self.try_read(at, into);
        judge(answer, &mut self.faults, &mut self.why)
    }

    fn write_at(&mut self, at: u64, bytes: &[u8]) -> Result<(), Failed>
        ensures step { Step (verdict result) (untold self.old.faults) (untold self.new.faults) (WritesAt at bytes.now result) }
        ensures writes { at + length bytes.now < 2 ^ 64 →
            OnOk result (S.has_written self.new.system at bytes.now) }
        ensures refused { IsFalse (is_writable self.new.opened) →
            IsErr result × (S.holds self.old.system Unwritten → S.holds self.new.system Unwritten) }
        ensures keeps { KeepsFile self.old.missing self.old.opened (S.holds self.old.system)
            self.new.missing self.new.opened (S.holds self.new.system) }
        ensures caused { IsFaultless self.old.faults self.old.why → TellsWhy self.new.faults self.new.why
            (IsCaused (string_bytes self.old.path) self.new.opened (S.holds self.new.system) (S.fits self.new.system)
            (S.faults self.old.system) (S.faults self.new.system)) result }
    {
        let answer = self.try_write(at, bytes);
        judge(answer, &mut self.faults, &mut self.why)
    }

    fn sync(&mut self) -> Result<(), Failed>
        ensures step { Step (verdict result) (untold self.old.faults) (untold self.new.faults) (Syncs result) }
        ensures synced { OnOk result (S.holds self.new.system Synced) }
        ensures looks { LooksAtFile self.old.missing self.old.opened (S.holds self.old.system)
            self.new.missing self.new.opened (S.holds self.new.system) }
        ensures caused { IsFaultless self.old.faults self.old.why → TellsWhy self.new.faults self.new.why
            (IsCaused (string_bytes self.old.path) self.new.opened (S.holds self.new.system) (S.fits self.new.system)
            (S.faults self.old.system) (S.faults self.new.system)) result }
    {
        let answer = self.try_sync();
        judge(answer, &mut self.faults, &mut self.why)
    }
}
