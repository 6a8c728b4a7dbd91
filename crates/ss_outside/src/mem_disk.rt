// A disk in memory.
use crate::bytes_at::{overwrite_at, read_from};
use crate::past::Past;
use crate::{Disk, Failed, LONGEST_DISK};
use std::alloc::{AllocError, Global};
use std::marker::Model;

/// What a crash of a disk in memory leaves of the bytes that are pending.
#[derive(Clone, Copy, Debug, PartialEq, Eq)]
pub enum Choice {
    /// None of them: the content at the last good sync.
    Lost,
    /// All of them: the content.
    Kept,
    /// This byte at every place that is free, at the greatest length reached since the last good sync.
    Fill(u8),
}

/// A disk that holds its bytes in memory, and fails at the calls that `fail_at` and `stop_from` list. It keeps what its
/// calls changed, and grows as it is used: a write or a sync that finds no memory to grow fails too. None does while what
/// `reserve` took ahead is enough for it.
#[derive(Drop)]
pub struct MemDisk {
    alloc: Global,
    // What it held when it was made, what it holds now, and what it went through between.
    start: Vec<u8>,
    bytes: Vec<u8>,
    past: Past,
    // The numbers of the calls that fail, and the number from which on all fail.
    failing: Vec<u64>,
    stop: Option<u64>,
    // How many calls were made, how many of them failed, and how many of those because memory ran out.
    calls: u64,
    faults: u64,
    short: u64,
}

impl Model for MemDisk {
    ghost use Rattle.std.specs.Prelude.{◌≡◌, ◌+◌, ◌≤◌, length, vec_capacity};
    ghost use Rattle.ss_outside.specs.MemDisk.{MemDiskState, IsConsistent, fresh, replay};

    ghost Value = { MemDiskState };

    ghost view = { λ s. record {
      start = s.start.items;
      changes = s.past.calls;
      spare_calls = s.past.spare_calls;
      spare_bytes = s.past.spare_bytes;
      failing = s.failing.items;
      stop = s.stop;
      calls = s.calls;
      faults = s.faults;
      short = s.short;
    } };

    ghost invariant = { λ s. let state = replay (fresh s.start.items) s.past.calls in
        (s.bytes.items ≡ state.content) × IsConsistent state × (length s.bytes.items + s.past.spare_bytes ≤ vec_capacity s.bytes) };
}

impl MemDisk {
    ghost use Rattle.std.specs.Prelude.{◌≡◌, ◌⊎◌, ◌+◌, ◌≤◌, ◌↔◌, length, Some, IsErr, IsOk, IfOk, OnOk, OnErr};
    ghost use Rattle.ss_outside.specs.Verdict.{HasCause};
    ghost use Rattle.ss_outside.specs.Choice.{IsChosen};
    ghost use Rattle.ss_outside.specs.Disk.{NothingPending};
    ghost use Rattle.ss_outside.specs.MemDisk.{Wrote, Tore, Synced, made, now, good_syncs, told_by, Leaves, IsListed, IsConsistent, answered, failed};
    ghost use Rattle.ss_outside.specs.MemDisk.{Suffices, starved, reserved, with_change};
    ghost use Rattle.ss_outside.specs.Memory.{CanBeSpare};

    /// A disk that holds these bytes, with nothing pending and no call listed as failing. It takes memory for a copy of
    /// them.
    pub fn new(alloc: Global, content: Vec<u8>) -> Result<MemDisk, AllocError>
        ensures made { IfOk result (λ disk. disk ≡ made content.items) }
        ensures nothing_pending { IfOk result (λ disk. NothingPending (told_by disk)) }
    {
        let start = content.as_slice().to_vec(alloc)?;
        Ok(MemDisk {
            alloc,
            start,
            bytes: content,
            past: Past::new(alloc),
            failing: Vec::new(alloc),
            stop: None,
            calls: 0,
            faults: 0,
            short: 0,
        })
    }

    /// Lists the calls of the trait that fail, numbered from 0 since the disk was made. They take the place of those
    /// that `fail_at` listed before.
    pub fn fail_at(&mut self, calls: Vec<u64>)
        ensures { self.new ≡ record self.old { failing = calls.items } }
    {
        self.failing = calls;
    }

    /// Lists this call of the trait and all later ones as failing, beside those that `fail_at` lists.
    pub fn stop_from(&mut self, call: u64)
        ensures { self.new ≡ record self.old { stop = Some call } }
    {
        self.stop = Some(call);
    }

    /// The bytes that a read gives.
    pub fn content(&self) -> &[u8]
        ensures { result.now ≡ (now self.now).content }
    {
        self.bytes.as_slice()
    }

    /// How many calls of the trait were made, a number of 64 bits that stands still at its greatest.
    pub fn calls(&self) -> u64
        ensures { result ≡ self.now.calls }
    {
        self.calls
    }

    /// How many syncs answered `Ok`.
    pub fn syncs(&self) -> u64
        ensures { result ≡ good_syncs self.now.changes }
    {
        self.past.syncs()
    }

    /// How many calls failed because memory ran out, a number of 64 bits that stands still at its greatest.
    pub fn short(&self) -> u64
        ensures { result ≡ self.now.short }
    {
        self.short
    }

    /// Takes memory ahead for so many more calls and bytes at least. `len` and `read_at` use none of it, a write uses one
    /// call and as many bytes as it is given, and a sync or a listed write one call. A listed sync uses none.
    pub fn reserve(&mut self, calls: u64, bytes: u64) -> Result<(), AllocError>
        requires calls { CanBeSpare calls }
        requires bytes { CanBeSpare bytes }
        ensures reserved { OnOk result (self.new ≡ reserved self.old calls bytes) }
        ensures enough { calls ≤ self.old.spare_calls → bytes ≤ self.old.spare_bytes → IsOk result }
        ensures kept { OnErr result (self.new ≡ self.old) }
    {
        self.bytes.reserve(bytes as usize)?;
        self.past.reserve(calls as usize, bytes as usize)
    }

    /// The disk that a crash now leaves, with nothing pending and no call listed as failing. It takes memory for a copy
    /// of what is left.
    pub fn crash(&self, choice: Choice) -> Result<MemDisk, AllocError>
        ensures made { IfOk result (λ disk. disk ≡ made (now disk).content) }
        ensures chosen { IfOk result (λ disk. IsChosen choice (now self.now) (now disk).content) }
        ensures may_leave { IfOk result (λ disk. Leaves (now self.now) (now disk).content) }
        ensures nothing_pending { IfOk result (λ disk. NothingPending (told_by disk)) }
    {
        let image = match choice {
            Choice::Kept => self.bytes.as_slice().to_vec(self.alloc)?,
            Choice::Lost => lost(self.alloc, &self.start, &self.past)?,
            Choice::Fill(byte) => filled(self.alloc, &self.start, &self.past, byte)?,
        };
        MemDisk::new(self.alloc, image)
    }

    // Begins a call: counts it, and fails where it is listed.
    fn begin(&mut self) -> Result<(), Failed>
        ensures listed { IsErr result ↔ IsListed self.old }
        ensures answered { OnOk result (self.new ≡ answered self.old) }
        ensures failed { OnErr result (self.new ≡ failed self.old) }
        ensures cause { HasCause self.old.faults self.new.faults result }
        ensures sound { IsConsistent (now self.old) }
    {
        let call = self.calls;
        self.calls = call.saturating_add(1);
        if is_listed(&self.failing, self.stop, call) {
            self.faults = self.faults.saturating_add(1);
            return Err(Failed);
        }
        Ok(())
    }

    // Makes one write, where a listed one writes nothing, but its range is pending.
    fn write(&mut self, at: usize, bytes: &[u8]) -> Result<(), Failed>
        requires within { at ≤ length (now self.old).content }
        requires end { at + length bytes.now ≤ LONGEST_DISK }
        ensures listed { IsListed self.old → IsErr result }
        ensures wrote { OnOk result (self.new ≡ with_change (answered self.old) (Wrote at bytes.now)) }
        ensures failed { OnErr result
            ((IsListed self.old × (self.new ≡ with_change (failed self.old) (Tore at (length bytes.now))))
            ⊎ (¬ Suffices self.old (length bytes.now) × (self.new ≡ starved self.old))) }
        ensures cause { HasCause self.old.faults self.new.faults result }
        ensures sound_before { IsConsistent (now self.old) }
        ensures sound { IsConsistent (now self.new) }
    {
        if let Err(Failed) = self.begin() {
            if let Err(AllocError) = self.past.tear(at, bytes.len()) {
                self.short = self.short.saturating_add(1);
            }
            return Err(Failed);
        }
        if let Err(AllocError) = write_and_record(&mut self.bytes, &mut self.past, at, bytes) {
            self.faults = self.faults.saturating_add(1);
            self.short = self.short.saturating_add(1);
            return Err(Failed);
        }
        Ok(())
    }

    // Makes one sync.
    fn make_sync(&mut self) -> Result<(), Failed>
        ensures synced { OnOk result (¬ IsListed self.old × (self.new ≡ with_change (answered self.old) Synced)) }
        ensures failed { OnErr result
            ((IsListed self.old × (self.new ≡ failed self.old))
            ⊎ (¬ IsListed self.old × ¬ Suffices self.old 0 × (self.new ≡ starved self.old))) }
        ensures cause { HasCause self.old.faults self.new.faults result }
        ensures sound_before { IsConsistent (now self.old) }
        ensures sound { IsConsistent (now self.new) }
    {
        self.begin()?;
        if let Err(AllocError) = self.past.sync() {
            self.faults = self.faults.saturating_add(1);
            self.short = self.short.saturating_add(1);
            return Err(Failed);
        }
        Ok(())
    }
}

impl Disk for MemDisk {
    ghost use Rattle.std.specs.Prelude.{◌≡◌, ◌⊎◌, ◌+◌, ◌≤◌, ◌↔◌, length, IsErr, OnOk, OnErr};
    ghost use Rattle.ss_outside.specs.MemDisk.{Wrote, Tore, Synced, told_by, view_of, knows_now, IsListed, Suffices, answered, failed, starved, with_change};
    ghost use Rattle.ss_outside.specs.Step.{Measures, ReadsAt, Step, Syncs, WritesAt};
    ghost use Rattle.ss_outside.specs.Verdict.{verdict};

    ghost seen = { view_of };

    ghost knows_now = { λ s told. knows_now s };

    /// Fails exactly where the call is listed.
    fn len(&mut self) -> Result<u64, Failed>
        ensures step { Step (verdict result) (view_of self.old) (view_of self.new) (Measures result) }
        ensures listed { IsErr result ↔ IsListed self.old }
        ensures answered { OnOk result (self.new ≡ answered self.old) }
        ensures failed { OnErr result (self.new ≡ failed self.old) }
    {
        self.begin()?;
        Ok(self.bytes.len() as u64)
    }

    /// Fails exactly where the call is listed, and leaves the buffer then.
    fn read_at(&mut self, at: u64, into: &mut [u8]) -> Result<(), Failed>
        ensures step { Step (verdict result) (view_of self.old) (view_of self.new) (ReadsAt at into.new result) }
        ensures listed { IsErr result ↔ IsListed self.old }
        ensures answered { OnOk result (self.new ≡ answered self.old) }
        ensures failed { OnErr result (self.new ≡ failed self.old) }
        ensures kept { OnErr result (into.new ≡ into.old) }
    {
        self.begin()?;
        read_from(&self.bytes, at, into);
        Ok(())
    }

    /// Fails where the call is listed, and else only where memory is short, which `short` counts. A listed write writes
    /// nothing, but its range is pending. One that finds no memory, listed or not, leaves the disk as it was. None does so
    /// while the spare is enough.
    fn write_at(&mut self, at: u64, bytes: &[u8]) -> Result<(), Failed>
        requires within { at ≤ length (told_by self.old).content }
        requires end { at + length bytes.now ≤ LONGEST_DISK }
        ensures step { Step (verdict result) (view_of self.old) (view_of self.new) (WritesAt at bytes.now result) }
        ensures listed { IsListed self.old → IsErr result }
        ensures wrote { OnOk result (self.new ≡ with_change (answered self.old) (Wrote at bytes.now)) }
        ensures failed { OnErr result
            ((IsListed self.old × (self.new ≡ with_change (failed self.old) (Tore at (length bytes.now))))
            ⊎ (¬ Suffices self.old (length bytes.now) × (self.new ≡ starved self.old))) }
    {
        self.write(at as usize, bytes)
    }

    /// Fails where the call is listed, and else only where memory is short, which `short` counts, and the spare isn't
    /// enough.
    fn sync(&mut self) -> Result<(), Failed>
        ensures step { Step (verdict result) (view_of self.old) (view_of self.new) (Syncs result) }
        ensures synced { OnOk result (¬ IsListed self.old × (self.new ≡ with_change (answered self.old) Synced)) }
        ensures failed { OnErr result
            ((IsListed self.old × (self.new ≡ failed self.old))
            ⊎ (¬ IsListed self.old × ¬ Suffices self.old 0 × (self.new ≡ starved self.old))) }
    {
        self.make_sync()
    }
}

ghost use Rattle.std.specs.Prelude.{◌≡◌, ◌⊎◌, ◌+◌, ◌≤◌, ◌↔◌, length, vec_capacity, Contains, IsTrue, IsSomeAnd, IsOk, IfOk, OnOk, OnErr};
ghost use Rattle.ss_outside.specs.Disk.{overwrite};
ghost use Rattle.ss_outside.specs.Choice.{IsFilled};
ghost use Rattle.ss_outside.specs.MemDisk.{Wrote, fresh, replay};
ghost use Rattle.ss_outside.specs.Past.{with_call};

// Whether the call with this number is listed as failing.
fn is_listed(failing: &[u64], stop: Option<u64>, call: u64) -> bool
    ensures { IsTrue result ↔ (Contains failing.now call ⊎ IsSomeAnd stop (λ first. first ≤ call)) }
{
    if let Some(first) = stop {
        if first <= call {
            return true;
        }
    }
    failing.contains(&call)
}

// Writes the bytes at the place, and keeps that they were written.
fn write_and_record(
    content: &mut Vec<u8>,
    past: &mut Past,
    at: usize,
    bytes: &[u8],
) -> Result<(), AllocError>
    requires { at + length bytes.now ≤ LONGEST_DISK }
    ensures content { OnOk result (content.new.items ≡ overwrite content.old.items at bytes.now) }
    ensures past { OnOk result (past.new ≡ with_call past.old (Wrote at bytes.now)) }
    ensures kept { OnErr result ((content.new.items ≡ content.old.items) × (past.new ≡ past.old)) }
    ensures capacity { vec_capacity content.old ≤ vec_capacity content.new }
    ensures enough { length content.old.items + length bytes.now ≤ vec_capacity content.old
        → 1 ≤ past.old.spare_calls → length bytes.now ≤ past.old.spare_bytes → IsOk result }
{
    content.reserve(bytes.len())?;
    past.write(at, bytes)?;
    overwrite_at(content, at, bytes)
}

// The content at the last good sync.
fn lost(alloc: Global, start: &[u8], past: &Past) -> Result<Vec<u8>, AllocError>
    ensures { IfOk result (λ image. image.items ≡ (replay (fresh start.now) past.now.calls).synced) }
{
    past.content_after(alloc, start, past.synced())
}

// The image with this byte at every free place.
fn filled(alloc: Global, start: &[u8], past: &Past, byte: u8) -> Result<Vec<u8>, AllocError>
    ensures { IfOk result (λ image. IsFilled (replay (fresh start.now) past.now.calls) byte image.items) }
{
    let synced = past.synced();
    let mut image = past.content_after(alloc, start, synced)?;
    past.fill(synced, &mut image, byte)?;
    Ok(image)
}
