// Writes that a crash tears.
ghost use Rattle.std.specs.Prelude.{◌≡◌, ◌+◌, ◌-◌, ◌<◌, ◌≤◌, ◌^◌, ◌++◌, length, min, slice_index};
ghost use Rattle.ss_outside.specs.Disk.{OfContent, SyncsAtMost};
ghost use Rattle.ss_outside.specs.Step.{Step};
ghost use Rattle.ss_outside.specs.Verdict.{verdict};
ghost use Rattle.ss_journal.specs.Checks.{slot_form};
ghost use Rattle.ss_journal.specs.Format.{slot_place};
ghost use Rattle.ss_journal.specs.Steps.{Durably, Writes, WritesSlots, WritesZeros};
ghost use Rattle.ss_journal.specs.Puts.{FillSlots};
ghost use Rattle.ss_journal.specs.Writes.{AreSlots, HasSlotsFor, run_bytes, run_length};

use crate::checks::slot_form;
use crate::format::{MOST_SLOTS, slot_place};
use crate::kind::Kind;
use crate::put::Put;
use arrayvec::ArrayVec;
use ss_base::SLOT_SIZE;
use ss_outside::{Disk, Failed, LONGEST_DISK};

// The most bytes that one write of slots or of zeros has.
const PIECE: usize = 4096;

// How many slots those are.
const PIECE_SLOTS: usize = 32;

// Writes the bytes, and doesn't sync.
pub fn write<D: Disk>(disk: &mut D, at: u64, bytes: &[u8]) -> Result<(), Failed>
    requires within { OfContent (D.seen disk.old) (λ content. at ≤ length content) }
    requires end { at + length bytes.now ≤ LONGEST_DISK }
    ensures wrote { Step (verdict result) (D.seen disk.old) (D.seen disk.new) (Writes at bytes.now result) }
    ensures syncs { Step (verdict result) (D.seen disk.old) (D.seen disk.new) (SyncsAtMost 0) }
{
    disk.write_at(at, bytes)
}

// Writes the bytes and syncs.
pub fn write_through<D: Disk>(disk: &mut D, at: u64, bytes: &[u8]) -> Result<(), Failed>
    requires within { OfContent (D.seen disk.old) (λ content. at ≤ length content) }
    requires end { at + length bytes.now ≤ LONGEST_DISK }
    ensures wrote { Step (verdict result) (D.seen disk.old) (D.seen disk.new) (Durably (Writes at bytes.now) result) }
    ensures syncs { Step (verdict result) (D.seen disk.old) (D.seen disk.new) (SyncsAtMost 1) }
{
    write(disk, at, bytes)?;
    disk.sync()
}

// How many puts at the front are for neighbouring slots, from `slot` on, as far as one write goes.
fn run_length(puts: &[Put], slot: u32) -> usize
    ensures { result ≡ min (run_length slot puts.now) PIECE_SLOTS }
{
    let mut count = 0;
    for put in puts {
        if count == PIECE_SLOTS || put.slot as usize != slot as usize + count {
            return count;
        }
        count += 1;
    }
    count
}

// Adds a put's bytes, in the form of a kind.
fn add_slot(bytes: &mut ArrayVec<u8, PIECE>, kind: Kind, put: &Put)
    requires { length bytes.old.items + SLOT_SIZE ≤ PIECE }
    ensures value { bytes.new.items ≡ bytes.old.items ++ slot_form kind put.now.slot put.now.bytes }
    ensures whole { length put.now.bytes ≡ SLOT_SIZE }
{
    let _ = bytes.try_extend_from_slice(&slot_form(kind, put.slot, put.bytes));
}

// The puts' bytes one after the other, each in the form of a kind.
fn run_bytes(kind: Kind, run: &[Put]) -> ArrayVec<u8, PIECE>
    requires { length run.now ≤ PIECE_SLOTS }
    ensures value { result.items ≡ run_bytes kind run.now }
    ensures whole { FillSlots run.now }
{
    let mut bytes = ArrayVec::new();
    for put in run {
        add_slot(&mut bytes, kind, put);
    }
    bytes
}

// Writes puts for neighbouring slots, from `slot` on, by one write, and doesn't sync.
fn write_run<D: Disk>(disk: &mut D, kind: Kind, slot: u32, run: &[Put]) -> Result<(), Failed>
    requires few { length run.now ≤ PIECE_SLOTS }
    requires slot { slot < MOST_SLOTS }
    requires within { OfContent (D.seen disk.old) (λ content. slot_place slot ≤ length content) }
    ensures run { Step (verdict result) (D.seen disk.old) (D.seen disk.new) (Writes (slot_place slot) (run_bytes kind run.now) result) }
    ensures syncs { Step (verdict result) (D.seen disk.old) (D.seen disk.new) (SyncsAtMost 0) }
    ensures whole { FillSlots run.now }
{
    let bytes = run_bytes(kind, run);
    write(disk, slot_place(slot), &bytes)
}

// Writes each put's bytes into its slot, in the form of a kind, in order, and syncs. Neighbouring slots are written at once.
pub fn write_slots<D: Disk>(disk: &mut D, kind: Kind, puts: &[Put]) -> Result<(), Failed>
    requires slots { AreSlots puts.now }
    requires places { OfContent (D.seen disk.old) (HasSlotsFor puts.now) }
    ensures wrote { Step (verdict result) (D.seen disk.old) (D.seen disk.new) (Durably (WritesSlots kind puts.now) result) }
    ensures syncs { Step (verdict result) (D.seen disk.old) (D.seen disk.new) (SyncsAtMost 1) }
{
    let mut from = 0;
    while from < puts.len() {
        let rest = &puts[from..];
        let slot = rest[0].slot;
        let count = run_length(rest, slot);
        write_run(disk, kind, slot, &rest[..count])?;
        from += count;
    }
    disk.sync()
}

// Writes some zeros, and doesn't sync.
fn write_piece<D: Disk>(disk: &mut D, at: u64, count: u64) -> Result<(), Failed>
    requires few { count ≤ PIECE }
    requires within { OfContent (D.seen disk.old) (λ content. at ≤ length content) }
    requires end { at + count ≤ LONGEST_DISK }
    ensures { Step (verdict result) (D.seen disk.old) (D.seen disk.new) (WritesZeros at count result) }
{
    let piece = [0; PIECE];
    write(disk, at, &piece[..count as usize])
}

// Writes zeros from `at` up to `end`, in pieces, and doesn't sync.
pub fn write_zeros<D: Disk>(disk: &mut D, at: u64, end: u64) -> Result<(), Failed>
    requires order { at ≤ end }
    requires end { end ≤ LONGEST_DISK }
    requires within { OfContent (D.seen disk.old) (λ content. at ≤ length content) }
    ensures { Step (verdict result) (D.seen disk.old) (D.seen disk.new) (WritesZeros at (end - at) result) }
{
    let mut from = at;
    while from < end {
        let count = (end - from).min(PIECE as u64);
        write_piece(disk, from, count)?;
        from += count;
    }
    Ok(())
}
