// Files that aren't a store's, and would be formatted.
ghost use Rattle.std.specs.Prelude.{◌≡◌, ◌↔◌, ◌+◌, ◌<◌, ◌≤◌, ◌^◌, ℕ, List, length, slice_index, IsTrue, IsFalse, All, IfOk, OnErr};
ghost use Rattle.ss_outside.specs.Verdict.{Rose};
ghost use Rattle.ss_file.specs.Opening.{IsBlank, IsNative};
ghost use Rattle.ss_file.specs.System.{KeepsAll};

#[cfg(test)]
mod tests;

use crate::reading::read_whole;
use crate::system::System;
use ss_journal::{FIRST_SLOT, Head};
use std::io;

// How many bytes are looked at together.
const PIECE: usize = 4096;

fn is_zeros(bytes: &[u8]) -> bool
    ensures { IsTrue result ↔ All (λ byte. byte ≡ 0) bytes.now }
{
    bytes.iter().all(|byte| *byte == 0)
}

// Fills a buffer from a place on. Whether all of it is 0.
fn reads_zeros<S: System>(system: &mut S, at: u64, buffer: &mut [u8]) -> io::Result<bool>
    ensures finds { at + length buffer.old < 2 ^ 64 → IfOk result (λ zeros. (image : List ℕ) → S.fits system.new image →
        (IsTrue zeros ↔ ((k : ℕ) → k < length buffer.old → slice_index image (at + k) ≡ 0))) }
    ensures fits { (image : List ℕ) → S.fits system.new image → S.fits system.old image }
    ensures counts { S.faults system.old ≤ S.faults system.new }
    ensures blames { OnErr result (Rose (S.faults system.old) (S.faults system.new)) }
    ensures keeps { KeepsAll (S.holds system.old) (S.holds system.new) }
{
    read_whole(system, at, buffer)?;
    Ok(is_zeros(buffer))
}

// Whether a file of this size holds a byte other than 0 where slots lie, or after them.
fn holds_something<S: System>(system: &mut S, size: u64) -> io::Result<bool>
    ensures finds { IfOk result (λ found. (image : List ℕ) → S.fits system.new image →
        size ≡ length image → (IsFalse found ↔ IsBlank image)) }
    ensures fits { (image : List ℕ) → S.fits system.new image → S.fits system.old image }
    ensures counts { S.faults system.old ≤ S.faults system.new }
    ensures blames { OnErr result (Rose (S.faults system.old) (S.faults system.new)) }
    ensures keeps { KeepsAll (S.holds system.old) (S.holds system.new) }
{
    let mut piece = [0; PIECE];
    let pieces = size.saturating_sub(FIRST_SLOT).div_ceil(PIECE as u64);
    for n in 0..pieces {
        let at = FIRST_SLOT.saturating_add(n.saturating_mul(PIECE as u64));
        let count = (size.saturating_sub(at) as usize).min(PIECE);
        if !reads_zeros(system, at, &mut piece[..count])? {
            return Ok(true);
        }
    }
    Ok(false)
}

/// Whether the open file isn't formatted, but holds something where slots lie. A birth that a crash broke off leaves no
/// such file, unless it began over one that had slots.
pub fn is_foreign<S: System>(system: &mut S) -> io::Result<bool>
    ensures finds { IfOk result (λ foreign. (image : List ℕ) → S.fits system.new image →
        (IsFalse foreign ↔ IsNative image)) }
    ensures counts { S.faults system.old ≤ S.faults system.new }
    ensures blames { OnErr result (Rose (S.faults system.old) (S.faults system.new)) }
    ensures keeps { KeepsAll (S.holds system.old) (S.holds system.new) }
{
    let length = system.len()?;
    let mut bytes = [0; 9];
    read_whole(system, 0, &mut bytes)?;
    if !(Head { length, bytes }).is_unborn() {
        return Ok(false);
    }
    holds_something(system, length)
}
