// Whole reads, of calls that may move fewer bytes or be interrupted.
ghost use Rattle.std.specs.Prelude.{◌+◌, ◌<◌, ◌≤◌, ◌^◌, ℕ, List, length, OnErr, OnOk};
ghost use Rattle.ss_outside.specs.Disk.{IsReadFrom};
ghost use Rattle.ss_outside.specs.Verdict.{Rose};
ghost use Rattle.ss_file.specs.System.{KeepsAll};

use crate::system::System;
use std::io::{self, ErrorKind};

/// Fills the buffer with the bytes from a place on, and with 0 for each past the end of the file.
pub fn read_whole<S: System>(system: &mut S, at: u64, into: &mut [u8]) -> io::Result<()>
    ensures reads { at + length into.old < 2 ^ 64 →
        OnOk result ((image : List ℕ) → S.fits system.new image → IsReadFrom image at into.new) }
    ensures fits { (image : List ℕ) → S.fits system.new image → S.fits system.old image }
    ensures counts { S.faults system.old ≤ S.faults system.new }
    ensures blames { OnErr result (Rose (S.faults system.old) (S.faults system.new)) }
    ensures keeps { KeepsAll (S.holds system.old) (S.holds system.new) }
{
    let mut done = 0;
    let mut interrupts = 0u64;
    while done < into.len() {
        match system.read(at.saturating_add(done as u64), &mut into[done..]) {
            Ok(0) => {
                into[done..].fill(0);
                return Ok(());
            }
            Ok(count) => done += count,
            Err(error) if error.kind() == ErrorKind::Interrupted && interrupts < u64::MAX => {
                interrupts += 1;
            }
            Err(error) => return Err(error),
        }
    }
    Ok(())
}
