// Whole writes, of calls that may move fewer bytes or be interrupted.
ghost use Rattle.std.specs.Prelude.{◌+◌, ◌<◌, ◌≤◌, ◌^◌, length, OnErr, OnOk};
ghost use Rattle.ss_outside.specs.Verdict.{Rose};
ghost use Rattle.ss_file.specs.System.{Keeps, lasts_write};

use crate::system::System;
use std::io::{self, ErrorKind};

/// Writes all of the bytes, from a place on. At an error some of them may be written.
pub fn write_whole<S: System>(system: &mut S, at: u64, bytes: &[u8]) -> io::Result<()>
    ensures writes { at + length bytes.now < 2 ^ 64 →
        OnOk result (S.has_written system.new at bytes.now) }
    ensures counts { S.faults system.old ≤ S.faults system.new }
    ensures blames { OnErr result (Rose (S.faults system.old) (S.faults system.new)) }
    ensures keeps { Keeps lasts_write (S.holds system.old) (S.holds system.new) }
{
    let mut done = 0;
    let mut interrupts = 0u64;
    while done < bytes.len() {
        match system.write(at.saturating_add(done as u64), &bytes[done..]) {
            Ok(count) => done += count,
            Err(error) if error.kind() == ErrorKind::Interrupted && interrupts < u64::MAX => {
                interrupts += 1;
            }
            Err(error) => return Err(error),
        }
    }
    Ok(())
}
