// What the records of a map are, read once.
ghost use Rattle.std.specs.Prelude.{◌≡◌, IfOk};
ghost use Rattle.ss_outside.specs.Disk.{OfContent};
ghost use Rattle.ss_outside.specs.Step.{Step};
ghost use Rattle.ss_journal.specs.Kept.{IsKept, IsRunning, IsSealed};
ghost use Rattle.ss_parts.specs.Held.{AreWholeBeside};
ghost use Rattle.ss_recover.specs.Rebuilt.{Rebuilds, verdict_of_rebuild};

use crate::gathering::gather;
use crate::sorting::sort;
use crate::walking::streams_of;
use crate::{Parts, RecoverError};
use ss_journal::Journal;
use ss_outside::Disk;
use ss_records::Records;
use std::alloc::Global;
use std::marker::Brand;
use std::sync::ledger::Blank;

/// The records of a journal that was opened, and the streams that they carry, each record with its slot, in the order of the
/// streams' numbers, and the slots of the records of dropped streams. It reads each page of slots below the extent once, and
/// writes nothing.
pub fn rebuild<D: Disk>(
    alloc: Global,
    journal: Journal,
    disk: &mut D,
) -> Result<(Records, Parts), RecoverError>
    requires running { IsRunning journal }
    requires sealed { IsSealed journal }
    requires one_disk { OfContent (D.seen disk.old) (IsKept journal) }
    // The streams of the content's map, or its lowest damaged slot, or else its lowest damaged stream. Nothing is written.
    ensures rebuilds { Step (verdict_of_rebuild result) (D.seen disk.old) (D.seen disk.new) (Rebuilds result) }
    // What is true of them over every disk, also one that tells nothing.
    ensures whole { IfOk result (λ read. AreWholeBeside read.1.doomed.items read.1.streams.items read.0.live) }
    ensures journal { IfOk result (λ read. read.0.journal ≡ journal) }
{
    let mut journal = journal;
    let mut read = gather(alloc, &mut journal, disk)?;
    sort(&mut read.all)?;
    let parts = streams_of::<Brand>(alloc, &read.all, Blank::new(1))?;
    let records = Records::over(alloc, journal, read.live)?;
    Ok((records, parts))
}
