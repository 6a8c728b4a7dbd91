// How the entries of a formatted file come into their slots, and how the first gate closes behind them.
ghost use Rattle.std.specs.Prelude.{◌<◌, length};
ghost use Rattle.ss_outside.specs.Disk.{OfContent, SyncsAtMost};
ghost use Rattle.ss_outside.specs.Step.{Step};
ghost use Rattle.ss_outside.specs.Verdict.{verdict};
ghost use Rattle.ss_journal.specs.Redo.{HasEntries};
ghost use Rattle.ss_journal.specs.Steps.{Clears, Reaches, StaysShut};
ghost use Rattle.ss_journal.specs.Writes.{AreSlots};

use crate::format::FIRST_ENTRY;
use crate::kind::Kind;
use crate::put::Put;
use crate::writing::{write_slots, write_through};
use ss_outside::{Disk, Failed};

// Writes the puts of the open prefix into their slots, and closes the first gate. With it the whole prefix is closed.
fn close_prefix<D: Disk>(disk: &mut D, kind: Kind, puts: &[Put]) -> Result<(), Failed>
    // A write to a closed gate may open it in a crash.
    requires some { 0 < length puts.now }
    requires slots { AreSlots puts.now }
    requires entries { OfContent (D.seen disk.old) (HasEntries kind puts.now) }
    ensures shuts { Step (verdict result) (D.seen disk.old) (D.seen disk.new) (Reaches StaysShut result) }
    ensures syncs { Step (verdict result) (D.seen disk.old) (D.seen disk.new) (SyncsAtMost 2) }
{
    write_slots(disk, kind, puts)?;
    write_through(disk, FIRST_ENTRY, &[0])
}

// Brings the entries of a formatted file into their slots, and closes the first gate. Later ones stay as they are behind it.
pub fn settle_entries<D: Disk>(disk: &mut D, kind: Kind, puts: &[Put]) -> Result<(), Failed>
    requires slots { AreSlots puts.now }
    requires entries { OfContent (D.seen disk.old) (HasEntries kind puts.now) }
    ensures shuts { Step (verdict result) (D.seen disk.old) (D.seen disk.new) (Reaches StaysShut result) }
    ensures syncs { Step (verdict result) (D.seen disk.old) (D.seen disk.new) (SyncsAtMost 2) }
{
    if puts.is_empty() {
        return Ok(());
    }
    close_prefix(disk, kind, puts)
}

// Makes what is pending durable, brings the entries in use into their slots, and closes the first gate.
pub fn settle_formed<D: Disk>(disk: &mut D, kind: Kind, puts: &[Put]) -> Result<(), Failed>
    requires slots { AreSlots puts.now }
    requires entries { OfContent (D.seen disk.old) (HasEntries kind puts.now) }
    ensures clears { Step (verdict result) (D.seen disk.old) (D.seen disk.new) (Clears result) }
    ensures syncs { Step (verdict result) (D.seen disk.old) (D.seen disk.new) (SyncsAtMost 3) }
{
    disk.sync()?;
    settle_entries(disk, kind, puts)
}
