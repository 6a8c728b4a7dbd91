// How entries come into the file.
ghost use Rattle.std.specs.Prelude.{◌≡◌, ◌+◌, ◌*◌, ◌<◌, ◌≤◌, length, slice_index};
ghost use Rattle.ss_outside.specs.Disk.{OfContent, SyncsAtMost};
ghost use Rattle.ss_outside.specs.Step.{Step};
ghost use Rattle.ss_outside.specs.Verdict.{verdict};
ghost use Rattle.ss_journal.specs.Kept.{EndsBefore};
ghost use Rattle.ss_journal.specs.Steps.{Enters};

use crate::format::{ENTRIES, ENTRY_SIZE, GATE_OPEN, entry_place};
use crate::writing::write_through;
use ss_outside::{Disk, Failed};

// Writes entries from number n on behind the gate of the first, which is closed, and then opens that gate. With it all of them
// count: those after a closed gate count for nothing, so their own gates are written open.
pub fn add_entries<D: Disk>(disk: &mut D, n: u32, entries: &[u8]) -> Result<(), Failed>
    requires number { n < ENTRIES }
    requires some { 0 < length entries.now }
    requires gate { slice_index entries.now 0 ≡ GATE_OPEN }
    requires few { ENTRY_SIZE * n + length entries.now ≤ ENTRY_SIZE * ENTRIES }
    requires before { OfContent (D.seen disk.old) (EndsBefore n) }
    ensures enters { Step (verdict result) (D.seen disk.old) (D.seen disk.new) (Enters n entries.now result) }
    ensures syncs { Step (verdict result) (D.seen disk.old) (D.seen disk.new) (SyncsAtMost 2) }
{
    write_through(disk, entry_place(n) + 1, &entries[1..])?;
    write_through(disk, entry_place(n), &entries[..1])
}
