// How a store becomes a checked one, before it is formatted.
ghost use Rattle.std.specs.Prelude.{◌≡◌, IfOk, IsTrue};
ghost use Rattle.ss_outside.specs.Disk.{OfContent};
ghost use Rattle.ss_outside.specs.Step.{Step};
ghost use Rattle.ss_outside.specs.Verdict.{verdict};
ghost use Rattle.ss_journal.specs.Calls.{MakesChecked};
ghost use Rattle.ss_journal.specs.Format.{is_plain, is_unborn};
ghost use Rattle.ss_journal.specs.Steps.{Durably, Finds, Reaches};
ghost use Rattle.ss_journal.specs.Birth.{has_no_kind, IsMarked};

use crate::birth::begin;
use crate::format::CHECKED_MAGIC;
use crate::opening::read_head;
use crate::writing::write_through;
use ss_outside::{Disk, Failed};

/// Whether a plain store stands on a disk: one that is formatted, or whose magic stays since its birth gate may be torn. Nothing is
/// written. docs/FORMAT.md ("Checked stores") has the kinds.
pub fn is_plain<D: Disk>(disk: &mut D) -> Result<bool, Failed>
    ensures { Step (verdict result) (D.seen disk.old) (D.seen disk.new) (Finds (λ content. IfOk result (λ is. is ≡ is_plain content))) }
{
    let head = read_head(disk)?;
    Ok(head.is_plain())
}

// Writes the magic of a checked store into a file that isn't formatted, and with which no kind stays.
fn mark<D: Disk>(disk: &mut D) -> Result<(), Failed>
    requires unborn { OfContent (D.seen disk.old) (λ content. IsTrue (is_unborn content)) }
    requires free { OfContent (D.seen disk.old) (λ content. IsTrue (has_no_kind content)) }
    ensures { Step (verdict result) (D.seen disk.old) (D.seen disk.new) (Durably (Reaches IsMarked) result) }
{
    begin(disk)?;
    write_through(disk, 1, &CHECKED_MAGIC)
}

/// Sees to it that a store is a checked one. A file that isn't formatted is marked so, and is formatted as one later; a crash at any
/// moment of it leaves a file that isn't formatted. False says that a plain store stands there. Then nothing was written, nor is it
/// where a checked one stands already, or none.
pub fn make_checked<D: Disk>(disk: &mut D) -> Result<bool, Failed>
    ensures { Step (verdict result) (D.seen disk.old) (D.seen disk.new) (MakesChecked result) }
{
    let head = read_head(disk)?;
    if head.is_unborn() && head.has_no_kind() {
        mark(disk)?;
        return Ok(true);
    }
    Ok(!head.is_plain())
}
