// How an unborn file is formatted. It stays unborn until the birth gate opens, and no other gate is open then.
ghost use Rattle.std.specs.Prelude.{IsTrue};
ghost use Rattle.ss_outside.specs.Disk.{OfContent};
ghost use Rattle.ss_outside.specs.Step.{Step};
ghost use Rattle.ss_outside.specs.Verdict.{verdict};
ghost use Rattle.ss_journal.specs.Birth.{Begins, IsBegun, IsFormed, Leads};
ghost use Rattle.ss_journal.specs.Format.{is_unborn, IsShut};
ghost use Rattle.ss_journal.specs.Steps.{Durably, Marks, Reaches};

use crate::format::{FILE_END, FIRST_SLOT, GATE_OPEN, MAGIC, MAGIC_END};
use crate::opening::read_head;
use crate::writing::{write, write_through, write_zeros};
use ss_outside::{Disk, Failed};

// Makes a file of at most one byte one 0.
pub fn begin<D: Disk>(disk: &mut D) -> Result<(), Failed>
    requires unborn { OfContent (D.seen disk.old) (λ content. IsTrue (is_unborn content)) }
    ensures { Step (verdict result) (D.seen disk.old) (D.seen disk.new) (Reaches Begins result) }
{
    if disk.len()? <= 1 {
        write_through(disk, 0, &[0])?;
    }
    Ok(())
}

// Writes the magic of a plain store where none stands, and doesn't sync.
fn write_magic<D: Disk>(disk: &mut D) -> Result<(), Failed>
    requires begun { OfContent (D.seen disk.old) IsBegun }
    ensures { Step (verdict result) (D.seen disk.old) (D.seen disk.new) (Marks result) }
{
    let head = read_head(disk)?;
    if head.has_magic() {
        return Ok(());
    }
    write(disk, 1, &MAGIC)
}

// Writes the magic and zeros after it, as far as anything is looked at.
fn form<D: Disk>(disk: &mut D) -> Result<(), Failed>
    requires begun { OfContent (D.seen disk.old) IsBegun }
    ensures { Step (verdict result) (D.seen disk.old) (D.seen disk.new) (Reaches (Leads IsFormed) result) }
{
    let end = FIRST_SLOT.max(disk.len()?.min(FILE_END));
    write_magic(disk)?;
    write_zeros(disk, MAGIC_END, end)?;
    disk.sync()
}

// Opens the birth gate of a formatted file.
fn open_gate<D: Disk>(disk: &mut D) -> Result<(), Failed>
    requires formed { OfContent (D.seen disk.old) IsFormed }
    ensures { Step (verdict result) (D.seen disk.old) (D.seen disk.new) (Durably (Reaches (Leads IsShut)) result) }
{
    write_through(disk, 0, &[GATE_OPEN])
}

// Formats an unborn file, and leaves its kind. Every slot is zeros before and after. What lies after the last slot that a file can have stays.
pub fn give_birth<D: Disk>(disk: &mut D) -> Result<(), Failed>
    requires unborn { OfContent (D.seen disk.old) (λ content. IsTrue (is_unborn content)) }
    ensures { Step (verdict result) (D.seen disk.old) (D.seen disk.new) (Durably (Reaches (Leads IsShut)) result) }
{
    begin(disk)?;
    form(disk)?;
    open_gate(disk)
}
