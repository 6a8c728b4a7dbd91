// How a slot is read.
ghost use Rattle.std.specs.Prelude.{◌≡◌, ◌<◌, length, IfOk};
ghost use Rattle.ss_outside.specs.Step.{Step};
ghost use Rattle.ss_outside.specs.Verdict.{verdict};
ghost use Rattle.ss_journal.specs.Format.{slots_in, slot_at};
ghost use Rattle.ss_journal.specs.Steps.{Finds};

use crate::format::{MOST_SLOTS, slot_place};
use ss_base::SLOT_SIZE;
use ss_outside::{Disk, Failed};

// The bytes of a slot that lies in the file.
pub fn read_slot<D: Disk>(disk: &mut D, slot: u32) -> Result<[u8; SLOT_SIZE], Failed>
    requires { slot < MOST_SLOTS }
    ensures { Step (verdict result) (D.seen disk.old) (D.seen disk.new)
        (Finds (λ content. slot < slots_in (length content) → IfOk result (λ bytes. bytes ≡ slot_at content slot))) }
{
    let mut bytes = [0; SLOT_SIZE];
    disk.read_at(slot_place(slot), &mut bytes)?;
    Ok(bytes)
}
