// How a page of slots is read.
ghost use Rattle.std.specs.Prelude.{◌≡◌, ℕ, ◌+◌, ◌*◌, ◌≤◌, ◌<◌, length, OnOk};
ghost use Rattle.ss_outside.specs.Step.{Step};
ghost use Rattle.ss_outside.specs.Verdict.{verdict};
ghost use Rattle.ss_journal.specs.Calls.{slot_in_page};
ghost use Rattle.ss_journal.specs.Format.{slot_at, slots_in};
ghost use Rattle.ss_journal.specs.Puts.{with_put, with_puts};
ghost use Rattle.ss_journal.specs.Redo.{zeros};
ghost use Rattle.ss_journal.specs.Steps.{Finds};

use crate::format::{MOST_PAGES, PAGE_SIZE, PAGE_SLOTS, slot_place};
use crate::page::Page;
use crate::put::Put;
use ss_base::SLOT_SIZE;
use ss_outside::{Disk, Failed};

// Reads the page from the file. Its slots that lie there are right then, and the other bytes are any.
pub fn read_slots<D: Disk>(
    disk: &mut D,
    page: u32,
    bytes: &mut [u8; PAGE_SIZE],
) -> Result<(), Failed>
    requires { page < MOST_PAGES }
    ensures { Step (verdict result) (D.seen disk.old) (D.seen disk.new)
        (Finds (λ content. OnOk result ((k : ℕ) → k < PAGE_SLOTS → PAGE_SLOTS * page + k < slots_in (length content)
        → slot_in_page bytes.new k ≡ slot_at content (PAGE_SLOTS * page + k)))) }
{
    disk.read_at(slot_place(PAGE_SLOTS * page), bytes)
}

// How many slots of the page lie below the extent.
fn used_slots(page: u32, extent: u32) -> usize
    requires page { page < MOST_PAGES }
    ensures most { result ≤ PAGE_SLOTS }
    ensures used { (k : ℕ) → k < result → PAGE_SLOTS * page + k < extent }
    ensures unused { (k : ℕ) → result ≤ k → k < PAGE_SLOTS → extent ≤ PAGE_SLOTS * page + k }
{
    extent.saturating_sub(PAGE_SLOTS * page).min(PAGE_SLOTS) as usize
}

// Makes zeros of the slots from number `used` on.
fn clear_from(bytes: &mut [u8; PAGE_SIZE], used: usize)
    requires { used ≤ PAGE_SLOTS }
    ensures used { (k : ℕ) → k < used → slot_in_page bytes.new k ≡ slot_in_page bytes.old k }
    ensures unused { (k : ℕ) → used ≤ k → k < PAGE_SLOTS → slot_in_page bytes.new k ≡ zeros }
{
    bytes[SLOT_SIZE * used..].fill(0);
}

// Makes zeros of the page's slots from the extent on.
pub fn clear_unused(bytes: &mut [u8; PAGE_SIZE], page: u32, extent: u32)
    requires page { page < MOST_PAGES }
    ensures used { (k : ℕ) → k < PAGE_SLOTS → PAGE_SLOTS * page + k < extent → slot_in_page bytes.new k ≡ slot_in_page bytes.old k }
    ensures unused { (k : ℕ) → k < PAGE_SLOTS → extent ≤ PAGE_SLOTS * page + k → slot_in_page bytes.new k ≡ zeros }
{
    clear_from(bytes, used_slots(page, extent));
}

// Puts one over what the page of this number says, if its slot lies there.
fn lay_put(page: &mut Page, number: u32, put: &Put)
    requires { number < MOST_PAGES }
    ensures { (k : ℕ) → k < PAGE_SLOTS
        → slot_in_page page.new k ≡ with_put put.now (λ _. slot_in_page page.old k) (PAGE_SLOTS * number + k) }
{
    if put.slot / PAGE_SLOTS == number {
        page.put(put.slot % PAGE_SLOTS, &put.bytes);
    }
}

// Puts them over what the page says, in order, those whose slots lie there.
pub fn lay_puts(page: &mut Page, number: u32, puts: &[Put])
    requires { number < MOST_PAGES }
    ensures { (k : ℕ) → k < PAGE_SLOTS
        → slot_in_page page.new k ≡ with_puts puts.now (λ _. slot_in_page page.old k) (PAGE_SLOTS * number + k) }
{
    for put in puts {
        lay_put(page, number, put);
    }
}
