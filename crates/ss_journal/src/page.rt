// A page of slots.
ghost use Rattle.std.specs.Prelude.{◌≡◌, ◌≢◌, ℕ, ◌+◌, ◌*◌, ◌<◌};
ghost use Rattle.ss_journal.specs.Calls.{slot_in_page};
ghost use Rattle.ss_journal.specs.Checks.{slot_form};

use crate::checks::slot_form;
use crate::format::{MOST_PAGES, PAGE_SIZE, PAGE_SLOTS};
use crate::kind::Kind;
use ss_base::SLOT_SIZE;
use std::marker::Model;

// How many slots a page has, as an array counts them.
const SLOTS: usize = PAGE_SLOTS as usize;

/// The bytes of a page. Each slot is taken out of the form that the file has when it is first asked for.
#[derive(Drop)]
pub struct Page {
    bytes: [u8; PAGE_SIZE],
    // Which slots are as they say, and no longer in the form of the file.
    formed: [bool; SLOTS],
    kind: Kind,
    number: u32,
}

impl Model for Page {
    ghost use Rattle.std.specs.Prelude.{◌<◌, ℕ, List};
    ghost use Rattle.ss_journal.specs.declared.format.TheConstants.{MOST_PAGES};
    ghost use Rattle.ss_journal.specs.Page.{page_said};

    ghost Value = { List ℕ };

    ghost view = { λ s. page_said s.kind s.number s.formed s.bytes };

    ghost invariant = { λ s. s.number < MOST_PAGES };
}

impl Page {
    // The page of these bytes, which have the form of the file.
    pub(crate) fn new(kind: Kind, number: u32, bytes: [u8; PAGE_SIZE]) -> Page
        requires { number < MOST_PAGES }
        ensures { (k : ℕ) → k < PAGE_SLOTS → slot_in_page result k ≡ slot_form kind (PAGE_SLOTS * number + k) (slot_in_page bytes k) }
    {
        Page {
            bytes,
            formed: [false; SLOTS],
            kind,
            number,
        }
    }

    /// The bytes of slot number `k`.
    pub fn slot(&mut self, k: u32) -> [u8; SLOT_SIZE]
        requires slot { k < PAGE_SLOTS }
        ensures value { result ≡ slot_in_page self.old k }
        ensures same { self.new ≡ self.old }
    {
        let n = k as usize;
        let bytes = slot_of(&self.bytes, n);
        if self.formed[n] {
            return bytes;
        }
        let said = slot_form(self.kind, PAGE_SLOTS * self.number + k, bytes);
        write_slot(&mut self.bytes, n, &said);
        self.formed[n] = true;
        said
    }

    /// Writes bytes into slot number `k`.
    pub fn put(&mut self, k: u32, bytes: &[u8; SLOT_SIZE])
        requires slot { k < PAGE_SLOTS }
        ensures written { slot_in_page self.new k ≡ bytes.now }
        ensures others { (other : ℕ) → other < PAGE_SLOTS → other ≢ k → slot_in_page self.new other ≡ slot_in_page self.old other }
    {
        write_slot(&mut self.bytes, k as usize, bytes);
        self.formed[k as usize] = true;
    }
}

// The bytes of slot number `n` of a page.
fn slot_of(bytes: &[u8; PAGE_SIZE], n: usize) -> [u8; SLOT_SIZE]
    requires { n < PAGE_SLOTS }
    ensures { result ≡ slot_in_page bytes.now n }
{
    let place = SLOT_SIZE * n;
    let mut slot = [0; SLOT_SIZE];
    slot.copy_from_slice(&bytes[place..place + SLOT_SIZE]);
    slot
}

// Writes bytes into slot number `n` of a page.
fn write_slot(bytes: &mut [u8; PAGE_SIZE], n: usize, slot: &[u8; SLOT_SIZE])
    requires { n < PAGE_SLOTS }
    ensures same { slot_in_page bytes.new n ≡ slot.now }
    ensures others { (k : ℕ) → k < PAGE_SLOTS → k ≢ n → slot_in_page bytes.new k ≡ slot_in_page bytes.old k }
{
    bytes[SLOT_SIZE * n..SLOT_SIZE * n + SLOT_SIZE].copy_from_slice(slot);
}
