// How a file is opened. Nothing is written.
ghost use Rattle.std.specs.Prelude.{◌≡◌, ◌≤◌, ◌<◌, ℕ, List, length, IsTrue, IfOk};
ghost use Rattle.ss_outside.specs.Disk.{OfContent};
ghost use Rattle.ss_outside.specs.Step.{Step};
ghost use Rattle.ss_outside.specs.Verdict.{verdict};
ghost use Rattle.ss_journal.specs.Birth.{has_no_kind};
ghost use Rattle.ss_journal.specs.Calls.{verdict_of_open};
ghost use Rattle.ss_journal.specs.Checks.{entry_in};
ghost use Rattle.ss_journal.specs.Format.{has_magic, has_magic_of, is_unborn, is_born, entry_bytes, is_plain, kind_of, slots_in};
ghost use Rattle.ss_journal.specs.Opening.{AreBounded, IsHead, NextAs, IfNext, InUseAs};
ghost use Rattle.ss_journal.specs.Puts.{slots_fit, IsTxn};
ghost use Rattle.ss_journal.specs.Steps.{Finds};

use crate::JournalError;
use crate::checks::entry_form;
use crate::entry::{extent_after, is_good, puts_of};
use crate::format::{
    ENTRIES, ENTRY_SIZE, FIRST_SLOT, GATE_OPEN, MOST_PUTS, MOST_SLOTS, entry_place, magic,
};
use crate::kind::Kind;
use crate::newest::Newest;
use crate::put::Txn;
use ss_outside::{Disk, Failed};
use std::alloc::Global;

/// The length of a file in bytes, and its first bytes, which are zeros past its end.
#[derive(Clone, Copy)]
pub struct Head {
    pub length: u64,
    pub bytes: [u8; 9],
}

impl Head {
    // Whether the magic of a kind stands after the birth gate.
    fn has_magic_of(&self, kind: Kind) -> bool
        ensures { (image : List ℕ) → IsHead self.now.length self.now.bytes image → result ≡ has_magic_of kind image }
    {
        self.bytes[1..].starts_with(&magic(kind))
    }

    /// Whether that of any kind does.
    pub fn has_magic(&self) -> bool
        ensures { (image : List ℕ) → IsHead self.now.length self.now.bytes image → result ≡ has_magic image }
    {
        self.has_magic_of(Kind::Plain) || self.has_magic_of(Kind::Checked)
    }

    /// The kind of the file.
    pub fn kind(&self) -> Kind
        ensures { (image : List ℕ) → IsHead self.now.length self.now.bytes image → result ≡ kind_of image }
    {
        if self.has_magic_of(Kind::Checked) {
            Kind::Checked
        } else {
            Kind::Plain
        }
    }

    /// Whether the file isn't formatted.
    pub fn is_unborn(&self) -> bool
        ensures { (image : List ℕ) → IsHead self.now.length self.now.bytes image → result ≡ is_unborn image }
    {
        self.length <= 1 || self.bytes[0] == 0 || (self.has_magic() && self.bytes[0] != GATE_OPEN)
    }

    /// Whether no kind stays with a file that isn't formatted.
    pub fn has_no_kind(&self) -> bool
        ensures { (image : List ℕ) → IsHead self.now.length self.now.bytes image → result ≡ has_no_kind image }
    {
        self.length <= 1 || self.bytes[0] == 0
    }

    /// Whether a plain store stands there.
    pub fn is_plain(&self) -> bool
        ensures { (image : List ℕ) → IsHead self.now.length self.now.bytes image → result ≡ is_plain image }
    {
        (self.is_born() || self.is_unborn()) && self.bytes[0] != 0 && self.has_magic_of(Kind::Plain)
    }

    /// Whether the file is formatted.
    pub fn is_born(&self) -> bool
        ensures { (image : List ℕ) → IsHead self.now.length self.now.bytes image → result ≡ is_born image }
    {
        self.length >= FIRST_SLOT && self.bytes[0] == GATE_OPEN && self.has_magic()
    }
}

// Reads the length and the first bytes.
pub fn read_head<D: Disk>(disk: &mut D) -> Result<Head, Failed>
    ensures { Step (verdict result) (D.seen disk.old) (D.seen disk.new)
        (Finds (λ content. IfOk result (λ head. IsHead head.length head.bytes content))) }
{
    let length = disk.len()?;
    let mut bytes = [0; 9];
    disk.read_at(0, &mut bytes)?;
    Ok(Head { length, bytes })
}

// Reads an entry of a formatted file.
pub fn read_entry<D: Disk>(disk: &mut D, n: u32) -> Result<[u8; ENTRY_SIZE], Failed>
    requires { n < ENTRIES }
    ensures { Step (verdict result) (D.seen disk.old) (D.seen disk.new)
        (Finds (λ content. FIRST_SLOT ≤ length content → IfOk result (λ entry. entry ≡ entry_bytes content n))) }
{
    let mut entry = [0; ENTRY_SIZE];
    disk.read_at(entry_place(n), &mut entry)?;
    Ok(entry)
}

// The puts of the entry if its gate is open, or that it isn't sound over this extent.
fn next_entry<D: Disk>(
    disk: &mut D,
    kind: Kind,
    n: u32,
    extent: u32,
) -> Result<Option<Txn>, JournalError>
    requires kind { OfContent (D.seen disk.old) (λ content. kind ≡ kind_of content) }
    requires number { n < ENTRIES }
    requires extent { extent ≤ MOST_SLOTS }
    requires born { OfContent (D.seen disk.old) (λ content. IsTrue (is_born content)) }
    ensures entry { Step (verdict_of_open result) (D.seen disk.old) (D.seen disk.new)
        (Finds (λ content. NextAs (entry_in content n) n extent result)) }
    ensures sound { IfNext result (λ puts. IsTxn puts × IsTrue (slots_fit puts extent)) }
{
    let entry = read_entry(disk, n)?;
    if entry[0] != GATE_OPEN {
        return Ok(None);
    }
    let entry = entry_form(kind, n, entry);
    if !is_good(&entry, extent) {
        return Err(JournalError::BadEntry { n });
    }
    Ok(Some(puts_of(&entry)))
}

// The entries in use of a formatted file.
#[derive(Drop)]
pub struct EntriesRead {
    // How many they are, and the newest of their puts.
    pub in_use: u32,
    pub waiting: Newest,
    // The extent after them.
    pub extent: u32,
}

// Reads the entries in use of a formatted file of so many slots.
pub fn read_entries<D: Disk>(
    alloc: Global,
    disk: &mut D,
    kind: Kind,
    slots: u32,
) -> Result<EntriesRead, JournalError>
    requires kind { OfContent (D.seen disk.old) (λ content. kind ≡ kind_of content) }
    requires slots { slots ≤ MOST_SLOTS }
    requires born { OfContent (D.seen disk.old) (λ content. IsTrue (is_born content) × (slots ≡ slots_in (length content))) }
    ensures entries { Step (verdict_of_open result) (D.seen disk.old) (D.seen disk.new) (Finds (λ content. InUseAs content result)) }
    ensures bounded { IfOk result AreBounded }
{
    let mut extent = slots;
    let mut waiting = Newest::new(alloc)?;
    for n in 0..ENTRIES {
        match next_entry(disk, kind, n, extent)? {
            Some(puts) => {
                extent = extent_after(&puts, extent);
                waiting.add(&puts);
            }
            None => {
                return Ok(EntriesRead {
                    in_use: n,
                    waiting,
                    extent,
                });
            }
        }
    }
    Ok(EntriesRead {
        in_use: ENTRIES,
        waiting,
        extent,
    })
}
