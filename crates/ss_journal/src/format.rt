// The places and sizes of the file, in bytes.
ghost use Rattle.std.specs.Prelude.{◌≡◌, ◌<◌, ◌≤◌};
ghost use Rattle.ss_journal.specs.Gates.{entry_place};
ghost use Rattle.ss_journal.specs.Format.{magic, slot_place, slots_in};

use crate::kind::Kind;
use ss_base::SLOT_SIZE;

// A gate with this byte is open, and closed with any other.
pub const GATE_OPEN: u8 = 0xA5;

// They stand after the birth gate, from byte 1 on: that of a plain store, and that of a checked one.
pub const MAGIC: [u8; 8] = *b"SSTORE01";

pub const CHECKED_MAGIC: [u8; 8] = *b"SSTORE02";

// Where the magic ends.
pub const MAGIC_END: u64 = 9;

pub const ENTRIES: u32 = 64;

/// How many bytes an entry has, its gate first.
pub const ENTRY_SIZE: usize = 544;

/// Where the first entry begins.
pub const FIRST_ENTRY: u64 = 512;

/// How many puts a transaction has at most, and an entry.
pub const MOST_PUTS: usize = 4;

// The size of a put in an entry: the number of the slot, then its bytes.
pub const PUT_SIZE: usize = 132;

// How many puts all entries hold at most.
pub const MOST_WAITING: usize = 256;

// How many bytes all entries have.
pub const ENTRIES_SIZE: usize = 34_816;

/// How many slots a file has at most. They are numbered from 0.
pub const MOST_SLOTS: u32 = 1 << 20;

/// How many slots a page has: it is read at once.
pub const PAGE_SLOTS: u32 = 32;

/// How many bytes a page has.
pub const PAGE_SIZE: usize = 4096;

/// How many pages a file has at most. They are numbered from 0.
pub const MOST_PAGES: u32 = 1 << 15;

/// Where the first slot begins.
pub const FIRST_SLOT: u64 = 36864;

// Where the last slot that a file can have ends.
pub const FILE_END: u64 = 134_254_592;

// The magic of a kind.
pub fn magic(kind: Kind) -> [u8; 8]
    ensures { result ≡ magic kind }
{
    match kind {
        Kind::Plain => MAGIC,
        Kind::Checked => CHECKED_MAGIC,
    }
}

// Where the entry begins.
pub fn entry_place(n: u32) -> u64
    requires { n < ENTRIES }
    ensures { result ≡ entry_place n }
{
    FIRST_ENTRY + ENTRY_SIZE as u64 * u64::from(n)
}

// Where the slot begins.
pub fn slot_place(slot: u32) -> u64
    requires { slot < MOST_SLOTS }
    ensures { result ≡ slot_place slot }
{
    FIRST_SLOT + SLOT_SIZE as u64 * u64::from(slot)
}

// How many whole slots lie in a file of this length.
pub fn slots_in(length: u64) -> u32
    ensures value { result ≡ slots_in length }
    ensures most { result ≤ MOST_SLOTS }
{
    let whole = length.saturating_sub(FIRST_SLOT) / SLOT_SIZE as u64;
    whole.min(u64::from(MOST_SLOTS)) as u32
}
