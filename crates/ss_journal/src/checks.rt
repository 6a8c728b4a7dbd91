// Checksums in records and entries of checked stores.
ghost use Rattle.std.specs.Prelude.{◌≡◌, ◌+◌, ◌≤◌, ◌++◌, length, take};
ghost use Rattle.ss_journal.specs.declared.kind.Kind.TheVariants.{Checked};
ghost use Rattle.ss_journal.specs.Checks.{check_of, entry_form, masked_from, slot_form};

use crate::format::ENTRY_SIZE;
use crate::kind::Kind;
use ss_base::SLOT_SIZE;
use ss_checksum::checksum;
use ss_fields::put_u32;

/// Where the check of a record stands in its slot.
pub const SLOT_CHECK: usize = 124;

/// Where the check of an entry stands in it.
pub const ENTRY_CHECK: usize = 540;

// The check of a number and of bytes behind it: their checksum, the lowest byte first.
fn check_of(number: u32, bytes: &[u8]) -> [u8; 4]
    ensures { result ≡ check_of number bytes.now }
{
    let mut front = [0; 4];
    put_u32(&mut front, 0, number);
    checksum(&front, bytes).to_le_bytes()
}

// Takes a mask into the bytes from a place on, by an exclusive or.
fn mask(bytes: &mut [u8], place: usize, mask: [u8; 4])
    requires { place + 4 ≤ length bytes.old }
    ensures { bytes.new ≡ masked_from place mask bytes.old }
{
    for k in 0..4 {
        bytes[place + k] ^= mask[k];
    }
}

// What a slot of a checked store says in the form that the file has, and the other way round.
fn checked_slot(slot: u32, bytes: [u8; SLOT_SIZE]) -> [u8; SLOT_SIZE]
    ensures { result ≡ slot_form Checked slot bytes }
{
    if bytes[0] == 0 {
        return bytes;
    }
    let check = check_of(slot, &bytes[0..SLOT_CHECK]);
    let mut formed = bytes;
    mask(&mut formed, SLOT_CHECK, check);
    formed
}

/// What a slot says in the form that the file has, and the other way round.
pub fn slot_form(kind: Kind, slot: u32, bytes: [u8; SLOT_SIZE]) -> [u8; SLOT_SIZE]
    ensures { result ≡ slot_form kind slot bytes }
{
    match kind {
        Kind::Plain => bytes,
        Kind::Checked => checked_slot(slot, bytes),
    }
}

// The same of an entry.
fn checked_entry(n: u32, entry: [u8; ENTRY_SIZE]) -> [u8; ENTRY_SIZE]
    ensures { result ≡ entry_form Checked n entry }
{
    let mut entry = entry;
    let check = check_of(n, &entry[1..ENTRY_CHECK]);
    mask(&mut entry, ENTRY_CHECK, check);
    entry
}

/// What an entry says in the form that the file has, and the other way round.
pub fn entry_form(kind: Kind, n: u32, entry: [u8; ENTRY_SIZE]) -> [u8; ENTRY_SIZE]
    ensures { result ≡ entry_form kind n entry }
{
    match kind {
        Kind::Plain => entry,
        Kind::Checked => checked_entry(n, entry),
    }
}
