// The bytes of a group of entries, which come to the file together, in memory that is taken once.
ghost use Rattle.std.specs.Prelude.{◌≡◌, ◌*◌, ◌≤◌, length};
ghost use Rattle.ss_journal.specs.Groups.{entry_count, part};

use crate::checks::entry_form;
use crate::entry::entry_of;
use crate::format::{ENTRIES, ENTRIES_SIZE, ENTRY_SIZE, GATE_OPEN, MOST_PUTS, MOST_WAITING};
use crate::kind::Kind;
use crate::put::Put;
use std::alloc::{AllocError, Global};
use std::marker::Model;

// Bytes of entries, in order. It has room for all that a file holds, and never grows.
#[derive(Drop)]
pub struct Group {
    bytes: Vec<u8>,
}

impl Model for Group {
    ghost use Rattle.std.specs.Prelude.{◌≤◌, ℕ, List};
    ghost use Rattle.std.specs.Vec.{vec_capacity};
    ghost use Rattle.ss_journal.specs.declared.format.TheConstants.{ENTRIES_SIZE};

    ghost Value = { List ℕ };

    ghost view = { λ s. s.bytes.items };

    ghost invariant = { λ s. ENTRIES_SIZE ≤ vec_capacity s.bytes };
}

// In how many entries so many puts are spelled.
pub fn entry_count(count: usize) -> u32
    requires { count ≤ MOST_WAITING }
    ensures { result ≡ entry_count count }
{
    ((count + (MOST_PUTS - 1)) / MOST_PUTS) as u32
}

// The puts of entry `k` of a group.
fn part(puts: &[Put], k: u32) -> &[Put]
    requires { MOST_PUTS * k ≤ length puts.now }
    ensures { result.now ≡ part k puts.now }
{
    let from = MOST_PUTS * k as usize;
    &puts[from..(from + MOST_PUTS).min(puts.len())]
}

impl Group {
    ghost use Rattle.std.specs.Prelude.{◌≡◌, ◌+◌, ◌*◌, ◌<◌, ◌≤◌, [], ◌++◌, ◌∷◌, length, IfOk};
    ghost use Rattle.ss_journal.specs.Groups.{entry_count, group_bytes, open_entry, part};
    ghost use Rattle.ss_journal.specs.Kept.{closed_behind};

    // None, with room for all. It takes memory.
    pub fn new(alloc: Global) -> Result<Group, AllocError>
        ensures { IfOk result (λ group. group ≡ []) }
    {
        let bytes = Vec::with_capacity(alloc, ENTRIES_SIZE)?;
        Ok(Group { bytes })
    }

    // Adds bytes after those that are there. It takes no memory.
    fn add(&mut self, bytes: &[u8])
        requires { length self.old + length bytes.now ≤ ENTRIES_SIZE }
        ensures { self.new ≡ self.old ++ bytes.now }
    {
        let _ = self.bytes.extend_from_slice(bytes);
    }

    // Adds entry number `n` of the file, of these puts, with its gate open.
    fn add_entry(&mut self, kind: Kind, n: u32, puts: &[Put])
        requires few { length puts.now ≤ MOST_PUTS }
        requires room { length self.old + ENTRY_SIZE ≤ ENTRIES_SIZE }
        ensures value { self.new ≡ self.old ++ open_entry kind n puts.now }
        ensures size { length self.new ≡ length self.old + ENTRY_SIZE }
    {
        let mut entry = entry_of(puts);
        entry[0] = GATE_OPEN;
        self.add(&entry_form(kind, n, entry));
    }

    // Spells puts in as few entries as hold them, from entry number `n` of the file on, in place of what was there.
    fn spell_entries(&mut self, kind: Kind, n: u32, puts: &[Put])
        requires { n + entry_count (length puts.now) ≤ ENTRIES }
        ensures value { self.new ≡ group_bytes kind n (entry_count (length puts.now)) puts.now }
        ensures size { length self.new ≡ ENTRY_SIZE * entry_count (length puts.now) }
    {
        self.bytes.clear();
        for k in 0..entry_count(puts.len()) {
            self.add_entry(kind, n + k, part(puts, k));
        }
    }

    // The same, and the closed gate of the entry behind them, where the file has one.
    pub fn spell(&mut self, kind: Kind, n: u32, puts: &[Put])
        requires { n + entry_count (length puts.now) ≤ ENTRIES }
        ensures { self.new ≡ closed_behind n (group_bytes kind n (entry_count (length puts.now)) puts.now) }
    {
        self.spell_entries(kind, n, puts);
        if n + entry_count(puts.len()) < ENTRIES {
            self.add(&[0]);
        }
    }

    pub fn as_slice(&self) -> &[u8]
        ensures { result.now ≡ self.now }
    {
        self.bytes.as_slice()
    }
}
