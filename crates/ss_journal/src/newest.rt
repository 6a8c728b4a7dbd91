// Puts of which each slot has one at most, the newest, in memory that is taken once.
ghost use Rattle.std.specs.Prelude.{◌≡◌, ◌<◌, ◌≤◌, All, IsTrue, drop, length, take};
ghost use Rattle.ss_journal.specs.Puts.{slots_rise_from};

use crate::format::{MOST_SLOTS, MOST_WAITING};
use crate::put::Put;
use ss_base::SLOT_SIZE;
use std::alloc::{AllocError, Global};
use std::marker::Model;

// Puts whose slots rise. It has room for as many as the entries of a file hold, and never grows.
#[derive(Drop)]
pub struct Newest {
    puts: Vec<Put>,
}

impl Model for Newest {
    ghost use Rattle.std.specs.Prelude.{◌≤◌, List, IsTrue};
    ghost use Rattle.std.specs.Vec.{vec_capacity};
    ghost use Rattle.ss_journal.specs.declared.put.Put.{Put};
    ghost use Rattle.ss_journal.specs.declared.format.TheConstants.{MOST_WAITING};
    ghost use Rattle.ss_journal.specs.Puts.{slots_rise_from};

    ghost Value = { List Put };

    ghost view = { λ s. s.puts.items };

    ghost invariant = { λ s. (MOST_WAITING ≤ vec_capacity s.puts) × IsTrue (slots_rise_from 0 s.puts.items) };
}

// How many of the puts, whose slots rise, are for slots below this one.
fn count_below(puts: &[Put], slot: u32) -> usize
    requires rise { IsTrue (slots_rise_from 0 puts.now) }
    ensures most { result ≤ length puts.now }
    ensures below { All (λ put. put.slot < slot) (take result puts.now) }
    ensures from { All (λ put. slot ≤ put.slot) (drop result puts.now) }
{
    let mut low = 0;
    let mut high = puts.len();
    while low < high {
        let middle = low + (high - low) / 2;
        if puts[middle].slot < slot {
            low = middle + 1;
        } else {
            high = middle;
        }
    }
    low
}

impl Newest {
    ghost use Rattle.std.specs.Prelude.{◌≡◌, ◌+◌, ◌<◌, ◌≤◌, ℕ, List, [], length, unwrap_or, IfOk, IsTrue};
    ghost use Rattle.ss_journal.specs.Newest.{newest_after, with_newest};
    ghost use Rattle.ss_journal.specs.Puts.{FillSlots, slots_rise_from, with_puts};
    ghost use Rattle.ss_journal.specs.Writes.{AreSlots};

    // None, with room for all. It takes memory.
    pub fn new(alloc: Global) -> Result<Newest, AllocError>
        ensures { IfOk result (λ newest. newest ≡ []) }
    {
        let puts = Vec::with_capacity(alloc, MOST_WAITING)?;
        Ok(Newest { puts })
    }

    // Keeps one put, in place of an older one for its slot. It takes no memory.
    fn put(&mut self, put: &Put)
        requires room { length self.old < MOST_WAITING }
        requires slot { put.now.slot < MOST_SLOTS }
        ensures kept { self.new ≡ with_newest put.now self.old }
        ensures whole { length put.now.bytes ≡ SLOT_SIZE }
    {
        let place = count_below(self.puts.as_slice(), put.slot);
        if place < self.puts.len() && self.puts[place].slot == put.slot {
            self.puts[place] = *put;
        } else {
            let _ = self.puts.insert(place, *put);
        }
    }

    // Keeps puts, each in place of an older one for its slot. It takes no memory.
    pub fn add(&mut self, puts: &[Put])
        requires room { length self.old + length puts.now ≤ MOST_WAITING }
        requires slots { AreSlots puts.now }
        ensures kept { self.new ≡ newest_after puts.now self.old }
        ensures whole { FillSlots puts.now }
        ensures rise { IsTrue (slots_rise_from 0 self.old) }
    {
        // Read for the proof alone: with it comes that the puts that are kept rise.
        let _ = &self.puts;
        for put in puts {
            self.put(put);
        }
    }

    // Forgets them all, and keeps the room.
    pub fn clear(&mut self)
        ensures { self.new ≡ [] }
    {
        self.puts.clear();
    }

    pub fn as_slice(&self) -> &[Put]
        ensures all { result.now ≡ self.now }
        ensures rise { IsTrue (slots_rise_from 0 self.now) }
    {
        self.puts.as_slice()
    }

    // The bytes of the put for the slot.
    pub fn find(&self, slot: u32) -> Option<[u8; SLOT_SIZE]>
        ensures { (map : ℕ → List ℕ) → with_puts self.now map slot ≡ unwrap_or result (map slot) }
    {
        let puts = self.puts.as_slice();
        let place = count_below(puts, slot);
        if place < puts.len() && puts[place].slot == slot {
            return Some(puts[place].bytes);
        }
        None
    }
}
