// A set of slots that gives the least one outside it in a few steps.
ghost use Rattle.std.specs.Prelude.{◌≡◌, ◌+◌, ◌-◌, ◌*◌, ◌^◌, ◌<◌, ◌≤◌, false, true, length, slice_index, slice_set, replicate, count_by, All, IfOk, not};
ghost use Rattle.std.specs.Prelude.{if◌then◌else◌};
ghost use Rattle.std.specs.List.{position, position_or_len};
ghost use Rattle.ss_journal.specs.declared.format.TheConstants.{MOST_SLOTS};
ghost use Rattle.ss_records.specs.Bits.{is_full_word};
ghost use Rattle.ss_records.specs.Tree.{members, IsTree, FullBefore};

use crate::bits::{first_clear, has_bit, put_bit};
use std::alloc::{AllocError, Global};
use std::marker::Model;

// How many slots lie under one word of the top level, and how many of these words there are for all slots.
const SLOTS_PER_TOP: usize = 1 << 18;

const TOPS: usize = 4;

/// A set of the slots that a file can have: a tree of bitmaps of 64 branches. It takes memory when it is made, and none later.
#[derive(Drop)]
pub struct SlotSet {
    // A bit for each slot: whether it is in the set.
    low: Vec<u64>,
    // A bit for each word of the level below: whether all of its bits are set.
    middle: Vec<u64>,
    top: Vec<u64>,
    // How many slots are in the set.
    count: u32,
}

impl Model for SlotSet {
    ghost use Rattle.std.specs.Prelude.{◌≡◌, List, Bool, count_by};
    ghost use Rattle.ss_records.specs.Tree.{members, IsTree};

    ghost Value = { List Bool };

    ghost view = { λ s. members s.low.items };

    ghost invariant = { λ s. IsTree s.low.items s.middle.items s.top.items × (s.count ≡ count_by (λ is. is) (members s.low.items)) };
}

impl SlotSet {
    /// No slot.
    pub fn new(alloc: Global) -> Result<SlotSet, AllocError>
        ensures slots { IfOk result (λ set. length set ≡ MOST_SLOTS) }
        ensures empty { IfOk result (All (λ is. is ≡ false)) }
    {
        SlotSet::under(alloc, TOPS)
    }

    // An empty set of the slots under so many words of the top level.
    fn under(alloc: Global, tops: usize) -> Result<SlotSet, AllocError>
        requires { tops ≤ 4 }
        ensures slots { IfOk result (λ set. length set ≡ SLOTS_PER_TOP * tops) }
        ensures empty { IfOk result (All (λ is. is ≡ false)) }
    {
        Ok(SlotSet {
            low: clear_words(alloc, 4096 * tops)?,
            middle: clear_words(alloc, 64 * tops)?,
            top: clear_words(alloc, tops)?,
            count: 0,
        })
    }

    /// How many slots are in the set.
    pub fn len(&self) -> u32
        ensures { result ≡ count_by (λ is. is) self.now }
    {
        self.count
    }

    /// Puts a slot into the set, or takes it out.
    pub fn put(&mut self, slot: usize, is_in: bool)
        requires { slot < length self.old }
        ensures { self.new ≡ slice_set self.old slot is_in }
    {
        let was_in = has_bit(&self.low, slot);
        let full = put_bit(&mut self.low, slot, is_in);
        let full = put_bit(&mut self.middle, slot / 64, full);
        let _ = put_bit(&mut self.top, slot / 64 / 64, full);
        self.count = counted(self.count, was_in, is_in);
    }

    /// The least slot outside the set.
    pub fn least_outside(&self) -> Option<u32>
        ensures { result ≡ position not self.now }
    {
        for (n, word) in self.top.iter().enumerate() {
            if *word != u64::MAX {
                let first = first_under(&self.low, &self.middle, &self.top, n);
                return Some(first as u32);
            }
        }
        None
    }
}

// So many words without a bit set.
fn clear_words(alloc: Global, n: usize) -> Result<Vec<u64>, AllocError>
    ensures { IfOk result (λ words. words.items ≡ replicate n 0) }
{
    vec![in alloc; 0; n]
}

// The count after one slot, which was in the set or not, is in it or not.
fn counted(count: u32, was_in: bool, is_in: bool) -> u32
    requires most { count < 2 ^ 32 - 1 }
    requires least { was_in ≡ true → 1 ≤ count }
    ensures { result + (if was_in then 1 else 0) ≡ count + (if is_in then 1 else 0) }
{
    count + u32::from(is_in) - u32::from(was_in)
}

// The first bit of the low level that isn't set, which lies under word `n` of the top level.
fn first_under(low: &[u64], middle: &[u64], top: &[u64], n: usize) -> usize
    requires tree { IsTree low.now middle.now top.now }
    requires word { n < length top.now }
    requires room { is_full_word (slice_index top.now n) ≡ false }
    requires full { FullBefore n top.now }
    ensures below { result < 64 * length low.now }
    ensures first { result ≡ position_or_len not (members low.now) }
{
    let block = first_clear(top, n);
    let word = first_clear(middle, block);
    first_clear(low, word)
}
