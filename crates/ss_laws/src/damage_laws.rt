// Laws of damage to the bytes of a checked store, each the contract of a function that does nothing.
ghost use Rattle.std.specs.Prelude.{◌≡◌, ◌≢◌, ◌⊎◌, ◌^◌, ◌<◌, ℕ, List, replicate, IsFalse, IsTrue, None, Some};
ghost use Rattle.ss_codec.specs.declared.record.Record.{Record};
ghost use Rattle.ss_codec.specs.declared.record.Record.TheVariants.{Free};
ghost use Rattle.ss_codec.specs.Record.{is_valid};
ghost use Rattle.ss_journal.specs.declared.put.Put.{Put};
ghost use Rattle.ss_journal.specs.Puts.{FillSlots, IsTxn};
ghost use Rattle.ss_laws.specs.Damage.{AreOddBits, AreTwoBits, in_entry, in_slot, IsBurst, is_entry, read_from};

/// A record that changed in its slot in a run of at most 32 bits, in two bits or in one is read as none. So is one that changed in
/// three, unless all of its bytes became zeros, which are read as a free slot.
pub fn damaged_records_are_told()
    ensures burst { (slot : ℕ) (r : Record) (bytes : List ℕ) → IsTrue (is_valid r) → r ≢ Free → IsBurst (in_slot slot r) bytes →
        read_from slot bytes ≡ None }
    ensures two { (slot : ℕ) (r : Record) (bytes : List ℕ) → IsTrue (is_valid r) → r ≢ Free → AreTwoBits (in_slot slot r) bytes →
        read_from slot bytes ≡ None }
    ensures odd { (slot : ℕ) (r : Record) (bytes : List ℕ) → IsTrue (is_valid r) → r ≢ Free → AreOddBits (in_slot slot r) bytes →
        (read_from slot bytes ≡ None) ⊎ ((bytes ≡ replicate 128 0) × (read_from slot bytes ≡ Some Free)) }
{}

/// A record that stands in the slot of another number is read as none.
pub fn moved_records_are_told()
    ensures { (from to : ℕ) (r : Record) → from < 2 ^ 32 → to < 2 ^ 32 → from ≢ to → IsTrue (is_valid r) → r ≢ Free →
        read_from to (in_slot from r) ≡ None }
{}

/// An entry that changed behind its gate in a run of at most 32 bits, or in one to three bits, isn't sound over any extent.
pub fn damaged_entries_are_told()
    ensures burst { (n : ℕ) (puts : List Put) (bytes : List ℕ) (extent : ℕ) → FillSlots puts → IsTxn puts → IsBurst (in_entry n puts) bytes →
        IsFalse (is_entry n bytes extent) }
    ensures two { (n : ℕ) (puts : List Put) (bytes : List ℕ) (extent : ℕ) → FillSlots puts → IsTxn puts → AreTwoBits (in_entry n puts) bytes →
        IsFalse (is_entry n bytes extent) }
    ensures odd { (n : ℕ) (puts : List Put) (bytes : List ℕ) (extent : ℕ) → FillSlots puts → IsTxn puts → AreOddBits (in_entry n puts) bytes →
        IsFalse (is_entry n bytes extent) }
{}
