// Laws over what slots hold, each the contract of a function that does nothing.
ghost use Rattle.std.specs.Prelude.{◌≡◌, ◌≤◌, ◌<◌, ℕ, IsTrue, List, [], ◌∷◌, ◌++◌, Option, Some, true, false};
ghost use Rattle.std.specs.List.Sorted.{IsPermutation};
ghost use Rattle.ss_journal.specs.Redo.{SlotMap, SameMap, StandsFor, changed, zeros};
ghost use Rattle.ss_journal.specs.declared.put.Put.{Put};
ghost use Rattle.ss_journal.specs.declared.format.TheConstants.{MOST_SLOTS};
ghost use Rattle.ss_records.specs.Live.{are_zeros};
ghost use Rattle.ss_codec.specs.Record.{Spells};
ghost use Rattle.ss_codec.specs.declared.record.Record.{Record};
ghost use Rattle.ss_codec.specs.declared.record.Record.TheVariants.{Free};
ghost use Rattle.ss_model.specs.Standing.{IsState};
ghost use Rattle.ss_codec.specs.declared.record.Record.TheVariants as records;
ghost use Rattle.ss_model.specs.State.{Created, Stream};
ghost use Rattle.ss_recover.specs.Doomed.{may_go, records_beside, without_numbered};
ghost use Rattle.ss_parts.specs.Held.{AreHeld, HasWholeSlots, IsRecord, occupied};
ghost use Rattle.ss_recover.specs.Parts.{carried, carries};
ghost use Rattle.ss_parts.specs.declared.parts.StreamParts.{StreamParts};

/// The map of an image has whole slots, and no more of them than a file can have.
pub fn images_have_whole_slots()
    ensures { (image : List ℕ) (found : SlotMap) → StandsFor image found → HasWholeSlots found }
{}

/// What is held stands for what the map carries.
pub fn what_is_held_is_carried()
    ensures { (parts : List StreamParts) (streams : List Stream) (found : SlotMap) → HasWholeSlots found →
        AreHeld parts streams found → carried found ≡ carries streams }
{}

/// Maps with the same bytes in each slot, and the same extent, have the same slots occupied, and carry the same.
pub fn same_maps_carry_the_same()
    ensures occupied { (first second : SlotMap) → first.extent ≤ MOST_SLOTS → SameMap first second → occupied first ≡ occupied second }
    ensures carried { (first second : SlotMap) → first.extent ≤ MOST_SLOTS → SameMap first second → carried first ≡ carried second }
{}

/// A record in a slot that was free is one more.
pub fn a_record_in_a_free_slot()
    ensures { (found : SlotMap) (put : Put) (r : Record) → IsRecord put r → put.slot ≤ found.extent →
        are_zeros (found.bytes put.slot) ≡ true →
        IsPermutation ((put.slot, Some r) ∷ occupied found) (occupied (changed found (put ∷ []))) }
{}

/// A record in the place of another.
pub fn a_record_in_place_of_another()
    ensures { (found : SlotMap) (put : Put) (was : Option Record) (r : Record) (rest : List (ℕ × Option Record)) →
        IsRecord put r → IsPermutation ((put.slot, was) ∷ rest) (occupied found) →
        IsPermutation ((put.slot, Some r) ∷ rest) (occupied (changed found (put ∷ []))) }
{}

/// Zeros in the place of a record.
pub fn a_slot_that_is_freed()
    ensures { (found : SlotMap) (put : Put) (was : Option Record) (rest : List (ℕ × Option Record)) →
        put.bytes ≡ zeros → IsPermutation ((put.slot, was) ∷ rest) (occupied found) →
        IsPermutation rest (occupied (changed found (put ∷ []))) }
{}

/// A record of a dropped stream may go: without it the map carries the same streams.
pub fn a_dropped_record_that_goes()
    ensures { (found : SlotMap) (put : Put) (streams : List Stream) (gone : Record) (others : List (ℕ × Option Record)) →
        HasWholeSlots found → put.bytes ≡ zeros → carried found ≡ carries streams → IsTrue (may_go gone (records_beside others)) →
        IsPermutation ((put.slot, Some gone) ∷ others) (occupied found) → carried (changed found (put ∷ [])) ≡ carries streams }
{}

/// A stream whose record says from now on that it was dropped is carried no more, and the others are as they were.
pub fn a_stream_that_is_dropped()
    ensures { (found : SlotMap) (put : Put) (streams : List Stream) (s : Created) (others : List (ℕ × Option Record)) →
        HasWholeSlots found → IsRecord put (records.Stream s.number s.name s.params true) → carried found ≡ carries streams →
        IsPermutation ((put.slot, Some (records.Stream s.number s.name s.params false)) ∷ others) (occupied found) →
        carried (changed found (put ∷ [])) ≡ carries (without_numbered s.number streams) }
{}

/// What a map carries is a state.
pub fn what_is_carried_is_a_state()
    ensures { (found : SlotMap) (streams : List Stream) → found.extent ≤ MOST_SLOTS → carried found ≡ carries streams →
        IsState streams }
{}
