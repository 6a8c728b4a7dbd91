// Laws, each the contract of a function that does nothing.
ghost use Rattle.std.specs.Prelude.{◌≡◌, ℕ, List, flat_map};
ghost use Rattle.ss_journal.specs.Entries.{puts_of};
ghost use Rattle.ss_journal.specs.Redo.{SlotMap, Redone, redo_entries, Gives, CameInPart};

/// Redo is idempotent. Where redoing the entries of an open prefix over a map gives a map, redoing them over one to which
/// any of their puts came already, in whole or in part, gives the same map: so each entry is judged good again.
pub fn redo_is_idempotent()
    ensures { (n : ℕ) (entries : List (List ℕ)) (old found new : SlotMap) → redo_entries n entries old ≡ Redone.stands found
        → CameInPart (flat_map puts_of entries) old found new → Gives (redo_entries n entries new) found }
{}
