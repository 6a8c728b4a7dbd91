// Laws, each the contract of a function that does nothing.
ghost use Rattle.std.specs.Prelude.{◌≡◌, ◌≢◌, ◌≤◌, [], ◌∷◌, ◌++◌, List, count_by, remove, slice_set, Some, IsSome, ◌↔◌};
ghost use Rattle.ss_line.specs.declared.entry.At.{At};
ghost use Rattle.ss_line.specs.declared.entry.Entry.{Entry};
ghost use Rattle.ss_line.specs.Line.{is_at, index_of, entry_at, StandsIn};

/// A place stays good, with its entry, while others are put, set and cut out.
pub fn places_stay()
    ensures pushed { (entries : List (At × Entry)) (at new : At) (e : Entry) → StandsIn entries at
        → entry_at (entries ++ (new, e) ∷ []) at ≡ entry_at entries at }
    ensures set { (entries : List (At × Entry)) (at other : At) (e : Entry) → at.0 ≢ other.0
        → entry_at (slice_set entries (index_of entries other) (other, e)) at ≡ entry_at entries at }
    ensures cut_out { (entries : List (At × Entry)) (at other : At) → at.0 ≢ other.0
        → entry_at (remove entries (index_of entries other)) at ≡ entry_at entries at }
    ensures stands { (entries : List (At × Entry)) (at : At) → IsSome (entry_at entries at) ↔ StandsIn entries at }
{}

/// A set changes the entry at its place, and a place that is cut out no longer stands.
pub fn places_change()
    ensures set { (entries : List (At × Entry)) (at : At) (e : Entry) → StandsIn entries at
        → entry_at (slice_set entries (index_of entries at) (at, e)) at ≡ Some e }
    ensures cut_out { (entries : List (At × Entry)) (at : At) → StandsIn entries at
        → count_by (is_at at) entries ≤ 1 → ¬ StandsIn (remove entries (index_of entries at)) at }
{}
