// Laws over records and their spellings, each the contract of a function that does nothing.
ghost use Rattle.std.specs.Prelude.{◌≡◌, ◌↔◌, ℕ, ◌+◌, ◌-◌, ◌^◌, ◌<◌, ◌≤◌, Bool, ℤ, FitsSigned, List, replicate, IsTrue, Option, Some, MatchOption};
ghost use Rattle.std.specs.Int.{w64};
ghost use Rattle.ss_summary.specs.Figures.{Figures, IsPossible};
ghost use Rattle.ss_base.specs.declared.limits.TheConstants.{MOST_VALUES};
ghost use Rattle.ss_catalog.specs.Names.{is_name};
ghost use Rattle.ss_catalog.specs.Params.{in_range, step_number};
ghost use Rattle.ss_base.specs.declared.limits.TheConstants.{LAST_TIME};
ghost use Rattle.ss_catalog.specs.declared.params.Params.{Params};
ghost use Rattle.ss_base.specs.declared.limits.TheConstants.{SLOT_SIZE};
ghost use Rattle.ss_codec.specs.declared.record.Record.{Record};
ghost use Rattle.ss_codec.specs.declared.record.Record.TheVariants.{Free, Stream, Window, Landmark, Value};
ghost use Rattle.ss_codec.specs.Record.{is_valid, spelling, Spells};
ghost use Rattle.ss_codec.specs.Decoded.{decoded};

/// What is decoded is the record that the bytes spell, and no bytes that spell a record are passed over.
pub fn decoded_is_what_is_spelled()
    ensures { (bytes : List ℕ) (r : Record) → (decoded bytes ≡ Some r) ↔ Spells bytes r }
{}

/// A valid record that was spelled is decoded again.
pub fn spelling_reads_back()
    ensures { (r : Record) → IsTrue (is_valid r) → decoded (spelling r) ≡ Some r }
{}

/// Valid records with one spelling are one record.
pub fn one_spelling()
    ensures { (r s : Record) → IsTrue (is_valid r) → IsTrue (is_valid s) → spelling r ≡ spelling s → r ≡ s }
{}

/// A slot is free exactly where it is zeros.
pub fn free_slots_are_zeros()
    ensures { (bytes : List ℕ) → (decoded bytes ≡ Some Free) ↔ (bytes ≡ replicate SLOT_SIZE 0) }
{}

/// What a valid stream is, whether it stands or was dropped.
pub fn which_streams_are_valid()
    ensures { (id : ℕ) (name : List ℕ) (params : Params) (dropped : Bool) → IsTrue (is_valid (Stream id name params dropped))
        ↔ ((id < 2 ^ 32) × IsTrue (is_name name) × IsTrue (in_range params) × (step_number params.within < 2 ^ 32)) }
{}

/// What a valid window is.
pub fn which_windows_are_valid()
    ensures { (id first : ℕ) (f : Figures) → IsTrue (is_valid (Window id first f))
        ↔ ((id < 2 ^ 32) × (1 ≤ first) × (first + f.count - 1 ≤ MOST_VALUES) × IsPossible f) }
{}

/// What a valid landmark is. One that is open has no count of its values yet.
pub fn which_landmarks_are_valid()
    ensures { (id number values start : ℕ) (finish : Option ℕ) → IsTrue (is_valid (Landmark id number values start finish))
        ↔ ((id < 2 ^ 32) × (1 ≤ number) × (number < 2 ^ 32)
        × MatchOption finish ((values ≡ 0) × (start ≤ LAST_TIME)) (λ finish. (values < 2 ^ 32) × (start ≤ finish) × (finish ≤ LAST_TIME))) }
{}

/// What a valid value of a landmark is.
pub fn which_values_are_valid()
    ensures { (id number index t : ℕ) (v : ℤ) → IsTrue (is_valid (Value id number index t v))
        ↔ ((id < 2 ^ 32) × (1 ≤ number) × (number < 2 ^ 32) × (1 ≤ index) × (index < 2 ^ 32) × (t ≤ LAST_TIME) × FitsSigned w64 v) }
{}
