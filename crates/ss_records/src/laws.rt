// Laws, each the contract of a function that does nothing.
ghost use Rattle.std.specs.Prelude.{◌≡◌, ◌↔◌, ℕ, List, true, length};
ghost use Rattle.ss_journal.specs.Redo.{zeros};
ghost use Rattle.ss_records.specs.Live.{are_zeros};

/// Of the bytes that a slot may have, zeros alone leave it free.
pub fn zeros_alone_are_free()
    ensures { (bytes : List ℕ) → length bytes ≡ length zeros → (are_zeros bytes ≡ true) ↔ (bytes ≡ zeros) }
{}
