// Laws of how long a file gets over runs, by the streams that its history has, each the contract of a function that does nothing.
ghost use Rattle.std.specs.Prelude.{◌+◌, ◌-◌, ◌*◌, ◌^◌, ◌≤◌, [], ℕ, List, max};
ghost use Rattle.ss_catalog.specs.declared.params.Family.TheVariants.{Exp, Power};
ghost use Rattle.ss_laws.specs.Sizes.{HoldsAtMost, TakesAtMost};
ghost use Rattle.ss_store.specs.Recover.{Stands};
ghost use Rattle.ss_stream.specs.Calls.{UsesAtMost};
ghost use Rattle.ss_targets.specs.Exp.{IsExp};
ghost use Rattle.ss_targets.specs.Power.{IsPower};
ghost use Rattle.ss_program.specs.Line.{History};
ghost use Rattle.ss_promises.specs.Chained.{AreLinked, ExtendsAll, Link};
ghost use Rattle.ss_promises.specs.Short.{AlwaysHas, IsAsShort};

use ss_outside::Disk;

/// A file gets no longer, over any chain of runs, crashes and openings, than its streams need at a time, or than it was. With S streams of
/// which each takes at most k, and m for its landmarks, that is less than 36,864 + 128 (S (k + m) + 2) bytes, where an empty file was first.
/// Of K target windows and B steps of the clock k is 2K + B - 1, and so a day more takes 128 bytes more of each stream within a day.
pub fn files_are_as_short_as_their_streams<D: Disk>()
    ensures streams { (links : List (Link D)) (first last : List ℕ) (used : ℕ) (history : History) → Stands history first →
        UsesAtMost used first → AreLinked D.seen links first last → (now : History) × ExtendsAll links history now × Stands now last
        × ((count k m : ℕ) → AlwaysHas count (λ front. TakesAtMost front k m) now → IsAsShort used (count * (max 1 k + m)) last) }
    ensures exp { (links : List (Link D)) (first last : List ℕ) (used : ℕ) (history : History) → Stands history first →
        UsesAtMost used first → AreLinked D.seen links first last → (now : History) × ExtendsAll links history now × Stands now last
        × ((count b r s n g steps m : ℕ) → IsExp b r s → (b - 1) * n ≤ r * s * (b ^ g - 1) →
        AlwaysHas count (λ front. HoldsAtMost front (Exp b r s) n steps m) now →
        IsAsShort used (count * (max 1 (2 * (r * g) + steps - 1) + m)) last) }
    ensures power { (links : List (Link D)) (first last : List ℕ) (used : ℕ) (history : History) → Stands history first →
        UsesAtMost used first → AreLinked D.seen links first last → (now : History) × ExtendsAll links history now × Stands now last
        × ((count p q r s n g steps m : ℕ) → IsPower p q r s → (p + q) * n ≤ r * s * g ^ (p + q) →
        AlwaysHas count (λ front. HoldsAtMost front (Power p q r s) n steps m) now →
        IsAsShort used (count * (max 1 (2 * (r * g ^ p) + steps - 1) + m)) last) }
    // An empty file uses no slot.
    ensures empty { UsesAtMost 0 [] }
{}
