// Laws of what a run blames its source for, each the contract of a function that does nothing. Each begins with the clauses of `run` from
// which it follows: `source`, `unfed` and `reads`.
ghost use Rattle.std.specs.Prelude.{◌≡◌, ◌+◌, ◌<◌, ℕ, List, Option, Some, IsSome, length};
ghost use Rattle.ss_arguments.specs.declared.mode.Mode.{Mode};
ghost use Rattle.ss_outside.specs.Source.{RoseBy};
ghost use Rattle.ss_outside.specs.Verdict.{Rose};
ghost use Rattle.ss_program.specs.Ending.{served_by};
ghost use Rattle.ss_program.specs.Status.{EndsAs};
ghost use Rattle.ss_program.specs.declared.running.TheConstants.{LONGEST_INPUT};
ghost use Rattle.ss_promises.specs.Blamed.{FeedsBy, ReadsBy, UnfedBy};

use ss_outside::Source;
use ss_program::Status;

/// 5 and 8 come only of the source, in a run over it: 5 where a read of it failed, and 8 where it had more bytes than an input may have,
/// of which that many and one more were taken.
pub fn sources_are_blamed_with_cause<S: Source>(old: &S, new: &S)
    ensures fault { (mode : Option Mode) (held holds : Option (List ℕ)) (number : ℕ) →
        FeedsBy (new.now ≡ old.now) (S.faults old.now) (S.faults new.now) (S.taken old.now) (S.taken new.now) number →
        UnfedBy mode (new.now ≡ old.now) held holds number → EndsAs number Status.SourceFault →
        IsSome (served_by mode) × Rose (S.faults old.now) (S.faults new.now) }
    ensures limit { (mode : Option Mode) (held holds : Option (List ℕ)) (number : ℕ) →
        FeedsBy (new.now ≡ old.now) (S.faults old.now) (S.faults new.now) (S.taken old.now) (S.taken new.now) number →
        UnfedBy mode (new.now ≡ old.now) held holds number → ReadsBy mode (S.left old.now) (S.left new.now) number →
        EndsAs number Status.InputLimit →
        IsSome (served_by mode) × RoseBy (LONGEST_INPUT + 1) (S.taken old.now) (S.taken new.now)
        × ((input : List ℕ) → S.left old.now ≡ Some input → LONGEST_INPUT < length input) }
{}
