// Laws of what is made, each the contract of a function that does nothing.
ghost use Rattle.std.specs.Prelude.{◌≡◌, ℕ, true, ℤ, pos, ◌*ℤ◌, ◌≤ℤ◌, List};
ghost use Rattle.ss_bounds.specs.declared.fraction.Fraction.{Fraction};
ghost use Rattle.ss_bounds.specs.Guess.{AreAllSplit};
ghost use Rattle.ss_bounds.specs.Split.{SplitFigures};
ghost use Rattle.ss_catalog.specs.Queries.{is_certified};
ghost use Rattle.ss_catalog.specs.declared.query.End.{End};
ghost use Rattle.ss_catalog.specs.declared.query.Kind.{Kind};
ghost use Rattle.ss_model.specs.Standing.{IsStream};
ghost use Rattle.ss_model.specs.State.{Stream};
ghost use Rattle.ss_query.specs.Asked.{HasCuts, IsCut, seen_of};
ghost use Rattle.ss_query.specs.declared.asking.Seen.{Seen};
ghost use Rattle.ss_query.specs.declared.cut.Cut.{Cut};
ghost use Rattle.ss_certify.specs.Checked.{Certifies};
ghost use Rattle.ss_certify.specs.Evidence.{IsEvidence};
ghost use Rattle.ss_certify.specs.Fill.{Fills, fill};
ghost use Rattle.ss_certify.specs.Made.{certificate_of, evidence_of};

/// Each certificate that is made is one of its window, and the evidence shows the end that is asked for.
pub fn evidence_shows_the_end()
    ensures window { (kind : Kind) (end : End) (known : Fraction) (cut : Cut) (rest : List SplitFigures) → IsCut cut → AreAllSplit rest
        → Certifies cut (certificate_of kind end known cut rest) }
    ensures answer { (kind : Kind) (end : End) (seen : Seen) → is_certified kind ≡ true → HasCuts seen
        → IsEvidence kind end seen (evidence_of kind end seen) }
    // Of each stream that a state may have.
    ensures stream { (kind : Kind) (end : End) (from to : ℕ) (s : Stream) → is_certified kind ≡ true → IsStream s
        → IsEvidence kind end (seen_of kind from to s) (evidence_of kind end (seen_of kind from to s)) }
    // The runs of so many values with a sum, a least and a greatest are such values, wherever there are any.
    ensures fill { (k : ℕ) (s m M : ℤ) → m ≤ℤ M → (pos k *ℤ m) ≤ℤ s → s ≤ℤ (pos k *ℤ M) → Fills k s m M (fill k s m M) }
{}
