// What evidence shows, each law the contract of a function that does nothing.
ghost use Rattle.std.specs.Prelude.{◌≡◌, ℕ, ℤ, pos, List, Some};
ghost use Rattle.ss_catalog.specs.declared.query.End.{End};
ghost use Rattle.ss_catalog.specs.declared.query.Query.{Query};
ghost use Rattle.ss_laws.specs.Attained.{MayBeTrue};
ghost use Rattle.ss_laws.specs.Moved.{MayBeCounted};
ghost use Rattle.ss_model.specs.Answers.{outcome_of};
ghost use Rattle.ss_model.specs.Standing.{IsStream};
ghost use Rattle.ss_model.specs.State.{Stream, stream_named};
ghost use Rattle.ss_model.specs.declared.outcome.Outcome.{Outcome};
ghost use Rattle.ss_model.specs.declared.outcome.Outcome.TheVariants as outcomes;
ghost use Rattle.ss_bounds.specs.declared.mean.Mean.{Mean};
ghost use Rattle.ss_query.specs.Asked.{seen_of};
ghost use Rattle.ss_certify.specs.Evidence.{end_asked, mean_end, IsEvidence};
ghost use Rattle.ss_certify.specs.Shown.{MayBeAnswer};
ghost use Rattle.ss_certify.specs.declared.evidence.Answer.TheVariants as answers;
ghost use Rattle.ss_certify.specs.declared.evidence.Evidence.{Evidence};

/// The answer that evidence of a stream shows may be the true one in a state that has the stream, and it is the asked end of what
/// the state answers. So no narrower interval holds the truth of all values that fit the count, the sum, the least, the greatest
/// and the times of each window. Filters are left aside here: one may rule out a value that the evidence names.
pub fn evidence_may_be_true()
    ensures truth { (streams : List Stream) (query : Query) (s : Stream) (end : End) (w : Evidence) →
        stream_named query.name streams ≡ Some s → IsEvidence query.kind end (seen_of query.kind query.from query.to s) w →
        MayBeAnswer streams query w.answer }
    ensures end { (streams : List Stream) (query : Query) (s : Stream) (end : End) (w : Evidence) (outcome : Outcome) →
        stream_named query.name streams ≡ Some s → IsStream s → IsEvidence query.kind end (seen_of query.kind query.from query.to s) w →
        outcome_of streams query ≡ Some outcome → end_asked end outcome ≡ Some w.answer }
{}

/// No answer of count, of sum or of mean could be narrower: each of its ends may be the true answer in the state, filters aside. Each end
/// of a count may be the true one with the filters as they are too.
pub fn answers_are_sharp()
    ensures count { (streams : List Stream) (query : Query) (lo hi : ℕ) → outcome_of streams query ≡ Some (outcomes.Count lo hi) →
        MayBeTrue streams query (pos lo) × MayBeTrue streams query (pos hi) }
    ensures sum { (streams : List Stream) (query : Query) (lo hi : ℤ) → outcome_of streams query ≡ Some (outcomes.Sum lo hi) →
        MayBeTrue streams query lo × MayBeTrue streams query hi }
    ensures mean { (streams : List Stream) (query : Query) (known : Mean) (end : End) → outcome_of streams query ≡ Some (outcomes.Mean known) →
        MayBeAnswer streams query (answers.Mean (mean_end end known)) }
    ensures count_with_filters { (streams : List Stream) (query : Query) (lo hi : ℕ) → outcome_of streams query ≡ Some (outcomes.Count lo hi) →
        MayBeCounted streams query lo × MayBeCounted streams query hi }
{}
