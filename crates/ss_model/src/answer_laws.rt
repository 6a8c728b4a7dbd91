// Laws on what a state answers to a query, each the contract of a function that does nothing.
ghost use Rattle.std.specs.Prelude.{◌≡◌, List, [], Some, None, IsSome, true};
ghost use Rattle.ss_catalog.specs.Queries.{is_guess};
ghost use Rattle.ss_catalog.specs.declared.event.Event.{Event};
ghost use Rattle.ss_catalog.specs.declared.query.Query.{Query};
ghost use Rattle.ss_model.specs.Answers.{HasEnds, HoldsTruth, IsExactOutcome, IsOfKind, interval_query, outcome_of};
ghost use Rattle.ss_model.specs.Answers.{refuses_query, split_by};
ghost use Rattle.ss_model.specs.History.{marked_of, values_of, Happened};
ghost use Rattle.ss_model.specs.KeptAlike.{AllKeptAlike};
ghost use Rattle.ss_model.specs.Refusals.{IsHistory};
ghost use Rattle.ss_model.specs.State.{Stream, state};
ghost use Rattle.ss_model.specs.declared.outcome.Outcome.{Outcome};

/// What the state of a history answers holds the truth over all values that the history has of the stream, those outside landmarks
/// and those of landmarks. It is to what was asked for. Where the range splits no window it leaves nothing open, but for whether a
/// value is there.
pub fn outcomes_hold_the_truth()
    ensures truth { (history : List Happened) (query : Query) (outcome : Outcome) → IsHistory history →
        outcome_of (state history) query ≡ Some outcome → HoldsTruth query (values_of history query.name) (marked_of history query.name) outcome }
    ensures kind { (streams : List Stream) (query : Query) (outcome : Outcome) →
        outcome_of streams query ≡ Some outcome → IsOfKind query.kind outcome }
    ensures exact { (streams : List Stream) (query : Query) (outcome : Outcome) →
        outcome_of streams query ≡ Some outcome → split_by streams query ≡ [] → IsExactOutcome outcome }
{}

/// A query that isn't refused has an answer. It is refused alike in states of which a store keeps the same in memory.
pub fn queries_are_refused_or_answered()
    ensures answered { (streams : List Stream) (query : Query) → refuses_query streams query ≡ None → IsSome (outcome_of streams query) }
    ensures outlines { (streams others : List Stream) (query : Query) → AllKeptAlike streams others →
        refuses_query streams query ≡ refuses_query others query }
{}

/// The likeliest value is told between the ends that a query is answered.
pub fn estimates_have_the_ends()
    ensures { (streams : List Stream) (query : Query) (outcome : Outcome) → is_guess query.kind ≡ true →
        outcome_of streams query ≡ Some outcome →
        (answer : Outcome) × (outcome_of streams (interval_query query) ≡ Some answer) × HasEnds outcome answer }
{}
