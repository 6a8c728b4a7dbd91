// Laws of what is asked over whole steps of the clock, each the contract of a function that does nothing.
ghost use Rattle.std.specs.Prelude.{◌≡◌, ◌++◌, [], ◌∷◌, ℕ, List, map, Option, Some, None, Ok};
ghost use Rattle.ss_catalog.specs.Series.{row_count, row_start, rows_of};
ghost use Rattle.ss_catalog.specs.declared.query.Query.{Query};
ghost use Rattle.ss_catalog.specs.declared.series.Series.{Series};
ghost use Rattle.ss_command.specs.Grammar.{meaning};
ghost use Rattle.ss_command.specs.declared.command.Command.TheVariants.{Ask, Series as AskRows};
ghost use Rattle.ss_model.specs.Answers.{HoldsTruth, IsExactOutcome, IsOfKind, refuses_query};
ghost use Rattle.ss_model.specs.History.{marked_of, values_of};
ghost use Rattle.ss_model.specs.Refusals.{IsHistory};
ghost use Rattle.ss_model.specs.Series.{AnswersRow, refuses_series};
ghost use Rattle.ss_model.specs.State.{state};
ghost use Rattle.ss_model.specs.WholeSteps.{AreWholeSteps, HasWholeRows, IsWithin, reached_by};
ghost use Rattle.ss_model.specs.declared.outcome.Outcome.{Outcome};
ghost use Rattle.ss_report.specs.declared.reply.Reply.TheVariants.{Answered, SeriesHead, Row};
ghost use Rattle.ss_promises.specs.Asked.{IsAsked};
ghost use Rattle.ss_program.specs.Line.{History, only_replies};
ghost use Rattle.ss_program.specs.Report.{plain_after, replies};
ghost use Rattle.ss_program.specs.Talk.{Talk, turn_brought, turn_of};

/// Where a stream keeps to a step of the clock, each line of a session that asks for a range of whole steps, or for one that begins at a
/// boundary and ends at the newest time outside landmarks or after it, and isn't refused then, has
/// one reply, in its place among the others, which is true and leaves nothing open, but for whether a value is there: a count, a sum
/// or a likeliest value is one number, and so is a least or a greatest value where there is one. So is each row of a series whose ends
/// and steps are whole.
pub fn whole_steps_are_answered_exactly()
    ensures query { (history : History) (ls before after : List (List ℕ)) (line : List ℕ) (query : Query) (step : ℕ) → IsHistory history →
        ls ≡ before ++ line ∷ after → meaning line ≡ Ok (Some (Ask query)) →
        refuses_query (state (plain_after history before)) query ≡ None →
        IsWithin step (state (plain_after history before)) query.name →
        AreWholeSteps step (reached_by (state (plain_after history before)) query.name) query.from query.to →
        (outcome : Outcome)
        × (replies history ls ≡ replies history before ++ Answered outcome ∷ replies (plain_after history before) after)
        × IsOfKind query.kind outcome
        × HoldsTruth query (values_of (plain_after history before) query.name) (marked_of (plain_after history before) query.name) outcome
        × IsExactOutcome outcome }
    ensures series { (history : History) (ls before after : List (List ℕ)) (line : List ℕ) (series : Series) (step : ℕ) → IsHistory history →
        ls ≡ before ++ line ∷ after → meaning line ≡ Ok (Some (AskRows series)) →
        refuses_series (state (plain_after history before)) series ≡ None →
        IsWithin step (state (plain_after history before)) series.name →
        HasWholeRows step (reached_by (state (plain_after history before)) series.name) series →
        (answers : ℕ → Outcome)
        × (replies history ls ≡ replies history before
        ++ (SeriesHead series.kind (row_count series) ∷ map (λ row. Row (row_start series row) (answers row)) (rows_of series))
        ++ replies (plain_after history before) after)
        × ((row : ℕ) → AnswersRow (plain_after history before) series row (answers row) × IsExactOutcome (answers row)) }
{}

/// So it is of lines of either form, whoever asks.
pub fn conversations_answer_whole_steps_exactly()
    ensures query { (talk : Talk) (speaker : Option ℕ) (line : List ℕ) (query : Query) (step : ℕ) → IsHistory talk.history →
        IsAsked talk.form speaker (Ask query) line → refuses_query (state talk.history) query ≡ None →
        IsWithin step (state talk.history) query.name →
        AreWholeSteps step (reached_by (state talk.history) query.name) query.from query.to →
        (outcome : Outcome) × (turn_of talk line ≡ turn_brought speaker talk (only_replies (Answered outcome ∷ [])))
        × IsOfKind query.kind outcome
        × HoldsTruth query (values_of talk.history query.name) (marked_of talk.history query.name) outcome × IsExactOutcome outcome }
    ensures series { (talk : Talk) (speaker : Option ℕ) (line : List ℕ) (series : Series) (step : ℕ) → IsHistory talk.history →
        IsAsked talk.form speaker (AskRows series) line → refuses_series (state talk.history) series ≡ None →
        IsWithin step (state talk.history) series.name →
        HasWholeRows step (reached_by (state talk.history) series.name) series →
        (answers : ℕ → Outcome)
        × (turn_of talk line ≡ turn_brought speaker talk
        (only_replies (SeriesHead series.kind (row_count series) ∷ map (λ row. Row (row_start series row) (answers row)) (rows_of series))))
        × ((row : ℕ) → AnswersRow talk.history series row (answers row) × IsExactOutcome (answers row)) }
{}
