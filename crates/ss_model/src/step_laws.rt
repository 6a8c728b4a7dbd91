// Laws on streams whose windows cross no boundary of the clock, each the contract of a function that does nothing.
ghost use Rattle.std.specs.Prelude.{◌≡◌, ◌%◌, ℕ, List, [], Some, All, false};
ghost use Rattle.ss_base.specs.declared.limits.TheConstants.{LAST_TIME};
ghost use Rattle.ss_catalog.specs.Series.{row_query};
ghost use Rattle.ss_catalog.specs.declared.query.Query.{Query};
ghost use Rattle.ss_catalog.specs.declared.series.Series.{Series};
ghost use Rattle.ss_model.specs.Answers.{IsExactOutcome, outcome_of, split_by};
ghost use Rattle.ss_model.specs.Interval.{is_split};
ghost use Rattle.ss_model.specs.Standing.{IsState, IsStream};
ghost use Rattle.ss_model.specs.State.{Stream};
ghost use Rattle.ss_model.specs.WholeSteps.{AreWholeSteps, HasWholeRows, IsWithin, reached_by};
ghost use Rattle.ss_model.specs.Windows.{newest_time};
ghost use Rattle.ss_model.specs.declared.outcome.Outcome.{Outcome};

/// A range of whole steps splits no window of a stream that keeps to this step, and nor does one that begins at a boundary and ends at the
/// newest time or after it, such as one to the last time of all. So what is answered of it leaves nothing open, but for whether a value is
/// there: each count and sum is one number, each mean, least and greatest value too, where there is one, and the likeliest is that number.
/// So is each row of a series whose ends and steps are such.
pub fn whole_steps_are_exact()
    ensures windows { (s : Stream) (step from to : ℕ) → IsStream s → s.params.within ≡ Some step →
        AreWholeSteps step (newest_time s.windows) from to → All (λ w. is_split from to w ≡ false) s.windows }
    ensures to_the_last { (s : Stream) (step from : ℕ) → IsStream s → from % step ≡ 0 → AreWholeSteps step (newest_time s.windows) from LAST_TIME }
    ensures unsplit { (streams : List Stream) (query : Query) (step : ℕ) → IsState streams → IsWithin step streams query.name →
        AreWholeSteps step (reached_by streams query.name) query.from query.to → split_by streams query ≡ [] }
    ensures exact { (streams : List Stream) (query : Query) (step : ℕ) (outcome : Outcome) → IsState streams →
        IsWithin step streams query.name → AreWholeSteps step (reached_by streams query.name) query.from query.to →
        outcome_of streams query ≡ Some outcome → IsExactOutcome outcome }
    ensures rows { (streams : List Stream) (series : Series) (step row : ℕ) (outcome : Outcome) → IsState streams →
        IsWithin step streams series.name → HasWholeRows step (reached_by streams series.name) series →
        outcome_of streams (row_query series row) ≡ Some outcome → IsExactOutcome outcome }
{}
