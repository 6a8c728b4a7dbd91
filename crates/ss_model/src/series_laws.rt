// Laws on what a state answers to a series, each the contract of a function that does nothing.
ghost use Rattle.std.specs.Prelude.{◌≡◌, ◌<◌, ℕ, List, None};
ghost use Rattle.ss_catalog.specs.Series.{row_count, row_query};
ghost use Rattle.ss_catalog.specs.declared.event.Event.{Event};
ghost use Rattle.ss_catalog.specs.declared.series.Series.{Series};
ghost use Rattle.ss_model.specs.History.{Happened};
ghost use Rattle.ss_model.specs.Answers.{refuses_query};
ghost use Rattle.ss_model.specs.Refusals.{IsHistory};
ghost use Rattle.ss_model.specs.Series.{AnswersRow, refuses_series};
ghost use Rattle.ss_model.specs.State.{Stream, state};
ghost use Rattle.ss_model.specs.declared.outcome.Outcome.{Outcome};

/// Where a series isn't refused after a history, each of its rows has an answer, which holds the truth over all values of the
/// stream. Where the row splits no window it leaves nothing open, but for whether a value is there. So no row of it is refused.
pub fn rows_hold_the_truth()
    ensures truth { (history : List Happened) (series : Series) (row : ℕ) → IsHistory history → refuses_series (state history) series ≡ None →
        (outcome : Outcome) × AnswersRow history series row outcome }
    ensures taken { (streams : List Stream) (series : Series) (row : ℕ) → 0 < series.step → row < row_count series →
        refuses_series streams series ≡ None → refuses_query streams (row_query series row) ≡ None }
{}
