// Laws of what lines bring, each the contract of a function that does nothing.
ghost use Rattle.std.specs.Prelude.{◌≡◌, ◌++◌, ◌&&◌, [], ◌∷◌, ℕ, ℤ, true, List, filter, flat_map, length, map, nat_le, Some, None, Ok};
ghost use Rattle.ss_catalog.specs.Queries.{is_guess};
ghost use Rattle.ss_catalog.specs.Series.{row_count, row_start, rows_of};
ghost use Rattle.ss_catalog.specs.declared.event.Event.TheVariants.{Create, Drop};
ghost use Rattle.ss_catalog.specs.declared.params.Params.{Params};
ghost use Rattle.ss_catalog.specs.declared.query.End.{End};
ghost use Rattle.ss_catalog.specs.declared.query.Kind.TheVariants as kinds;
ghost use Rattle.ss_catalog.specs.declared.query.Query.{Query};
ghost use Rattle.ss_catalog.specs.declared.refusal.Refusal.TheVariants.{Unknown};
ghost use Rattle.ss_catalog.specs.declared.series.Series.{Series};
ghost use Rattle.ss_certify.specs.Told.{told};
ghost use Rattle.ss_certify.specs.declared.evidence.Evidence.{Evidence};
ghost use Rattle.ss_command.specs.Grammar.{meaning};
ghost use Rattle.ss_command.specs.declared.command.Command.TheVariants.{Do, Ask, Certify, Last, Series as AskRows, Values};
ghost use Rattle.ss_landmarks.specs.Landmark.{LandmarkValue};
ghost use Rattle.ss_model.specs.Answers.{HasEnds, HoldsPresence, HoldsTruth, IsExactOutcome, IsOfKind, interval_query, outcome_of, refuses_query};
ghost use Rattle.ss_model.specs.Answers.{split_by};
ghost use Rattle.ss_model.specs.History.{added, landmarks_of, marked_of, values_of};
ghost use Rattle.ss_model.specs.Marks.{later, latest_of};
ghost use Rattle.ss_model.specs.Newest.{refuses_values};
ghost use Rattle.ss_model.specs.NewestTruth.{HoldsNewest, kept_point};
ghost use Rattle.ss_model.specs.Refusals.{IsHistory, refuses_reading};
ghost use Rattle.ss_model.specs.Series.{AnswersRow, refuses_series};
ghost use Rattle.ss_model.specs.State.{state};
ghost use Rattle.ss_model.specs.Truth.{true_presence};
ghost use Rattle.ss_model.specs.Windows.{time_of_last};
ghost use Rattle.ss_model.specs.declared.newest.Newest.{Newest};
ghost use Rattle.ss_model.specs.declared.outcome.Outcome.{Outcome};
ghost use Rattle.ss_model.specs.declared.outcome.Outcome.TheVariants.{Has};
ghost use Rattle.ss_model.specs.declared.outcome.Presence.{Presence};
ghost use Rattle.ss_report.specs.Text.{reply_line};
ghost use Rattle.ss_report.specs.declared.reply.Reply.TheVariants.{Answered, Last as LastLine, Refused, SeriesHead, Row, ValuesHead};
ghost use Rattle.ss_summary.specs.Points.{Point};
ghost use Rattle.ss_program.specs.Certifying.{IsSharp};
ghost use Rattle.ss_program.specs.Line.{History, value_rows};
ghost use Rattle.ss_program.specs.Report.{NoneCreates, plain_after, replies, text_of};
ghost use Rattle.ss_program.specs.Talk.{plain_talk};
ghost use Rattle.ss_promises.specs.Guesses.{GuessLiesBetween};

/// After a history the lines of a session leave one: each event that they add can be said, and isn't refused.
pub fn sessions_leave_a_history()
    ensures { (history : History) (ls : List (List ℕ)) → IsHistory history → IsHistory (plain_after history ls) }
{}

/// What is said to plain lines is the text of the replies to them, in their order.
pub fn reports_are_replies()
    ensures { (history : History) (ls : List (List ℕ)) → text_of (plain_talk history) ls ≡ flat_map reply_line (replies history ls) }
{}

/// Each line of a session that asks a query which isn't refused then has one reply, in its place among the others: an answer to
/// what was asked for, which holds the truth over all values that the stream has of the history and of the lines before, which
/// are those since its last create. So each interval in a report does. Where the range splits no window the answer is one point.
pub fn queries_hold_the_truth()
    ensures { (history : History) (ls before after : List (List ℕ)) (line : List ℕ) (query : Query) → IsHistory history →
        ls ≡ before ++ line ∷ after → meaning line ≡ Ok (Some (Ask query)) →
        refuses_query (state (plain_after history before)) query ≡ None →
        (outcome : Outcome)
        × (replies history ls ≡ replies history before ++ Answered outcome ∷ replies (plain_after history before) after)
        × IsOfKind query.kind outcome
        × HoldsTruth query (values_of (plain_after history before) query.name) (marked_of (plain_after history before) query.name) outcome
        × (split_by (state (plain_after history before)) query ≡ [] → IsExactOutcome outcome) }
{}

/// Each line of a session that asks whether a stream has a value, and isn't refused then, has one reply, in its place among the
/// others. It says that the value is there only where it is one of those of the stream in the range, and that it isn't only where
/// it is none of them. They are all that the stream has of the history and of the lines before since its last create, with those
/// of landmarks, whichever of them are old.
pub fn presence_holds_the_truth()
    ensures { (history : History) (ls before after : List (List ℕ)) (line : List ℕ) (query : Query) (value : ℤ) → IsHistory history →
        ls ≡ before ++ line ∷ after → meaning line ≡ Ok (Some (Ask query)) → query.kind ≡ kinds.Has value →
        refuses_query (state (plain_after history before)) query ≡ None →
        (presence : Presence)
        × (replies history ls ≡ replies history before ++ Answered (Has presence) ∷ replies (plain_after history before) after)
        × HoldsPresence presence (true_presence value query.from query.to (values_of (plain_after history before) query.name)
        (marked_of (plain_after history before) query.name)) }
{}

/// Each line of a session that asks for the likeliest value, and isn't refused then, has one reply, in its place among the others. The
/// value that it guesses lies between its ends, and these are those of the answer to the same query without a guess. So a guess of
/// what is known exactly is that.
pub fn guesses_lie_between_the_ends()
    ensures { (history : History) (ls before after : List (List ℕ)) (line : List ℕ) (query : Query) → IsHistory history →
        ls ≡ before ++ line ∷ after → meaning line ≡ Ok (Some (Ask query)) → is_guess query.kind ≡ true →
        refuses_query (state (plain_after history before)) query ≡ None →
        (guessed : Outcome)
        × (replies history ls ≡ replies history before ++ Answered guessed ∷ replies (plain_after history before) after)
        × GuessLiesBetween guessed
        × (answer : Outcome) × (outcome_of (state (plain_after history before)) (interval_query query) ≡ Some answer)
        × HasEnds guessed answer }
{}

/// Each line of a session that asks a series which isn't refused then has its head and its rows as replies, in their place
/// among the others. Each row has the time at which it begins, and an answer that holds the truth over all values that the
/// stream has of the history and of the lines before, with nothing left open where the row splits no window.
pub fn series_hold_the_truth()
    ensures { (history : History) (ls before after : List (List ℕ)) (line : List ℕ) (series : Series) → IsHistory history →
        ls ≡ before ++ line ∷ after → meaning line ≡ Ok (Some (AskRows series)) →
        refuses_series (state (plain_after history before)) series ≡ None →
        (answers : ℕ → Outcome)
        × (replies history ls ≡ replies history before
        ++ (SeriesHead series.kind (row_count series) ∷ map (λ row. Row (row_start series row) (answers row)) (rows_of series))
        ++ replies (plain_after history before) after)
        × ((row : ℕ) → AnswersRow (plain_after history before) series row (answers row)) }
{}

/// Each line of a session that asks how far a stream has come, and isn't refused then, has one reply, in its place among the
/// others. What it says is true of all values that the stream has of the history and of the lines before since its last create,
/// those of its landmarks among them.
pub fn newest_values_are_told()
    ensures { (history : History) (ls before after : List (List ℕ)) (line name : List ℕ) → IsHistory history →
        ls ≡ before ++ line ∷ after → meaning line ≡ Ok (Some (Last name)) →
        refuses_reading (state (plain_after history before)) name ≡ None →
        (told : Newest)
        × (replies history ls ≡ replies history before ++ LastLine told ∷ replies (plain_after history before) after)
        × HoldsNewest told
        (later (time_of_last (values_of (plain_after history before) name)) (latest_of (landmarks_of (plain_after history before) name)))
        (values_of (plain_after history before) name ++ marked_of (plain_after history before) name) }
{}

/// Each line of a session that asks for the values of landmarks of a stream in a range, and isn't refused then, has their head and
/// their rows as replies, in their place among the others. They are all values of landmarks with such times that the stream has of
/// the history and of the lines before since its last create, in their order.
pub fn landmark_values_are_told()
    ensures { (history : History) (ls before after : List (List ℕ)) (line name : List ℕ) (from to : ℕ) →
        ls ≡ before ++ line ∷ after → meaning line ≡ Ok (Some (Values name from to)) →
        refuses_values (state (plain_after history before)) name from to ≡ None →
        (values : List LandmarkValue)
        × (replies history ls ≡ replies history before ++ (ValuesHead (length values) ∷ value_rows values)
        ++ replies (plain_after history before) after)
        × (map kept_point values ≡ filter (λ (p : Point). nat_le from p.0 && nat_le p.0 to) (marked_of (plain_after history before) name)) }
{}

/// Each line of a session that asks why an end of an answer can't be narrower, filters aside, and isn't refused then, has the lines of
/// some evidence as replies, in their place among the others. What the evidence shows is the asked end of what the query would be
/// answered there, and the true answer of contents like those of the stream after the history and the lines before.
pub fn certificates_are_sharp()
    ensures { (history : History) (ls before after : List (List ℕ)) (line : List ℕ) (query : Query) (end : End) → IsHistory history →
        ls ≡ before ++ line ∷ after → meaning line ≡ Ok (Some (Certify query end)) →
        refuses_query (state (plain_after history before)) query ≡ None →
        (w : Evidence)
        × (replies history ls ≡ replies history before ++ told w ++ replies (plain_after history before) after)
        × IsSharp (plain_after history before) query end w }
{}

/// After a line that drops a stream no query of its name is answered, until a line creates the stream: each is refused. A stream
/// that is created has no value, so answers are over the values since.
pub fn dropped_streams_are_unknown()
    ensures unknown { (history : History) (ls before between after : List (List ℕ)) (dropping line : List ℕ) (query : Query) →
        ls ≡ (before ++ dropping ∷ between) ++ line ∷ after → meaning dropping ≡ Ok (Some (Do (Drop query.name))) →
        NoneCreates query.name between → meaning line ≡ Ok (Some (Ask query)) →
        replies history ls ≡ replies history (before ++ dropping ∷ between)
        ++ Refused Unknown ∷ replies (plain_after history (before ++ dropping ∷ between)) after }
    ensures anew { (history : History) (name : List ℕ) (params : Params) →
        (values_of (history ++ added (Create name params) ∷ []) name ≡ []) × (marked_of (history ++ added (Create name params) ∷ []) name ≡ []) }
{}
