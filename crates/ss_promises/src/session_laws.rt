// Laws of conversations, whichever form the input has, each the contract of a function that does nothing.
ghost use Rattle.std.specs.Prelude.{◌≡◌, ◌++◌, ◌&&◌, [], ◌∷◌, ℕ, ℤ, true, List, filter, length, map, nat_le, take, drop, Option, Some, None, Bool};
ghost use Rattle.ss_arguments.specs.declared.mode.Form.TheVariants.{Sessions};
ghost use Rattle.ss_catalog.specs.Queries.{is_guess};
ghost use Rattle.ss_catalog.specs.Series.{row_count, row_start, rows_of};
ghost use Rattle.ss_catalog.specs.declared.query.End.{End};
ghost use Rattle.ss_catalog.specs.declared.query.Kind.TheVariants as kinds;
ghost use Rattle.ss_catalog.specs.declared.query.Query.{Query};
ghost use Rattle.ss_catalog.specs.declared.series.Series.{Series};
ghost use Rattle.ss_certify.specs.Told.{told};
ghost use Rattle.ss_certify.specs.declared.evidence.Evidence.{Evidence};
ghost use Rattle.ss_command.specs.declared.command.Command.{Command};
ghost use Rattle.ss_command.specs.declared.command.Command.TheVariants.{Ask, Certify, Series as AskRows, Last, Values};
ghost use Rattle.ss_landmarks.specs.Landmark.{LandmarkValue};
ghost use Rattle.ss_model.specs.Answers.{HasEnds, HoldsPresence, HoldsTruth, IsExactOutcome, IsOfKind, interval_query, outcome_of, refuses_query};
ghost use Rattle.ss_model.specs.Answers.{split_by};
ghost use Rattle.ss_model.specs.History.{landmarks_of, marked_of, values_of};
ghost use Rattle.ss_model.specs.Marks.{later, latest_of};
ghost use Rattle.ss_model.specs.Newest.{refuses_values};
ghost use Rattle.ss_model.specs.NewestTruth.{HoldsNewest, kept_point};
ghost use Rattle.ss_model.specs.Refusals.{IsHistory, refuses_reading};
ghost use Rattle.ss_model.specs.Series.{AnswersRow, refuses_series};
ghost use Rattle.ss_model.specs.State.{Stream, state, stream_named};
ghost use Rattle.ss_model.specs.Truth.{true_presence};
ghost use Rattle.ss_model.specs.Windows.{time_of_last};
ghost use Rattle.ss_model.specs.declared.newest.Newest.{Newest};
ghost use Rattle.ss_model.specs.declared.outcome.Outcome.{Outcome};
ghost use Rattle.ss_model.specs.declared.outcome.Outcome.TheVariants.{Has};
ghost use Rattle.ss_model.specs.declared.outcome.Presence.{Presence};
ghost use Rattle.ss_report.specs.declared.reply.Reply.TheVariants.{Answered, SeriesHead, Row, Cursor, Rows};
ghost use Rattle.ss_report.specs.declared.reply.Reply.TheVariants.{Last as LastLine, ValuesHead};
ghost use Rattle.ss_sessions.specs.Cursors.{cursor_of, refuses_cursor};
ghost use Rattle.ss_sessions.specs.declared.order.Order.TheVariants as orders;
ghost use Rattle.ss_summary.specs.Points.{Point};
ghost use Rattle.ss_promises.specs.Asked.{IsAsked, IsOrder, NoneCloses, rows_asked};
ghost use Rattle.ss_program.specs.Certifying.{IsSharp};
ghost use Rattle.ss_program.specs.Line.{History, command_in, only_replies, text_said, value_rows, window_rows};
ghost use Rattle.ss_program.specs.Report.{after_line, after_lines, text_of};
ghost use Rattle.ss_program.specs.Talk.{Talk, begun, is_framed, turn_brought, turn_of};
ghost use Rattle.ss_promises.specs.Guesses.{GuessLiesBetween};

/// What a cursor shows are the windows of its stream as they were when it was opened. A session opens one, after any lines, and
/// isn't refused: the reply says how many windows the stream has after the history so far. Whatever lines of any
/// sessions come between, as long as none of its own closes the cursor: when it asks for more rows it gets their head and that many
/// of the rows that `windows` would have shown at the opening, as far as there are any, after all those that it has asked for since.
pub fn cursors_show_the_history_at_their_opening()
    ensures opened { (framed : Bool) (history : History) (before : List (List ℕ)) (opening name : List ℕ) (session : ℕ) →
        let at = after_lines (begun (Sessions framed) history) before in
        IsOrder session (orders.Open name) opening → refuses_cursor (state at.history) name (cursor_of at.cursors session) ≡ None →
        (s : Stream) × (stream_named name (state at.history) ≡ Some s)
        × ((turn_of at opening).says ≡ text_said (Some session) (only_replies (Cursor (length s.windows) ∷ []))) }
    ensures shown { (framed : Bool) (history : History) (before between : List (List ℕ)) (opening line name : List ℕ) (session count : ℕ) →
        let at = after_lines (begun (Sessions framed) history) before in
        IsOrder session (orders.Open name) opening → refuses_cursor (state at.history) name (cursor_of at.cursors session) ≡ None →
        NoneCloses session between → IsOrder session (orders.Next count) line →
        (s : Stream) × (stream_named name (state at.history) ≡ Some s)
        × (let rows = take count (drop (rows_asked session between) (window_rows s)) in
        (turn_of (after_lines at (opening ∷ between)) line).says ≡ text_said (Some session) (only_replies (Rows (length rows) ∷ rows))) }
{}

/// After a history the lines and frames of any form leave one: each event that they add can be said, and isn't refused.
pub fn conversations_leave_a_history()
    ensures { (talk : Talk) (ls : List (List ℕ)) → IsHistory talk.history → IsHistory (after_lines talk ls).history }
{}

/// A line that asks for a command brings what the command does to the history so far: the same text, but said to its session,
/// and the same event. The cursors stay. What is said to it stands in its place among what is said to the other lines.
pub fn sessions_say_what_commands_bring()
    ensures brings { (talk : Talk) (speaker : Option ℕ) (command : Command) (line : List ℕ) → IsAsked talk.form speaker command line →
        turn_of talk line ≡ turn_brought speaker talk (command_in (is_framed talk.form) talk.history command) }
    ensures among { (talk : Talk) (before after : List (List ℕ)) (line : List ℕ) →
        text_of talk (before ++ line ∷ after) ≡ text_of talk before
        ++ ((turn_of (after_lines talk before) line).says ++ text_of (after_line (after_lines talk before) line) after) }
{}

/// Lines of either form that ask for something which isn't refused are told the truth over all values that the history so far has
/// of the stream. A query has one reply, the answer to what was asked for, and one point where its range splits no window. Whether
/// a value is there is answered in truth. A guess lies between the ends that the same query without it has, so where they are one
/// number it is that one. A series has its head and its rows, each with the time at which it begins and an answer of
/// its own. Evidence is sharp. How far a stream has come, and its newest value, are told in truth. The values of landmarks in a range
/// are told by their head and their rows, and are exactly those that the history has.
pub fn conversations_hold_the_truth()
    ensures query { (talk : Talk) (speaker : Option ℕ) (line : List ℕ) (query : Query) → IsHistory talk.history →
        IsAsked talk.form speaker (Ask query) line → refuses_query (state talk.history) query ≡ None →
        (outcome : Outcome) × (turn_of talk line ≡ turn_brought speaker talk (only_replies (Answered outcome ∷ [])))
        × IsOfKind query.kind outcome
        × HoldsTruth query (values_of talk.history query.name) (marked_of talk.history query.name) outcome
        × (split_by (state talk.history) query ≡ [] → IsExactOutcome outcome) }
    ensures presence { (talk : Talk) (speaker : Option ℕ) (line : List ℕ) (query : Query) (value : ℤ) → IsHistory talk.history →
        IsAsked talk.form speaker (Ask query) line → query.kind ≡ kinds.Has value → refuses_query (state talk.history) query ≡ None →
        (presence : Presence) × (turn_of talk line ≡ turn_brought speaker talk (only_replies (Answered (Has presence) ∷ [])))
        × HoldsPresence presence (true_presence value query.from query.to (values_of talk.history query.name)
        (marked_of talk.history query.name)) }
    ensures estimate { (talk : Talk) (speaker : Option ℕ) (line : List ℕ) (query : Query) → IsHistory talk.history →
        IsAsked talk.form speaker (Ask query) line → is_guess query.kind ≡ true → refuses_query (state talk.history) query ≡ None →
        (guessed : Outcome) × (turn_of talk line ≡ turn_brought speaker talk (only_replies (Answered guessed ∷ [])))
        × GuessLiesBetween guessed
        × (answer : Outcome) × (outcome_of (state talk.history) (interval_query query) ≡ Some answer) × HasEnds guessed answer }
    ensures series { (talk : Talk) (speaker : Option ℕ) (line : List ℕ) (series : Series) → IsHistory talk.history →
        IsAsked talk.form speaker (AskRows series) line → refuses_series (state talk.history) series ≡ None →
        (answers : ℕ → Outcome)
        × (turn_of talk line ≡ turn_brought speaker talk
        (only_replies (SeriesHead series.kind (row_count series) ∷ map (λ row. Row (row_start series row) (answers row)) (rows_of series))))
        × ((row : ℕ) → AnswersRow talk.history series row (answers row)) }
    ensures certificate { (talk : Talk) (speaker : Option ℕ) (line : List ℕ) (query : Query) (end : End) → IsHistory talk.history →
        IsAsked talk.form speaker (Certify query end) line → refuses_query (state talk.history) query ≡ None →
        (w : Evidence) × (turn_of talk line ≡ turn_brought speaker talk (only_replies (told w))) × IsSharp talk.history query end w }
    ensures newest { (talk : Talk) (speaker : Option ℕ) (line name : List ℕ) → IsHistory talk.history →
        IsAsked talk.form speaker (Last name) line → refuses_reading (state talk.history) name ≡ None →
        (told : Newest) × (turn_of talk line ≡ turn_brought speaker talk (only_replies (LastLine told ∷ [])))
        × HoldsNewest told (later (time_of_last (values_of talk.history name)) (latest_of (landmarks_of talk.history name)))
        (values_of talk.history name ++ marked_of talk.history name) }
    ensures landmarks { (talk : Talk) (speaker : Option ℕ) (line name : List ℕ) (from to : ℕ) →
        IsAsked talk.form speaker (Values name from to) line → refuses_values (state talk.history) name from to ≡ None →
        (values : List LandmarkValue)
        × (turn_of talk line ≡ turn_brought speaker talk (only_replies (ValuesHead (length values) ∷ value_rows values)))
        × (map kept_point values ≡ filter (λ (p : Point). nat_le from p.0 && nat_le p.0 to) (marked_of talk.history name)) }
{}
