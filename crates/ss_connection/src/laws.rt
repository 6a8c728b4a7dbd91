// Laws of calls, each the contract of a function that does nothing.
ghost use Rattle.std.specs.Prelude.{◌≡◌, ◌++◌, [], ℕ, List, IsTrue, None, Ok, Err, Option, Some, take};
ghost use Rattle.ss_catalog.specs.declared.event.Event.{Event};
ghost use Rattle.ss_command.specs.Grammar.{meaning};
ghost use Rattle.ss_command.specs.Lines.{lines};
ghost use Rattle.ss_command.specs.declared.command.Command.TheVariants.{Do};
ghost use Rattle.ss_connection.specs.Calls.{AppliesHeld, AsksHeld, OfHeld, SaysHeld, SaysOpen, bare};
ghost use Rattle.ss_connection.specs.Holds.{Holds, text_left};
ghost use Rattle.ss_connection.specs.InTurn.{AreInTurn, AreLines, AreMeant, Made, input_of, said_in};
ghost use Rattle.ss_connection.specs.InTurn.{AreStagedInTurn, MadeStaged, accepted_events, event_replies, events_of, replies_of};
ghost use Rattle.ss_connection.specs.Many.{AppliesMany};
ghost use Rattle.ss_connection.specs.Typed.{event_brings};
ghost use Rattle.ss_connection.specs.declared.connection.many.Taken.{Taken};
ghost use Rattle.ss_model.specs.History.{Happened};
ghost use Rattle.ss_outside.specs.Crash.{LeavesOnly};
ghost use Rattle.ss_program.specs.Answer.{question_command};
ghost use Rattle.ss_program.specs.Held.{StandsForFirst};
ghost use Rattle.ss_program.specs.Line.{History, brings, command_brings, line_text, the_event};
ghost use Rattle.ss_program.specs.Report.{accepted, report};
ghost use Rattle.ss_program.specs.Talk.{plain_talk};
ghost use Rattle.ss_program.specs.declared.answer.Question.{Question};
ghost use Rattle.ss_program.specs.declared.rows.Rows.{Rows};
ghost use Rattle.ss_program.specs.declared.status.Status.{Status};
ghost use Rattle.ss_program.specs.declared.status.Status.TheVariants.{OutOfMemory};
ghost use Rattle.ss_records.specs.Kept.{RecordsState};
ghost use Rattle.ss_report.specs.Text.{reply_line};
ghost use Rattle.ss_report.specs.declared.reply.Reply.{Reply};
ghost use Rattle.ss_store.specs.Kept.{StoreState};

use ss_outside::Disk;

/// What is promised of a run holds of calls: where lines are called one after another over a connection that holds a history, what is said,
/// with the rows that are left then, is the report of the input that the lines make, the disk stands for the history with the events
/// accepted of them, and a crash at any moment leaves the history with some first of these.
pub fn calls_say_what_a_run_says<D: Disk>()
    ensures { (calls : List (Made D)) (left : Option Rows) (was is : StoreState) (old new : D) (history : History) →
        AreInTurn D.seen calls None was old left is new → AreLines calls → IsTrue (D.seen old).tells → Holds history [] was.records (D.seen old).told →
        let talk = plain_talk history in let events = accepted talk (lines (input_of calls)) in
        (said_in calls ++ text_left left is.streams (history ++ events) ≡ report talk (input_of calls))
        × Holds (history ++ events) [] is.records (D.seen new).told × LeavesOnly (D.seen old).told (D.seen new).told (StandsForFirst history events) }
{}

/// The events of calls that have answered stay: a crash meanwhile in the calls behind them leaves these events, with some first of those
/// that come then. So it does in a call that stops, which leaves its own event or not; where memory ran out it isn't there.
pub fn answered_calls_stay<D: Disk>()
    ensures answered { (done more : List (Made D)) (left after : Option Rows) (was mid is : StoreState) (old then new : D) (history : History) →
        AreInTurn D.seen done None was old left mid then → AreInTurn D.seen more left mid then after is new → AreLines done → AreLines more →
        IsTrue (D.seen old).tells → Holds history [] was.records (D.seen old).told →
        let held = history ++ accepted (plain_talk history) (lines (input_of done)) in
        LeavesOnly (D.seen then).told (D.seen new).told (StandsForFirst held (accepted (plain_talk held) (lines (input_of more)))) }
    ensures stopped { (done : List (Made D)) (was mid is : StoreState) (old then new : D) (history : History) (line said : List ℕ) (status : Status) →
        AreInTurn D.seen done None was old None mid then → AreLines done → IsTrue (D.seen old).tells → Holds history [] was.records (D.seen old).told →
        SaysOpen (λ history. brings history (bare line)) mid is said (Err status) (D.seen then).told (D.seen new).told →
        let held = history ++ accepted (plain_talk history) (lines (input_of done)) in
        LeavesOnly (D.seen then).told (D.seen new).told (StandsForFirst held (the_event (brings held (bare line)).event))
        × (status ≡ OutOfMemory → Holds held [] is.records (D.seen new).told) }
{}

/// A typed call does what a line does that means the same, so it can stand for the line in a list of calls: an event that is applied says the
/// reply as its text, and so does a question, whatever is staged. Values that are appended together are their lines, one after another.
pub fn typed_calls_do_what_lines_say<D: Disk>()
    ensures event { (event : Event) (line : List ℕ) (reply : Reply) (was is : StoreState) (old new : D) → meaning (bare line) ≡ Ok (Some (Do event)) →
        AppliesHeld (λ history. event_brings history event) was.records is.records (Ok reply) (D.seen old).told (D.seen new).told →
        SaysHeld (λ history. brings history (bare line)) was is (reply_line reply) (Ok None) (D.seen old).told (D.seen new).told }
    ensures line { (line said : List ℕ) (left : Option Rows) (was is : StoreState) (old new : D) →
        SaysHeld (λ history. brings history (bare line)) was is said (Ok left) (D.seen old).told (D.seen new).told →
        SaysOpen (λ history. brings history (bare line)) was is said (Ok left) (D.seen old).told (D.seen new).told }
    ensures question { (question : Question) (line : List ℕ) (reply : Reply) (was is : RecordsState) (old new : D) →
        meaning (bare line) ≡ Ok (Some (question_command question)) →
        AsksHeld (λ history. command_brings history (question_command question)) was is (Ok reply) (D.seen old).told (D.seen new).told →
        OfHeld was (D.seen old).told (λ history staged. reply_line reply ≡ line_text (history ++ staged) (bare line)) }
    ensures answer { (question : Question) (line : List ℕ) (reply : Reply) (was is : StoreState) (old new : D) →
        meaning (bare line) ≡ Ok (Some (question_command question)) →
        AsksHeld (λ history. command_brings history (question_command question)) was.records is.records (Ok reply) (D.seen old).told (D.seen new).told →
        SaysOpen (λ history. brings history (bare line)) was is (reply_line reply) (Ok None) (D.seen old).told (D.seen new).told }
    ensures values { (name : List ℕ) (events : List Event) (ls : List (List ℕ)) (taken : Taken) (was is : RecordsState) (old new : D) (history : History) →
        AreMeant ls (take taken.count events) → AppliesMany name events was is (Ok taken) (D.seen old).told (D.seen new).told →
        Holds history [] was (D.seen old).told → Holds (history ++ accepted (plain_talk history) ls) [] is (D.seen new).told }
{}

/// Events that are staged one after another are replied to as their lines would be, and are held behind what is staged, to come to the disk
/// together; a crash meanwhile leaves the history with some first of all that are accepted.
pub fn batches_hold_their_events<D: Disk>()
    ensures { (calls : List (MadeStaged D)) (was is : RecordsState) (old new : D) (history : History) (staged : List Happened) →
        AreStagedInTurn D.seen calls was old is new → IsTrue (D.seen old).tells → Holds history staged was (D.seen old).told →
        let more = accepted_events (history ++ staged) (events_of calls) in
        (replies_of calls ≡ event_replies (history ++ staged) (events_of calls)) × Holds history (staged ++ more) is (D.seen new).told
        × LeavesOnly (D.seen old).told (D.seen new).told (StandsForFirst history (staged ++ more)) }
{}
