// Lines of commands, as a run takes them.
ghost use Rattle.std.specs.Prelude.{◌≡◌, None, IfErr, IfOk, IfSome, OnOk};
ghost use Rattle.ss_catalog.specs.Events.{IsInTime};
ghost use Rattle.ss_command.specs.Grammar.{meaning};
ghost use Rattle.ss_command.specs.Printed.{IsCommandInTime};
ghost use Rattle.ss_command.specs.declared.command.Command.TheVariants.{Do};
ghost use Rattle.ss_connection.specs.Calls.{Called, SaysFurther, SaysHeld, SaysOpen, bare, plain_of, rows_of, stop_of, with_rows};
ghost use Rattle.ss_connection.specs.Holds.{CanBeTaken, IsPiece, IsUsable};
ghost use Rattle.ss_outside.specs.Step.{Step};
ghost use Rattle.ss_program.specs.Answer.{IsOpen, IsServing, question_command};
ghost use Rattle.ss_program.specs.Line.{brings, command_brings, meaning_brings};
ghost use Rattle.ss_program.specs.Status.{IsApplyStop, IsDiskStop, disk_verdict, ended};

use super::events::{apply_event, seal_store};
use super::showing::{say_further, say_rows};
use super::{Connection, stop_of};
use crate::bare::bare;
use crate::text::Text;
use ss_catalog::{Event, Refusal};
use ss_command::{Command, LONGEST_LINE, parse};
use ss_outside::Disk;
use ss_program::{Question, Rows, Status, ask};
use ss_report::Reply;
use ss_store::Store;

// What a line means. One that is too long is refused.
fn meaning_of(line: &[u8]) -> Result<Option<Command>, Refusal>
    ensures meaning { result ≡ meaning line.now }
    ensures time { IfOk result (λ found. IfSome found IsCommandInTime) }
{
    if line.len() > LONGEST_LINE {
        return Err(Refusal::Line);
    }
    parse(line)
}

// Does an event that a line says, and says its reply.
fn say_event<D: Disk>(
    store: &mut Store,
    event: &Event,
    text: &mut Text,
    disk: &mut D,
) -> Result<Option<Rows>, Status>
    requires in_time { IsInTime event.now }
    requires open { IsOpen (D.seen disk.old) store.old }
    ensures says { Step (disk_verdict (ended result)) (D.seen disk.old) (D.seen disk.new)
        (SaysOpen (λ history. command_brings history (Do event.now)) store.old store.new text.new result) }
    ensures none { IfOk result (λ left. left ≡ None) }
    ensures piece { IfOk result (IsPiece text.new) }
    ensures open { OnOk result (IsOpen (D.seen disk.new) store.new) }
    ensures status { IfErr result (IsApplyStop (D.seen disk.old).tells) }
{
    let reply = apply_event(store, event, disk)?;
    text.say(&reply);
    Ok(None)
}

// Asks a question, and says its answer.
fn say_answer<D: Disk>(
    store: &mut Store,
    question: &Question,
    text: &mut Text,
    disk: &mut D,
) -> Result<Option<Rows>, Status>
    requires open { IsOpen (D.seen disk.old) store.old }
    ensures says { Step (disk_verdict (ended result)) (D.seen disk.old) (D.seen disk.new)
        (SaysOpen (λ history. command_brings history (question_command question.now)) store.old store.new text.new result) }
    ensures none { IfOk result (λ left. left ≡ None) }
    ensures piece { IfOk result (IsPiece text.new) }
    ensures open { OnOk result (IsOpen (D.seen disk.new) store.new) }
    ensures status { IfErr result (IsDiskStop (D.seen disk.old).tells) }
{
    let reply = ask(store, question, disk)?;
    text.say(&reply);
    Ok(None)
}

// Does what a command says, and says what it brings. Answers the rows that are left.
fn do_command<D: Disk>(
    store: &mut Store,
    command: &Command,
    text: &mut Text,
    disk: &mut D,
) -> Result<Option<Rows>, Status>
    requires in_time { IsCommandInTime command.now }
    requires open { IsOpen (D.seen disk.old) store.old }
    ensures says { Step (disk_verdict (ended result)) (D.seen disk.old) (D.seen disk.new)
        (SaysOpen (λ history. command_brings history command.now) store.old store.new text.new result) }
    ensures stand { IfOk result (λ left. IfSome left (CanBeTaken store.new)) }
    ensures piece { IfOk result (IsPiece text.new) }
    ensures open { OnOk result (IsOpen (D.seen disk.new) store.new) }
    ensures status { IfErr result (IsApplyStop (D.seen disk.old).tells) }
{
    match command {
        Command::Do(event) => say_event(store, event, text, disk),
        Command::Ask(query) => say_answer(store, &Question::Query(*query), text, disk),
        Command::Last(name) => say_answer(store, &Question::Newest(*name), text, disk),
        Command::Certify { .. }
        | Command::Series(_)
        | Command::Values { .. }
        | Command::Windows(_)
        | Command::List => say_rows(store, command, text, disk),
    }
}

// Does what a line means, and says what it brings.
fn do_line<D: Disk>(
    store: &mut Store,
    meant: &Result<Option<Command>, Refusal>,
    text: &mut Text,
    disk: &mut D,
) -> Result<Option<Rows>, Status>
    requires in_time { IfOk meant.now (λ found. IfSome found IsCommandInTime) }
    requires open { IsOpen (D.seen disk.old) store.old }
    ensures says { Step (disk_verdict (ended result)) (D.seen disk.old) (D.seen disk.new)
        (SaysOpen (λ history. meaning_brings history meant.now) store.old store.new text.new result) }
    ensures stand { IfOk result (λ left. IfSome left (CanBeTaken store.new)) }
    ensures piece { IfOk result (IsPiece text.new) }
    ensures open { OnOk result (IsOpen (D.seen disk.new) store.new) }
    ensures status { IfErr result (IsApplyStop (D.seen disk.old).tells) }
{
    match meant {
        Err(refusal) => {
            text.say(&Reply::Refused(*refusal));
            Ok(None)
        }
        Ok(None) => {
            text.clear();
            Ok(None)
        }
        Ok(Some(command)) => do_command(store, command, text, disk),
    }
}

// Brings all staged events to the disk, and then does what a line means.
fn take_line<D: Disk>(
    store: &mut Store,
    line: &[u8],
    text: &mut Text,
    disk: &mut D,
) -> Result<Option<Rows>, Status>
    requires serves { IsServing (D.seen disk.old) store.old }
    ensures says { Step (disk_verdict (ended result)) (D.seen disk.old) (D.seen disk.new)
        (SaysHeld (λ history. brings history line.now) store.old store.new text.new result) }
    ensures stand { IfOk result (λ left. IfSome left (CanBeTaken store.new)) }
    ensures piece { IfOk result (IsPiece text.new) }
    ensures open { OnOk result (IsOpen (D.seen disk.new) store.new) }
    ensures status { IfErr result (IsApplyStop (D.seen disk.old).tells) }
{
    seal_store(store, disk)?;
    do_line(store, &meaning_of(line), text, disk)
}

impl Connection {
    // Keeps the rows that a call left, or ends at its status.
    fn keep(&mut self, left: Result<Option<Rows>, Status>) -> Result<(), Status>
        ensures state { self.new ≡ record self.old { rows = rows_of left; ended = stop_of left } }
        ensures result { result ≡ plain_of left }
    {
        match left {
            Ok(rows) => {
                self.rows = rows;
                self.ended = None;
                Ok(())
            }
            Err(status) => {
                self.rows = None;
                self.ended = Some(status);
                Err(status)
            }
        }
    }

    /// Does what a line of the grammar says, with or without its line end: `said` is then what a run says to it, or the first part of it
    /// where that is long, and `next` says the rest. All that was staged before and what the line does are on the disk when it answers. A
    /// comment or an empty line says nothing. Rows that are left of the line before are let go.
    pub fn call<D: Disk>(&mut self, line: &[u8], disk: &mut D) -> Result<(), Status>
        requires { IsUsable (D.seen disk.old) self.old }
        ensures { Called IsApplyStop self.old self.new ((self.new ≡ self.old) × (disk.new ≡ disk.old)) result (D.seen disk.old) (D.seen disk.new)
            (SaysHeld (λ history. brings history (bare line.now)) self.old.store self.new.store self.new.said (with_rows self.new.rows result)) }
    {
        if let Some(status) = self.ended {
            return Err(status);
        }
        let left = take_line(&mut self.store, bare(line), &mut self.text, disk);
        self.keep(left)
    }

    /// Says further rows of the last line in place of what was said before: nothing, where all were said, or another call was made since.
    /// Nothing is written.
    pub fn next<D: Disk>(&mut self, disk: &mut D) -> Result<(), Status>
        requires { IsUsable (D.seen disk.old) self.old }
        ensures { Called IsDiskStop self.old self.new ((self.new ≡ self.old) × (disk.new ≡ disk.old)) result (D.seen disk.old) (D.seen disk.new)
            (SaysFurther self.old.rows self.old.store self.new.store self.new.said (with_rows self.new.rows result)) }
    {
        if let Some(status) = self.ended {
            return Err(status);
        }
        match self.rows.take() {
            None => {
                self.text.clear();
                Ok(())
            }
            Some(rows) => {
                let left = say_further(rows, &mut self.store, &mut self.text, disk);
                self.keep(left)
            }
        }
    }
}
