// What is asked is answered, or shown in rows.
ghost use Rattle.std.specs.Prelude.{◌≡◌, ◌∷◌, flat_map, Some, IfErr, OnOk};
ghost use Rattle.ss_command.specs.Printed.{IsCommandInTime};
ghost use Rattle.ss_outside.specs.Step.{Step};
ghost use Rattle.ss_report.specs.Text.{said_line};
ghost use Rattle.ss_program.specs.Answer.{HasRows, IsOneReply, IsOpen, IsServing, IsTextBrought, ReadsAnswer, Shows};
ghost use Rattle.ss_program.specs.Answer.{at_sink, question_command};
ghost use Rattle.ss_program.specs.Devices.{over};
ghost use Rattle.ss_program.specs.Line.{command_brings, IsSpeaker};
ghost use Rattle.ss_program.specs.Sent.{Puts};
ghost use Rattle.ss_program.specs.declared.status.Status.{Status};
ghost use Rattle.ss_program.specs.Status.{disk_verdict, ended, IsDiskStop};

use crate::rows::Rows;
use crate::sending::send;
use crate::status::Status;
use arrayvec::ArrayString;
use ss_catalog::{Name, Query};
use ss_command::Command;
use ss_outside::{Disk, Failed, Sink};
use ss_report::{Reply, said_text};
use ss_store::{AskError, Store};

/// The status where a sink failed.
pub fn at_sink(sent: Result<(), Failed>) -> Result<(), Status>
    ensures { result ≡ at_sink sent }
{
    match sent {
        Ok(()) => Ok(()),
        Err(_) => Err(Status::SinkFault),
    }
}

/// Says a reply to a session or to none: sends its text as one piece.
pub fn send_reply<K: Sink>(speaker: Option<u8>, reply: &Reply, sink: &mut K) -> Result<(), Failed>
    requires speaker { IsSpeaker speaker }
    ensures { Puts (said_line speaker reply.now) (K.held sink.old) (K.faults sink.old) (K.held sink.new) (K.faults sink.new) result }
{
    let mut text = ArrayString::new();
    said_text(speaker, reply, &mut text);
    send(sink, text.as_str().as_bytes())
}

/// Says some replies, each as one piece.
pub fn send_replies<K: Sink>(
    speaker: Option<u8>,
    replies: &[Reply],
    sink: &mut K,
) -> Result<(), Failed>
    requires speaker { IsSpeaker speaker }
    ensures { Puts (flat_map (said_line speaker) replies.now) (K.held sink.old) (K.faults sink.old) (K.held sink.new) (K.faults sink.new) result }
{
    for reply in replies {
        send_reply(speaker, reply, sink)?;
    }
    Ok(())
}

/// What is asked that has one answer: a query, or how far a stream has come.
#[derive(Clone, Copy, Debug, PartialEq, Eq)]
pub enum Question {
    Query(Query),
    Newest(Name),
}

/// Asks the store, and answers the reply to it, by what the store shows.
pub fn ask<D: Disk>(store: &mut Store, question: &Question, disk: &mut D) -> Result<Reply, Status>
    requires serves { IsServing (D.seen disk.old) store.old }
    ensures asks { Step (disk_verdict (ended result)) (D.seen disk.old) (D.seen disk.new)
        (ReadsAnswer (IsOneReply store.old.records (λ history. command_brings history (question_command question.now))) result) }
    ensures serves { OnOk result (IsServing (D.seen disk.new) store.new) }
    ensures journal { OnOk result (store.new.records.journal ≡ store.old.records.journal) }
    ensures status { IfErr result (IsDiskStop (D.seen disk.old).tells) }
{
    match question {
        Question::Query(query) => match store.ask(disk, query) {
            Ok(outcome) => Ok(Reply::Answered(outcome)),
            Err(AskError::Refused(refusal)) => Ok(Reply::Refused(refusal)),
            Err(AskError::Disk) => Err(Status::DiskFault),
            Err(AskError::Changed { .. }) => Err(Status::RecordChanged),
            Err(AskError::Stopped) => unreachable!(),
        },
        Question::Newest(name) => match store.newest(disk, name) {
            Ok(newest) => Ok(Reply::Last(newest)),
            Err(AskError::Refused(refusal)) => Ok(Reply::Refused(refusal)),
            Err(AskError::Disk) => Err(Status::DiskFault),
            Err(AskError::Changed { .. }) => Err(Status::RecordChanged),
            Err(AskError::Stopped) => unreachable!(),
        },
    }
}

/// Shows the rows that a command asks for: to the session that says it, or to none.
pub fn show<D: Disk, K: Sink>(
    speaker: Option<u8>,
    store: &mut Store,
    command: &Command,
    disk: &mut D,
    sink: &mut K,
) -> Result<(), Status>
    requires speaker { IsSpeaker speaker }
    requires in_time { IsCommandInTime command.now }
    requires rows { HasRows command.now }
    requires open { IsOpen (D.seen disk.old) store.old }
    ensures { Shows (IsTextBrought speaker command.now) (over (D.seen disk.old) (K.held sink.old) (K.faults sink.old))
        (over (D.seen disk.new) (K.held sink.new) (K.faults sink.new)) store.new result }
{
    let (head, mut rows) = Rows::start(store, command, disk)?;
    at_sink(send_reply(speaker, &head, sink))?;
    while let Some(row) = rows.next(store, disk)? {
        at_sink(send_reply(speaker, &row, sink))?;
    }
    Ok(())
}
