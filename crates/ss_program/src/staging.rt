// Lines that are done in memory: what they do is staged, and what is said to them waits until all of it is on the disk.
ghost use Rattle.std.specs.Prelude.{◌≡◌, [], IfOk, IfErr, OnOk, OnErr};
ghost use Rattle.ss_catalog.specs.Events.{IsInTime};
ghost use Rattle.ss_catalog.specs.declared.refusal.Refusal.{Refusal};
ghost use Rattle.ss_command.specs.Printed.{IsCommandInTime};
ghost use Rattle.ss_command.specs.declared.command.Command.TheVariants.{Do};
ghost use Rattle.ss_outside.specs.Step.{Step};
ghost use Rattle.ss_program.specs.Amid.{BringsEvent, HasRoomForReply, IsReadyToServe, StagesBrought, StagesFramed, TakesTurn, between};
ghost use Rattle.ss_program.specs.Answer.{HasRows, IsServing, question_command};
ghost use Rattle.ss_program.specs.Line.{command_brings, command_in, IsSpeaker};
ghost use Rattle.ss_program.specs.Status.{Continues, disk_verdict, ended, IsApplyStop, IsStop};
ghost use Rattle.ss_program.specs.Talk.{turn_brought};

use crate::answer::{Question, ask, show};
use crate::status::Status;
use crate::talk::Talk;
use ss_catalog::Event;
use ss_command::Command;
use ss_frames::Frame;
use ss_outside::{Disk, Sink};
use ss_replica::frame_after;
use ss_report::Reply;
use ss_store::{ApplyError, Store};

/// Stages an event, and answers the reply to it. Where memory runs out the store can still be called, and shows what it did.
pub fn stage<D: Disk>(store: &mut Store, event: &Event, disk: &mut D) -> Result<Reply, Status>
    requires in_time { IsInTime event.now }
    requires serves { IsServing (D.seen disk.old) store.old }
    ensures stages { Step (disk_verdict (ended result)) (D.seen disk.old) (D.seen disk.new)
        (StagesBrought (λ history. command_brings history (Do event.now)) store.old.records store.new.records result) }
    // At one that is refused nothing is done.
    ensures idle { IfOk result (λ reply. (refusal : Refusal) → reply ≡ Reply.Refused refusal → (store.new ≡ store.old) × (disk.new ≡ disk.old)) }
    // The run stops only at an event that isn't refused.
    ensures accepted { OnErr result (BringsEvent (λ history. command_brings history (Do event.now)) store.old.records (D.seen disk.old)) }
    ensures serves { OnOk result (IsServing (D.seen disk.new) store.new) }
    ensures status { IfErr result (IsApplyStop (D.seen disk.old).tells) }
    ensures starved { IfErr result (λ status. status ≡ Status.OutOfMemory →
        (disk.new ≡ disk.old) × (store.new.records ≡ store.old.records) × IsServing (D.seen disk.new) store.new) }
{
    match store.stage(disk, event) {
        Ok(ack) => Ok(Reply::Done(ack)),
        Err(ApplyError::Refused(refusal)) => Ok(Reply::Refused(refusal)),
        Err(ApplyError::OutOfMemory) => Err(Status::OutOfMemory),
        Err(ApplyError::Disk) => Err(Status::DiskFault),
        Err(ApplyError::Changed { .. }) => Err(Status::RecordChanged),
        Err(ApplyError::Stopped) => unreachable!(),
    }
}

/// What is staged of an event: the reply to it, and its frame where one is to be said and the event was accepted.
#[derive(Clone, Copy)]
pub struct Staged {
    pub reply: Reply,
    pub frame: Option<Frame>,
}

/// Stages an event, and answers what is said of it.
pub fn stage_framed<D: Disk>(
    framed: bool,
    store: &mut Store,
    event: &Event,
    disk: &mut D,
) -> Result<Staged, Status>
    requires in_time { IsInTime event.now }
    requires serves { IsServing (D.seen disk.old) store.old }
    ensures stages { Step (disk_verdict (ended result)) (D.seen disk.old) (D.seen disk.new)
        (StagesFramed framed event.now store.old.records store.new.records result) }
    ensures idle { IfOk result (λ staged. (refusal : Refusal) → staged.reply ≡ Reply.Refused refusal → (store.new ≡ store.old) × (disk.new ≡ disk.old)) }
    ensures accepted { OnErr result (BringsEvent (λ history. command_brings history (Do event.now)) store.old.records (D.seen disk.old)) }
    ensures serves { OnOk result (IsServing (D.seen disk.new) store.new) }
    ensures status { IfErr result (IsApplyStop (D.seen disk.old).tells) }
    ensures starved { IfErr result (λ status. status ≡ Status.OutOfMemory →
        (disk.new ≡ disk.old) × (store.new.records ≡ store.old.records) × IsServing (D.seen disk.new) store.new) }
{
    let reply = stage(store, event, disk)?;
    let frame = match reply {
        Reply::Done(_) if framed => frame_after(store, event),
        _ => None,
    };
    Ok(Staged { reply, frame })
}

impl Talk {
    /// Stages an event, and says the reply to it, with its frame where frames are said. Where memory runs out, all that waits is
    /// brought to the disk and sent before the run stops.
    pub fn take_event<D: Disk, K: Sink>(
        &mut self,
        framed: bool,
        speaker: Option<u8>,
        event: &Event,
        disk: &mut D,
        sink: &mut K,
    ) -> Result<(), Status>
        requires speaker { IsSpeaker speaker }
        requires in_time { IsInTime event.now }
        requires ready { IsReadyToServe (D.seen disk.old) self.old }
        requires room { HasRoomForReply self.old.waiting }
        ensures takes { Step (disk_verdict (ended result)) (D.seen disk.old) (D.seen disk.new)
            (TakesTurn (λ talk. turn_brought speaker talk (command_in framed talk.history (Do event.now)))
            (between self.old (K.held sink.old)) (between self.new (K.held sink.new)) result) }
        ensures continues { Continues IsStop (D.seen disk.old).tells (K.faults sink.old) (K.faults sink.new)
            (IsReadyToServe (D.seen disk.new) self.new) result }
    {
        match stage_framed(framed, &mut self.store, event, disk) {
            Ok(staged) => self.say_staged(speaker, &staged, disk, sink),
            Err(status) => match status {
                Status::OutOfMemory => Err(self.starve(disk, sink)),
                _ => Err(status),
            },
        }
    }

    // Asks a question, and says its answer, by what the store shows.
    fn take_question<D: Disk, K: Sink>(
        &mut self,
        speaker: Option<u8>,
        question: &Question,
        disk: &mut D,
        sink: &mut K,
    ) -> Result<(), Status>
        requires speaker { IsSpeaker speaker }
        requires ready { IsReadyToServe (D.seen disk.old) self.old }
        requires room { HasRoomForReply self.old.waiting }
        ensures takes { Step (disk_verdict (ended result)) (D.seen disk.old) (D.seen disk.new)
            (TakesTurn (λ talk. turn_brought speaker talk (command_brings talk.history (question_command question.now)))
            (between self.old (K.held sink.old)) (between self.new (K.held sink.new)) result) }
        ensures continues { Continues IsStop (D.seen disk.old).tells (K.faults sink.old) (K.faults sink.new)
            (IsReadyToServe (D.seen disk.new) self.new) result }
    {
        let reply = ask(&mut self.store, question, disk)?;
        self.say(speaker, &reply, disk, sink)
    }

    // Shows rows, which don't wait: before them all is brought to the disk and sent.
    fn show_rows<D: Disk, K: Sink>(
        &mut self,
        speaker: Option<u8>,
        command: &Command,
        disk: &mut D,
        sink: &mut K,
    ) -> Result<(), Status>
        requires speaker { IsSpeaker speaker }
        requires in_time { IsCommandInTime command.now }
        requires rows { HasRows command.now }
        requires ready { IsReadyToServe (D.seen disk.old) self.old }
        ensures takes { Step (disk_verdict (ended result)) (D.seen disk.old) (D.seen disk.new)
            (TakesTurn (λ talk. turn_brought speaker talk (command_brings talk.history command.now))
            (between self.old (K.held sink.old)) (between self.new (K.held sink.new)) result) }
        ensures continues { Continues IsStop (D.seen disk.old).tells (K.faults sink.old) (K.faults sink.new)
            (IsReadyToServe (D.seen disk.new) self.new) result }
    {
        self.flush(disk, sink)?;
        show(speaker, &mut self.store, command, disk, sink)
    }

    /// Does what a command says, and says what it brings.
    pub fn take_command<D: Disk, K: Sink>(
        &mut self,
        framed: bool,
        speaker: Option<u8>,
        command: &Command,
        disk: &mut D,
        sink: &mut K,
    ) -> Result<(), Status>
        requires speaker { IsSpeaker speaker }
        requires in_time { IsCommandInTime command.now }
        requires ready { IsReadyToServe (D.seen disk.old) self.old }
        requires room { HasRoomForReply self.old.waiting }
        ensures takes { Step (disk_verdict (ended result)) (D.seen disk.old) (D.seen disk.new)
            (TakesTurn (λ talk. turn_brought speaker talk (command_in framed talk.history command.now))
            (between self.old (K.held sink.old)) (between self.new (K.held sink.new)) result) }
        ensures continues { Continues IsStop (D.seen disk.old).tells (K.faults sink.old) (K.faults sink.new)
            (IsReadyToServe (D.seen disk.new) self.new) result }
    {
        match command {
            Command::Do(event) => self.take_event(framed, speaker, event, disk, sink),
            Command::Ask(query) => {
                self.take_question(speaker, &Question::Query(*query), disk, sink)
            }
            Command::Last(name) => {
                self.take_question(speaker, &Question::Newest(*name), disk, sink)
            }
            Command::Certify { .. }
            | Command::Series(_)
            | Command::Values { .. }
            | Command::Windows(_)
            | Command::List => self.show_rows(speaker, command, disk, sink),
        }
    }
}
