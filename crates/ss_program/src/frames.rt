// Frames: a line whose event is written as its frame, and a frame whose event is applied.
ghost use Rattle.std.specs.Prelude.{◌≡◌, ◌≤◌, length, None, Some, IfSome};
ghost use Rattle.ss_catalog.specs.Events.{IsInTime};
ghost use Rattle.ss_command.specs.Grammar.{meaning};
ghost use Rattle.ss_command.specs.Printed.{IsCommandInTime};
ghost use Rattle.ss_frames.specs.Frame.{frame_in};
ghost use Rattle.ss_outside.specs.Step.{Step};
ghost use Rattle.ss_program.specs.Amid.{HasRoomForReply, IsReadyToServe, TakesTurn, between};
ghost use Rattle.ss_program.specs.Line.{event_asked, frame_brings};
ghost use Rattle.ss_program.specs.Status.{Continues, disk_verdict, ended, IsStop};
ghost use Rattle.ss_program.specs.Talk.{event_turn, meant_turn, turn_brought};

use crate::staging::stage_framed;
use crate::status::Status;
use crate::talk::Talk;
use ss_catalog::{Event, Refusal};
use ss_command::{Command, LONGEST_LINE, parse};
use ss_frames::{Frame, decode_piece, encode_frame};
use ss_outside::{Disk, Sink};
use ss_replica::{Due, due};
use ss_report::Reply;

// The event that a command asks for, if it asks for one.
fn event_of(command: &Command) -> Option<Event>
    requires { IsCommandInTime command.now }
    ensures event { result ≡ event_asked command.now }
    ensures time { IfSome result IsInTime }
{
    match command {
        Command::Do(event) => Some(*event),
        Command::Ask(_)
        | Command::Certify { .. }
        | Command::Series(_)
        | Command::Last(_)
        | Command::Values { .. }
        | Command::Windows(_)
        | Command::List => None,
    }
}

impl Talk {
    // Applies an event, and writes its frame where it is accepted. A drop is passed over.
    fn write_event_frame<D: Disk, K: Sink>(
        &mut self,
        event: &Event,
        disk: &mut D,
        sink: &mut K,
    ) -> Result<(), Status>
        requires in_time { IsInTime event.now }
        requires ready { IsReadyToServe (D.seen disk.old) self.old }
        requires room { HasRoomForReply self.old.waiting }
        ensures takes { Step (disk_verdict (ended result)) (D.seen disk.old) (D.seen disk.new)
            (TakesTurn (λ talk. event_turn talk event.now)
            (between self.old (K.held sink.old)) (between self.new (K.held sink.new)) result) }
        ensures continues { Continues IsStop (D.seen disk.old).tells (K.faults sink.old) (K.faults sink.new)
            (IsReadyToServe (D.seen disk.new) self.new) result }
    {
        if let Event::Drop { .. } = event {
            return Ok(());
        }
        match stage_framed(true, &mut self.store, event, disk) {
            Ok(staged) => match staged.reply {
                Reply::Refused(_) => Ok(()),
                _ => match staged.frame {
                    Some(frame) => self.say_text(&encode_frame(&frame), disk, sink),
                    None => self.say(None, &staged.reply, disk, sink),
                },
            },
            Err(status) => match status {
                Status::OutOfMemory => Err(self.starve(disk, sink)),
                _ => Err(status),
            },
        }
    }

    /// Does what a line says where frames are written: events alone are done.
    pub fn write_line_frame<D: Disk, K: Sink>(
        &mut self,
        line: &[u8],
        disk: &mut D,
        sink: &mut K,
    ) -> Result<(), Status>
        requires short { length line.now ≤ LONGEST_LINE }
        requires ready { IsReadyToServe (D.seen disk.old) self.old }
        requires room { HasRoomForReply self.old.waiting }
        ensures takes { Step (disk_verdict (ended result)) (D.seen disk.old) (D.seen disk.new)
            (TakesTurn (λ talk. meant_turn talk (meaning line.now))
            (between self.old (K.held sink.old)) (between self.new (K.held sink.new)) result) }
        ensures continues { Continues IsStop (D.seen disk.old).tells (K.faults sink.old) (K.faults sink.new)
            (IsReadyToServe (D.seen disk.new) self.new) result }
    {
        match parse(line) {
            Ok(Some(command)) => match event_of(&command) {
                Some(event) => self.write_event_frame(&event, disk, sink),
                None => Ok(()),
            },
            Ok(None) => Ok(()),
            Err(_) => Ok(()),
        }
    }

    // Offers a frame to the store, and says what comes of it.
    fn offer_frame<D: Disk, K: Sink>(
        &mut self,
        frame: &Frame,
        disk: &mut D,
        sink: &mut K,
    ) -> Result<(), Status>
        requires ready { IsReadyToServe (D.seen disk.old) self.old }
        requires room { HasRoomForReply self.old.waiting }
        ensures takes { Step (disk_verdict (ended result)) (D.seen disk.old) (D.seen disk.new)
            (TakesTurn (λ talk. turn_brought None talk (frame_brings talk.history (Some frame.now)))
            (between self.old (K.held sink.old)) (between self.new (K.held sink.new)) result) }
        ensures continues { Continues IsStop (D.seen disk.old).tells (K.faults sink.old) (K.faults sink.new)
            (IsReadyToServe (D.seen disk.new) self.new) result }
    {
        match due(&self.store, frame) {
            Due::Next => self.take_event(false, None, &frame.event, disk, sink),
            Due::Old => self.say(None, &Reply::Old, disk, sink),
            Due::Gap(last) => self.say(None, &Reply::Gap(last), disk, sink),
        }
    }

    /// Does what a piece of the input says where frames are followed.
    pub fn take_offered<D: Disk, K: Sink>(
        &mut self,
        piece: &[u8],
        disk: &mut D,
        sink: &mut K,
    ) -> Result<(), Status>
        requires ready { IsReadyToServe (D.seen disk.old) self.old }
        requires room { HasRoomForReply self.old.waiting }
        ensures takes { Step (disk_verdict (ended result)) (D.seen disk.old) (D.seen disk.new)
            (TakesTurn (λ talk. turn_brought None talk (frame_brings talk.history (frame_in piece.now)))
            (between self.old (K.held sink.old)) (between self.new (K.held sink.new)) result) }
        ensures continues { Continues IsStop (D.seen disk.old).tells (K.faults sink.old) (K.faults sink.new)
            (IsReadyToServe (D.seen disk.new) self.new) result }
    {
        match decode_piece(piece) {
            None => self.say_refusal(None, Refusal::Frame, disk, sink),
            Some(frame) => self.offer_frame(&frame, disk, sink),
        }
    }
}
