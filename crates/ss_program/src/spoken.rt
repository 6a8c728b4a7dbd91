// Lines by the form of their input: what a plain line says is done, and what a line of sessions says to one of these.
ghost use Rattle.std.specs.Prelude.{◌<◌, ◌≤◌, length, None, Some, IfOk, IfSome};
ghost use Rattle.std.specs.Option.{option_copied};
ghost use Rattle.ss_command.specs.Grammar.{meaning};
ghost use Rattle.ss_outside.specs.Step.{Step};
ghost use Rattle.ss_sessions.specs.Grammar.{spoken_of};
ghost use Rattle.ss_sessions.specs.Said.{IsOrderInTime};
ghost use Rattle.ss_base.specs.declared.limits.TheConstants.{MOST_SESSIONS};
ghost use Rattle.ss_program.specs.Amid.{HasRoomForReply, IsReadyToServe, TakesTurn, between};
ghost use Rattle.ss_program.specs.Cursor.{close_brings, next_brings, open_brings, order_in};
ghost use Rattle.ss_program.specs.Line.{meaning_in};
ghost use Rattle.ss_program.specs.Status.{Continues, disk_verdict, ended, IsStop};
ghost use Rattle.ss_program.specs.Talk.{kept_turn, turn_brought, turn_said, turn_spoken, turn_to};

use crate::answer::at_sink;
use crate::cursors::{close_cursor, open_cursor, show_next};
use crate::status::Status;
use crate::talk::Talk;
use ss_arguments::Form;
use ss_catalog::{Name, Refusal};
use ss_command::{LONGEST_LINE, parse};
use ss_outside::{Disk, Sink};
use ss_sessions::{Order, Spoken, read_spoken};

impl Talk {
    // Opens the cursor of a session, and says how many rows it has. Where memory runs out, all that waits is brought to the disk and
    // sent before the run stops.
    fn take_open<D: Disk, K: Sink>(
        &mut self,
        session: u8,
        name: &Name,
        disk: &mut D,
        sink: &mut K,
    ) -> Result<(), Status>
        requires session { session < MOST_SESSIONS }
        requires ready { IsReadyToServe (D.seen disk.old) self.old }
        requires room { HasRoomForReply self.old.waiting }
        ensures takes { Step (disk_verdict (ended result)) (D.seen disk.old) (D.seen disk.new)
            (TakesTurn (λ talk. turn_said (Some session) (open_brings talk.history talk.cursors session name.now))
            (between self.old (K.held sink.old)) (between self.new (K.held sink.new)) result) }
        ensures continues { Continues IsStop (D.seen disk.old).tells (K.faults sink.old) (K.faults sink.new)
            (IsReadyToServe (D.seen disk.new) self.new) result }
    {
        match open_cursor(&mut self.sessions, session, &mut self.store, name, disk) {
            Ok(reply) => self.say(Some(session), &reply, disk, sink),
            Err(status) => match status {
                Status::OutOfMemory => Err(self.starve(disk, sink)),
                _ => Err(status),
            },
        }
    }

    // Shows the next rows of the cursor of a session, which don't wait: before them all is brought to the disk and sent.
    fn take_next<D: Disk, K: Sink>(
        &mut self,
        session: u8,
        count: u32,
        disk: &mut D,
        sink: &mut K,
    ) -> Result<(), Status>
        requires session { session < MOST_SESSIONS }
        requires ready { IsReadyToServe (D.seen disk.old) self.old }
        ensures takes { Step (disk_verdict (ended result)) (D.seen disk.old) (D.seen disk.new)
            (TakesTurn (λ talk. turn_said (Some session) (next_brings talk.cursors session count))
            (between self.old (K.held sink.old)) (between self.new (K.held sink.new)) result) }
        ensures continues { Continues IsStop (D.seen disk.old).tells (K.faults sink.old) (K.faults sink.new)
            (IsReadyToServe (D.seen disk.new) self.new) result }
    {
        self.flush(disk, sink)?;
        at_sink(show_next(&mut self.sessions, session, count, sink))
    }

    // Closes the cursor of a session, and says so.
    fn take_close<D: Disk, K: Sink>(
        &mut self,
        session: u8,
        disk: &mut D,
        sink: &mut K,
    ) -> Result<(), Status>
        requires session { session < MOST_SESSIONS }
        requires ready { IsReadyToServe (D.seen disk.old) self.old }
        requires room { HasRoomForReply self.old.waiting }
        ensures takes { Step (disk_verdict (ended result)) (D.seen disk.old) (D.seen disk.new)
            (TakesTurn (λ talk. turn_said (Some session) (close_brings talk.cursors session))
            (between self.old (K.held sink.old)) (between self.new (K.held sink.new)) result) }
        ensures continues { Continues IsStop (D.seen disk.old).tells (K.faults sink.old) (K.faults sink.new)
            (IsReadyToServe (D.seen disk.new) self.new) result }
    {
        let reply = close_cursor(&mut self.sessions, session);
        self.say(Some(session), &reply, disk, sink)
    }

    // Does what a session orders, and says what that brings.
    fn take_order<D: Disk, K: Sink>(
        &mut self,
        framed: bool,
        session: u8,
        order: &Order,
        disk: &mut D,
        sink: &mut K,
    ) -> Result<(), Status>
        requires session { session < MOST_SESSIONS }
        requires in_time { IsOrderInTime order.now }
        requires ready { IsReadyToServe (D.seen disk.old) self.old }
        requires room { HasRoomForReply self.old.waiting }
        ensures takes { Step (disk_verdict (ended result)) (D.seen disk.old) (D.seen disk.new)
            (TakesTurn (λ talk. turn_said (Some session) (order_in framed talk.history talk.cursors session order.now))
            (between self.old (K.held sink.old)) (between self.new (K.held sink.new)) result) }
        ensures continues { Continues IsStop (D.seen disk.old).tells (K.faults sink.old) (K.faults sink.new)
            (IsReadyToServe (D.seen disk.new) self.new) result }
    {
        match order {
            Order::Command(command) => {
                self.take_command(framed, Some(session), command, disk, sink)
            }
            Order::Open(name) => self.take_open(session, name, disk, sink),
            Order::Next(count) => self.take_next(session, *count, disk, sink),
            Order::Close => self.take_close(session, disk, sink),
        }
    }

    // Does what is said to a session.
    fn take_said<D: Disk, K: Sink>(
        &mut self,
        framed: bool,
        session: u8,
        said: Result<Option<Order>, Refusal>,
        disk: &mut D,
        sink: &mut K,
    ) -> Result<(), Status>
        requires session { session < MOST_SESSIONS }
        requires in_time { IfOk said (λ order. IfSome order IsOrderInTime) }
        requires ready { IsReadyToServe (D.seen disk.old) self.old }
        requires room { HasRoomForReply self.old.waiting }
        ensures takes { Step (disk_verdict (ended result)) (D.seen disk.old) (D.seen disk.new)
            (TakesTurn (λ talk. turn_to framed session talk said)
            (between self.old (K.held sink.old)) (between self.new (K.held sink.new)) result) }
        ensures continues { Continues IsStop (D.seen disk.old).tells (K.faults sink.old) (K.faults sink.new)
            (IsReadyToServe (D.seen disk.new) self.new) result }
    {
        match said {
            Err(refusal) => self.say_refusal(Some(session), refusal, disk, sink),
            Ok(None) => Ok(()),
            Ok(Some(order)) => self.take_order(framed, session, &order, disk, sink),
        }
    }

    // Does what a line of sessions says.
    fn take_spoken<D: Disk, K: Sink>(
        &mut self,
        framed: bool,
        line: &[u8],
        disk: &mut D,
        sink: &mut K,
    ) -> Result<(), Status>
        requires short { length line.now ≤ LONGEST_LINE }
        requires ready { IsReadyToServe (D.seen disk.old) self.old }
        requires room { HasRoomForReply self.old.waiting }
        ensures takes { Step (disk_verdict (ended result)) (D.seen disk.old) (D.seen disk.new)
            (TakesTurn (λ talk. turn_spoken framed talk (spoken_of line.now))
            (between self.old (K.held sink.old)) (between self.new (K.held sink.new)) result) }
        ensures continues { Continues IsStop (D.seen disk.old).tells (K.faults sink.old) (K.faults sink.new)
            (IsReadyToServe (D.seen disk.new) self.new) result }
    {
        match read_spoken(line) {
            Spoken::Nothing => Ok(()),
            Spoken::Unaddressed => self.say_refusal(None, Refusal::Syntax, disk, sink),
            Spoken::To { session, said } => self.take_said(framed, session, said, disk, sink),
        }
    }

    // Does what a plain line says.
    fn take_plain<D: Disk, K: Sink>(
        &mut self,
        framed: bool,
        line: &[u8],
        disk: &mut D,
        sink: &mut K,
    ) -> Result<(), Status>
        requires short { length line.now ≤ LONGEST_LINE }
        requires ready { IsReadyToServe (D.seen disk.old) self.old }
        requires room { HasRoomForReply self.old.waiting }
        ensures takes { Step (disk_verdict (ended result)) (D.seen disk.old) (D.seen disk.new)
            (TakesTurn (λ talk. turn_brought None talk (meaning_in framed talk.history (meaning line.now)))
            (between self.old (K.held sink.old)) (between self.new (K.held sink.new)) result) }
        ensures continues { Continues IsStop (D.seen disk.old).tells (K.faults sink.old) (K.faults sink.new)
            (IsReadyToServe (D.seen disk.new) self.new) result }
    {
        match parse(line) {
            Err(refusal) => self.say_refusal(None, refusal, disk, sink),
            Ok(None) => Ok(()),
            Ok(Some(command)) => self.take_command(framed, None, &command, disk, sink),
        }
    }

    // A line that is too long: it is refused, but where frames alone are written.
    fn take_long<D: Disk, K: Sink>(
        &mut self,
        form: Form,
        disk: &mut D,
        sink: &mut K,
    ) -> Result<(), Status>
        requires ready { IsReadyToServe (D.seen disk.old) self.old }
        requires room { HasRoomForReply self.old.waiting }
        ensures takes { Step (disk_verdict (ended result)) (D.seen disk.old) (D.seen disk.new)
            (TakesTurn (kept_turn form None)
            (between self.old (K.held sink.old)) (between self.new (K.held sink.new)) result) }
        ensures continues { Continues IsStop (D.seen disk.old).tells (K.faults sink.old) (K.faults sink.new)
            (IsReadyToServe (D.seen disk.new) self.new) result }
    {
        match form {
            Form::Lines { .. } | Form::Sessions { .. } => {
                self.say_refusal(None, Refusal::Line, disk, sink)
            }
            Form::Frames | Form::Follow => Ok(()),
        }
    }

    // Does what a line says, where one more reply can wait. A line that is too long comes as `None`.
    fn take_line<D: Disk, K: Sink>(
        &mut self,
        form: Form,
        line: Option<&[u8]>,
        disk: &mut D,
        sink: &mut K,
    ) -> Result<(), Status>
        requires short { IfSome (option_copied line) (λ bytes. length bytes ≤ LONGEST_LINE) }
        requires ready { IsReadyToServe (D.seen disk.old) self.old }
        requires room { HasRoomForReply self.old.waiting }
        ensures takes { Step (disk_verdict (ended result)) (D.seen disk.old) (D.seen disk.new)
            (TakesTurn (kept_turn form (option_copied line.entry))
            (between self.old (K.held sink.old)) (between self.new (K.held sink.new)) result) }
        ensures continues { Continues IsStop (D.seen disk.old).tells (K.faults sink.old) (K.faults sink.new)
            (IsReadyToServe (D.seen disk.new) self.new) result }
    {
        let Some(line) = line else {
            return self.take_long(form, disk, sink);
        };
        match form {
            Form::Lines { framed } => self.take_plain(framed, line, disk, sink),
            Form::Sessions { framed } => self.take_spoken(framed, line, disk, sink),
            Form::Frames => self.write_line_frame(line, disk, sink),
            Form::Follow => self.take_offered(line, disk, sink),
        }
    }

    /// Does what a line says, by the form of its input. Where no more replies can wait, all is brought to the disk and sent before.
    pub fn stage_line<D: Disk, K: Sink>(
        &mut self,
        form: Form,
        line: Option<&[u8]>,
        disk: &mut D,
        sink: &mut K,
    ) -> Result<(), Status>
        requires short { IfSome (option_copied line) (λ bytes. length bytes ≤ LONGEST_LINE) }
        requires ready { IsReadyToServe (D.seen disk.old) self.old }
        ensures takes { Step (disk_verdict (ended result)) (D.seen disk.old) (D.seen disk.new)
            (TakesTurn (kept_turn form (option_copied line.entry))
            (between self.old (K.held sink.old)) (between self.new (K.held sink.new)) result) }
        ensures continues { Continues IsStop (D.seen disk.old).tells (K.faults sink.old) (K.faults sink.new)
            (IsReadyToServe (D.seen disk.new) self.new) result }
    {
        self.make_room(disk, sink)?;
        self.take_line(form, line, disk, sink)
    }
}
