// What is said to lines that are done in memory: it waits until all that they do is on the disk. Where each event is sealed by itself,
// what a line does is brought to the disk at once, and then its reply is sent.
ghost use Rattle.std.specs.Prelude.{◌≡◌, ◌<◌, ◌≤◌, [], flat_map, length, IsTrue, OnOk};
ghost use Rattle.ss_outside.specs.Step.{Step};
ghost use Rattle.ss_outside.specs.Verdict.{Counted};
ghost use Rattle.ss_report.specs.Text.{said_line};
ghost use Rattle.ss_program.specs.Amid.{HasRoomForReply, IsReadyToServe, TakesNone, TakesStarved, TakesTurn, amid, between, owed_by, owing, staged_replies};
ghost use Rattle.ss_program.specs.Amid.{with_text};
ghost use Rattle.ss_program.specs.Answer.{IsOpen, IsServing};
ghost use Rattle.ss_program.specs.Line.{refused, IsSpeaker};
ghost use Rattle.ss_program.specs.Progress.{NoneWait};
ghost use Rattle.ss_program.specs.Status.{Continues, disk_verdict, ended, sink_verdict, IsShowStop, IsStop};
ghost use Rattle.ss_program.specs.Talk.{turn_brought};
ghost use Rattle.ss_sessions.specs.Cursors.{Cursors};

use crate::answer::at_sink;
use crate::replies::{LONGEST_REPLY, Replies, Seals};
use crate::sending::send;
use crate::staging::Staged;
use crate::status::Status;
use crate::talk::Talk;
use arrayvec::ArrayString;
use ss_catalog::Refusal;
use ss_outside::{Disk, Sink};
use ss_report::{Reply, said_text};
use ss_store::Store;

// Brings all staged events to the disk, and then sends the replies that wait, so that no reply is sent before what it speaks of is
// on the disk.
fn send_waiting<D: Disk, K: Sink>(
    store: &mut Store,
    waiting: &mut Replies,
    disk: &mut D,
    sink: &mut K,
) -> Result<(), Status>
    requires { IsServing (D.seen disk.old) store.old }
    ensures takes { (cursors : Cursors) → Step (disk_verdict (ended result)) (D.seen disk.old) (D.seen disk.new)
        (TakesNone (amid store.old.records (owed_by (Seals.Shared waiting.old)) (K.held sink.old) cursors)
        (amid store.new.records (owed_by (Seals.Shared waiting.new)) (K.held sink.new) cursors) result) }
    ensures continues { Continues IsShowStop (D.seen disk.old).tells (K.faults sink.old) (K.faults sink.new)
        (IsOpen (D.seen disk.new) store.new) result }
    ensures none { OnOk result (waiting.new ≡ []) }
{
    match store.seal(disk) {
        Err(_) => Err(Status::DiskFault),
        Ok(()) => {
            let sent = at_sink(send(sink, waiting.as_slice()));
            waiting.clear();
            sent
        }
    }
}

// Brings what a line did to the disk, and then sends what is said to it.
fn send_sealed<D: Disk, K: Sink>(
    store: &mut Store,
    text: &[u8],
    disk: &mut D,
    sink: &mut K,
) -> Result<(), Status>
    requires some { 0 < length text.now }
    requires serves { IsServing (D.seen disk.old) store.old }
    ensures takes { (cursors : Cursors) → Step (disk_verdict (ended result)) (D.seen disk.old) (D.seen disk.new)
        (TakesNone (amid store.old.records (with_text (owed_by Seals.Each) text.now) (K.held sink.old) cursors)
        (amid store.new.records (owed_by Seals.Each) (K.held sink.new) cursors) result) }
    ensures continues { Continues IsShowStop (D.seen disk.old).tells (K.faults sink.old) (K.faults sink.new)
        (IsOpen (D.seen disk.new) store.new) result }
{
    match store.seal(disk) {
        Err(_) => Err(Status::DiskFault),
        Ok(()) => at_sink(send(sink, text)),
    }
}

// Whether one more reply can wait.
fn has_room(waiting: &Seals) -> bool
    ensures { IsTrue result → HasRoomForReply waiting.now }
{
    match waiting {
        Seals::Each => true,
        Seals::Shared(replies) => replies.has_room(),
    }
}

impl Talk {
    /// Brings all staged events to the disk, and then sends the replies that wait. Where none wait all is there, and was sent.
    pub fn flush<D: Disk, K: Sink>(&mut self, disk: &mut D, sink: &mut K) -> Result<(), Status>
        requires { IsReadyToServe (D.seen disk.old) self.old }
        ensures takes { Step (disk_verdict (ended result)) (D.seen disk.old) (D.seen disk.new)
            (TakesNone (between self.old (K.held sink.old)) (between self.new (K.held sink.new)) result) }
        ensures continues { Continues IsShowStop (D.seen disk.old).tells (K.faults sink.old) (K.faults sink.new)
            (IsOpen (D.seen disk.new) self.new.store) result }
        ensures none { OnOk result (NoneWait self.new.waiting) }
    {
        match &mut self.waiting {
            Seals::Each => Ok(()),
            Seals::Shared(replies) => send_waiting(&mut self.store, replies, disk, sink),
        }
    }

    /// Memory ran out at a line, at which nothing was done: all that waits is brought to the disk and sent, and the run stops.
    pub fn starve<D: Disk, K: Sink>(&mut self, disk: &mut D, sink: &mut K) -> Status
        requires { IsReadyToServe (D.seen disk.old) self.old }
        ensures takes { Step (disk_verdict result) (D.seen disk.old) (D.seen disk.new)
            (TakesStarved (between self.old (K.held sink.old)) (between self.new (K.held sink.new)) result) }
        ensures status { IsStop (D.seen disk.old).tells result }
        ensures counted { Counted (sink_verdict result) (K.faults sink.old) (K.faults sink.new) }
    {
        match self.flush(disk, sink) {
            Ok(()) => Status::OutOfMemory,
            Err(status) => status,
        }
    }

    /// Sees to it that one more reply can wait.
    pub fn make_room<D: Disk, K: Sink>(&mut self, disk: &mut D, sink: &mut K) -> Result<(), Status>
        requires { IsReadyToServe (D.seen disk.old) self.old }
        ensures takes { Step (disk_verdict (ended result)) (D.seen disk.old) (D.seen disk.new)
            (TakesNone (between self.old (K.held sink.old)) (between self.new (K.held sink.new)) result) }
        ensures continues { Continues IsShowStop (D.seen disk.old).tells (K.faults sink.old) (K.faults sink.new)
            (IsReadyToServe (D.seen disk.new) self.new) result }
        ensures room { OnOk result (HasRoomForReply self.new.waiting) }
    {
        if has_room(&self.waiting) {
            return Ok(());
        }
        self.flush(disk, sink)
    }

    /// Says a text to a line that is done in memory: it waits, or what the line did is brought to the disk and the text is sent.
    pub fn say_text<D: Disk, K: Sink>(
        &mut self,
        text: &[u8],
        disk: &mut D,
        sink: &mut K,
    ) -> Result<(), Status>
        requires some { 0 < length text.now }
        requires short { length text.now ≤ LONGEST_REPLY }
        requires serves { IsServing (D.seen disk.old) self.old.store }
        requires room { HasRoomForReply self.old.waiting }
        ensures takes { Step (disk_verdict (ended result)) (D.seen disk.old) (D.seen disk.new)
            (TakesNone (owing self.old text.now (K.held sink.old)) (between self.new (K.held sink.new)) result) }
        ensures continues { Continues IsShowStop (D.seen disk.old).tells (K.faults sink.old) (K.faults sink.new)
            (IsReadyToServe (D.seen disk.new) self.new) result }
    {
        match &mut self.waiting {
            Seals::Each => send_sealed(&mut self.store, text, disk, sink),
            Seals::Shared(replies) => {
                replies.hold(text);
                Ok(())
            }
        }
    }

    /// Says the reply to a line that is done in memory, to a session or to none.
    pub fn say<D: Disk, K: Sink>(
        &mut self,
        speaker: Option<u8>,
        reply: &Reply,
        disk: &mut D,
        sink: &mut K,
    ) -> Result<(), Status>
        requires speaker { IsSpeaker speaker }
        requires serves { IsServing (D.seen disk.old) self.old.store }
        requires room { HasRoomForReply self.old.waiting }
        ensures takes { Step (disk_verdict (ended result)) (D.seen disk.old) (D.seen disk.new)
            (TakesNone (owing self.old (said_line speaker reply.now) (K.held sink.old)) (between self.new (K.held sink.new)) result) }
        ensures continues { Continues IsShowStop (D.seen disk.old).tells (K.faults sink.old) (K.faults sink.new)
            (IsReadyToServe (D.seen disk.new) self.new) result }
    {
        let mut text = ArrayString::new();
        said_text(speaker, reply, &mut text);
        self.say_text(text.as_str().as_bytes(), disk, sink)
    }

    /// Says the reply to an event that is staged, and its frame behind it where it has one.
    pub fn say_staged<D: Disk, K: Sink>(
        &mut self,
        speaker: Option<u8>,
        staged: &Staged,
        disk: &mut D,
        sink: &mut K,
    ) -> Result<(), Status>
        requires speaker { IsSpeaker speaker }
        requires serves { IsServing (D.seen disk.old) self.old.store }
        requires room { HasRoomForReply self.old.waiting }
        ensures takes { Step (disk_verdict (ended result)) (D.seen disk.old) (D.seen disk.new)
            (TakesNone (owing self.old (flat_map (said_line speaker) (staged_replies staged.now)) (K.held sink.old))
            (between self.new (K.held sink.new)) result) }
        ensures continues { Continues IsShowStop (D.seen disk.old).tells (K.faults sink.old) (K.faults sink.new)
            (IsReadyToServe (D.seen disk.new) self.new) result }
    {
        let Some(frame) = staged.frame else {
            return self.say(speaker, &staged.reply, disk, sink);
        };
        let mut line = ArrayString::new();
        said_text(speaker, &staged.reply, &mut line);
        let mut behind = ArrayString::new();
        said_text(speaker, &Reply::Framed(frame), &mut behind);
        let mut text: ArrayString<LONGEST_REPLY> = ArrayString::new();
        text.push_str(line.as_str());
        text.push_str(behind.as_str());
        self.say_text(text.as_str().as_bytes(), disk, sink)
    }

    /// Refuses a line, which does nothing.
    pub fn say_refusal<D: Disk, K: Sink>(
        &mut self,
        speaker: Option<u8>,
        refusal: Refusal,
        disk: &mut D,
        sink: &mut K,
    ) -> Result<(), Status>
        requires speaker { IsSpeaker speaker }
        requires ready { IsReadyToServe (D.seen disk.old) self.old }
        requires room { HasRoomForReply self.old.waiting }
        ensures takes { Step (disk_verdict (ended result)) (D.seen disk.old) (D.seen disk.new)
            (TakesTurn (λ talk. turn_brought speaker talk (refused refusal)) (between self.old (K.held sink.old))
            (between self.new (K.held sink.new)) result) }
        ensures continues { Continues IsStop (D.seen disk.old).tells (K.faults sink.old) (K.faults sink.new)
            (IsReadyToServe (D.seen disk.new) self.new) result }
    {
        self.say(speaker, &Reply::Refused(refusal), disk, sink)
    }
}
