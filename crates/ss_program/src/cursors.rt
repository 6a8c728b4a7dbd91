// The cursor forms of a session: its cursor is opened, its rows are shown, and it is closed.
ghost use Rattle.std.specs.Prelude.{◌≡◌, ◌<◌, ◌≤◌, [], ◌∷◌, ℕ, List, drop, length, take, None, Some, IfErr, OnErr, OnOk};
ghost use Rattle.std.specs.List.{flat_map};
ghost use Rattle.ss_model.specs.declared.types.Placed.{Placed as PlacedWindow};
ghost use Rattle.ss_outside.specs.Step.{Step};
ghost use Rattle.ss_outside.specs.Verdict.{Counted, verdict};
ghost use Rattle.ss_report.specs.Text.{said_line};
ghost use Rattle.ss_sessions.specs.Cursors.{cursor_of, with_cursor};
ghost use Rattle.ss_base.specs.declared.limits.TheConstants.{MOST_SESSIONS};
ghost use Rattle.ss_program.specs.Answer.{IsServing, SendsRows};
ghost use Rattle.ss_program.specs.Cursor.{close_brings, next_brings, open_brings, placed_rows};
ghost use Rattle.ss_program.specs.Line.{only_replies, text_said};
ghost use Rattle.ss_program.specs.Opened.{OpensBrought};
ghost use Rattle.ss_program.specs.Sent.{Puts};
ghost use Rattle.ss_program.specs.Status.{disk_verdict, ended, IsApplyStop};

use crate::answer::send_reply;
use crate::status::Status;
use ss_catalog::{Name, Refusal};
use ss_outside::{Disk, Failed, Sink};
use ss_report::Reply;
use ss_sessions::{CursorError, OpenCursors};
use ss_store::Store;

/// Opens the cursor of a session over the windows of a stream, as the store shows them, and answers the reply to that. Where memory
/// runs out no call of the disk was made.
pub fn open_cursor<D: Disk>(
    sessions: &mut OpenCursors,
    session: u8,
    store: &mut Store,
    name: &Name,
    disk: &mut D,
) -> Result<Reply, Status>
    requires session { session < MOST_SESSIONS }
    requires serves { IsServing (D.seen disk.old) store.old }
    ensures opens { Step (disk_verdict (ended result)) (D.seen disk.old) (D.seen disk.new)
        (OpensBrought store.old.records (λ history. open_brings history sessions.old session name.now) sessions.new result) }
    ensures unopened { OnErr result (sessions.new ≡ sessions.old) }
    ensures serves { OnOk result (IsServing (D.seen disk.new) store.new) }
    ensures journal { OnOk result (store.new.records.journal ≡ store.old.records.journal) }
    ensures status { IfErr result (IsApplyStop (D.seen disk.old).tells) }
    ensures starved { IfErr result (λ status. status ≡ Status.OutOfMemory → (disk.new ≡ disk.old) × (store.new ≡ store.old)) }
{
    match sessions.open(session, store, disk, name) {
        Ok(count) => Ok(Reply::Cursor(count)),
        Err(CursorError::Refused(refusal)) => Ok(Reply::Refused(refusal.refusal())),
        Err(CursorError::OutOfMemory) => Err(Status::OutOfMemory),
        Err(CursorError::Disk) => Err(Status::DiskFault),
        Err(CursorError::Changed { .. }) => Err(Status::RecordChanged),
    }
}

// Says the next rows of the cursor of a session, which has so many left.
fn send_next<K: Sink>(
    sessions: &mut OpenCursors,
    session: u8,
    count: u32,
    sink: &mut K,
) -> Result<(), Failed>
    requires session { session < MOST_SESSIONS }
    requires left { (rows : List PlacedWindow) × (cursor_of sessions.old session ≡ Some rows) × (count ≤ length rows) }
    ensures sends { (rows : List PlacedWindow) → cursor_of sessions.old session ≡ Some rows →
        SendsRows (Some session) (K.held sink.old) (K.held sink.new) (placed_rows (take count rows)) result }
    ensures cursors { OnOk result ((rows : List PlacedWindow) → cursor_of sessions.old session ≡ Some rows →
        sessions.new ≡ with_cursor sessions.old session (Some (drop count rows))) }
    ensures counted { Counted (verdict result) (K.faults sink.old) (K.faults sink.new) }
{
    let mut shown = 0;
    while shown < count {
        let Some(row) = sessions.take(session) else {
            unreachable!()
        };
        send_reply(Some(session), &Reply::Window(row), sink)?;
        shown += 1;
    }
    Ok(())
}

/// Shows the next rows of the cursor of a session, at most so many, or says that there is no cursor.
pub fn show_next<K: Sink>(
    sessions: &mut OpenCursors,
    session: u8,
    count: u32,
    sink: &mut K,
) -> Result<(), Failed>
    requires { session < MOST_SESSIONS }
    ensures says { Puts (text_said (Some session) (next_brings sessions.old session count).brought)
        (K.held sink.old) (K.faults sink.old) (K.held sink.new) (K.faults sink.new) result }
    ensures cursors { OnOk result (sessions.new ≡ (next_brings sessions.old session count).cursors) }
{
    let Some(left) = sessions.left(session) else {
        return send_reply(Some(session), &Reply::Refused(Refusal::NoCursor), sink);
    };
    let count = count.min(left);
    send_reply(Some(session), &Reply::Rows(count), sink)?;
    send_next(sessions, session, count, sink)
}

/// Closes the cursor of a session, and answers the reply to that.
pub fn close_cursor(sessions: &mut OpenCursors, session: u8) -> Reply
    requires { session < MOST_SESSIONS }
    ensures reply { (close_brings sessions.old session).brought ≡ only_replies (result ∷ []) }
    ensures cursors { sessions.new ≡ (close_brings sessions.old session).cursors }
{
    if sessions.left(session).is_none() {
        return Reply::Refused(Refusal::NoCursor);
    }
    sessions.close(session);
    Reply::Closed
}
