// The cursors of the sessions.
use crate::copying::copy;
use crate::cursor::Cursor;
use crate::{CursorError, CursorRefusal};
use ss_catalog::Name;
use ss_model::Placed;
use ss_outside::Disk;
use ss_store::Store;
use std::alloc::Global;
use std::marker::Model;

/// The cursors of eight sessions. A cursor gives the windows of a stream as they were when it was opened, oldest first and each
/// once, whatever is appended, merged or dropped meanwhile. It is seen as the rows that each session's cursor has left.
#[derive(Drop)]
pub struct OpenCursors {
    alloc: Global,
    cursors: [Option<Cursor>; 8],
}

impl Model for OpenCursors {
    ghost use Rattle.std.specs.Prelude.{◌≡◌, length};
    ghost use Rattle.ss_sessions.specs.Cursors.{Cursors};
    ghost use Rattle.ss_base.specs.declared.limits.TheConstants.{MOST_SESSIONS};

    ghost Value = { Cursors };

    ghost view = { λ s. s.cursors };

    ghost invariant = { λ s. length s.cursors ≡ MOST_SESSIONS };
}

impl OpenCursors {
    ghost use Rattle.std.specs.Prelude.{◌≡◌, ◌<◌, ◌↔◌, false, length, drop, is_some, slice_get, option_map, Some, None, IsSome, IfOk, IfSome, OnErr, Err};
    ghost use Rattle.std.specs.List.{Contains};
    ghost use Rattle.ss_outside.specs.Disk.{OfContent};
    ghost use Rattle.ss_outside.specs.Step.{Step};
    ghost use Rattle.ss_outside.specs.Verdict.{IfChanged, IfUndone};
    ghost use Rattle.ss_store.specs.Applied.{Looks};
    ghost use Rattle.ss_store.specs.Kept.{StoreIsKept, part_named};
    ghost use Rattle.ss_sessions.specs.Cursors.{cursor_of, no_cursors, with_cursor};
    ghost use Rattle.ss_sessions.specs.Errors.{refusal_of, verdict_of_cursor};
    ghost use Rattle.ss_sessions.specs.Opened.{HasOpened, OpensCursor, refuses_cursor_held};
    ghost use Rattle.ss_base.specs.declared.limits.TheConstants.{MOST_SESSIONS};
    ghost use Rattle.ss_parts.specs.Held.{window_slots_of};
    ghost use Rattle.ss_sessions.specs.declared.error.CursorRefusal.{CursorRefusal};

    /// None, of no session. It takes no memory.
    pub fn new(alloc: Global) -> OpenCursors
        ensures { result ≡ no_cursors }
    {
        OpenCursors {
            alloc,
            cursors: [None, None, None, None, None, None, None, None],
        }
    }

    /// Opens the cursor of a session over the windows of a stream as the store has them now, and answers how many there are.
    /// It copies them, and takes the memory for that before it reads one. A refusal is the first that applies, and makes no call
    /// of the disk.
    pub fn open<D: Disk>(
        &mut self,
        session: u8,
        store: &mut Store,
        disk: &mut D,
        name: &Name,
    ) -> Result<u32, CursorError>
        requires session { session < MOST_SESSIONS }
        requires runs { store.old.stopped ≡ false }
        requires one_disk { OfContent (D.seen disk.old) (StoreIsKept store.old) }
        // The windows of the stream in the state that is shown, with what is staged.
        ensures opens { Step (verdict_of_cursor result) (D.seen disk.old) (D.seen disk.new)
            (OpensCursor store.old.records session name.now self.old self.new result) }
        ensures looks { Looks (verdict_of_cursor result) store.old store.new (D.seen disk.old) (D.seen disk.new) }
        // Over every disk only the cursor of the session has changed, and has as many rows as windows are held.
        ensures opened { IfOk result (HasOpened session self.old self.new) }
        ensures windows { IfOk result (λ count. IfSome (part_named name.now store.old.streams) (λ part. count ≡ length part.line.entries)) }
        ensures unopened { OnErr result (self.new ≡ self.old) }
        // Each refusal comes exactly where it applies.
        ensures refused { (r : CursorRefusal) → (result ≡ Err (CursorError.Refused r)) ↔
            (refuses_cursor_held store.old.streams name.now (cursor_of self.old session) ≡ Some (refusal_of r)) }
        // A slot that has changed is that of a window of the stream.
        ensures changed { IfChanged (verdict_of_cursor result) (λ slot. IfSome (part_named name.now store.old.streams) (λ part.
            Contains (window_slots_of part) slot)) }
        ensures uncalled { IfUndone (verdict_of_cursor result) (disk.new ≡ disk.old) }
        ensures same { IfUndone (verdict_of_cursor result) (store.new ≡ store.old) }
    {
        let Some(id) = store.find(name) else {
            return Err(CursorError::Refused(CursorRefusal::Unknown));
        };
        if self.cursors[session as usize].is_some() {
            return Err(CursorError::Refused(CursorRefusal::Busy));
        }
        let cursor = copy(self.alloc, store, disk, id)?;
        let count = cursor.left();
        self.cursors[session as usize] = Some(cursor);
        Ok(count)
    }

    /// How many rows the cursor of a session has left. `None` is no cursor.
    pub fn left(&self, session: u8) -> Option<u32>
        requires { session < MOST_SESSIONS }
        ensures { result ≡ option_map length (cursor_of self.now session) }
    {
        match &self.cursors[session as usize] {
            None => None,
            Some(cursor) => Some(cursor.left()),
        }
    }

    /// The next row of the cursor of a session, which is given once. `None` is no further row. It takes the same few steps,
    /// however many rows there are.
    pub fn take(&mut self, session: u8) -> Option<Placed>
        requires session { session < MOST_SESSIONS }
        requires cursor { IsSome (cursor_of self.old session) }
        ensures next { IfSome (cursor_of self.old session) (λ rows. result ≡ slice_get rows 0) }
        ensures rest { self.new ≡ with_cursor self.old session (option_map (drop 1) (cursor_of self.old session)) }
    {
        match &mut self.cursors[session as usize] {
            None => None,
            Some(cursor) => cursor.take(),
        }
    }

    /// Ends the cursor of a session, and answers whether there was one.
    pub fn close(&mut self, session: u8) -> bool
        requires { session < MOST_SESSIONS }
        ensures answer { result ≡ is_some (cursor_of self.old session) }
        ensures closed { self.new ≡ with_cursor self.old session None }
    {
        let open = self.cursors[session as usize].is_some();
        self.cursors[session as usize] = None;
        open
    }
}
