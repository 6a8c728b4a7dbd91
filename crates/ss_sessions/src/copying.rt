// The windows of a stream are copied.
ghost use Rattle.std.specs.Prelude.{◌≡◌, ◌≢◌, false, length, IsSome, IfOk, IfSome, Err};
ghost use Rattle.std.specs.List.{Contains};
ghost use Rattle.ss_line.specs.Line.{StandsIn};
ghost use Rattle.ss_outside.specs.Disk.{OfContent};
ghost use Rattle.ss_outside.specs.Step.{Step};
ghost use Rattle.ss_outside.specs.Verdict.{IfChanged, IfUndone};
ghost use Rattle.ss_parts.specs.Held.{window_slots_of};
ghost use Rattle.ss_store.specs.Applied.{Looks};
ghost use Rattle.ss_store.specs.Kept.{StoreIsKept, part_numbered};
ghost use Rattle.ss_sessions.specs.Errors.{verdict_of_cursor};
ghost use Rattle.ss_sessions.specs.Opened.{CopiesRow, CopiesRows};
ghost use Rattle.ss_sessions.specs.declared.error.CursorRefusal.{CursorRefusal};

use crate::CursorError;
use crate::cursor::Cursor;
use ss_catalog::StreamId;
use ss_line::At;
use ss_model::Placed;
use ss_outside::Disk;
use ss_store::{AskError, Store};
use std::alloc::Global;
use std::collections::VecDeque;

// Reads a window.
fn copy_window<D: Disk>(
    store: &mut Store,
    disk: &mut D,
    id: StreamId,
    at: At,
) -> Result<Placed, CursorError>
    requires runs { store.old.stopped ≡ false }
    requires one_disk { OfContent (D.seen disk.old) (StoreIsKept store.old) }
    requires stands { IsSome (part_numbered id.0 store.old.streams) }
    requires at { IfSome (part_numbered id.0 store.old.streams) (λ part. StandsIn part.line.entries at) }
    ensures copies { Step (verdict_of_cursor result) (D.seen disk.old) (D.seen disk.new) (CopiesRow id.0 at store.old result) }
    ensures looks { Looks (verdict_of_cursor result) store.old store.new (D.seen disk.old) (D.seen disk.new) }
    ensures changed { IfChanged (verdict_of_cursor result) (λ slot. IfSome (part_numbered id.0 store.old.streams) (λ part.
        Contains (window_slots_of part) slot)) }
    ensures memory { result ≢ Err CursorError.OutOfMemory }
    ensures unrefused { (r : CursorRefusal) → result ≢ Err (CursorError.Refused r) }
{
    match store.window_read(disk, id, at) {
        Ok(window) => Ok(window),
        Err(AskError::Disk) => Err(CursorError::Disk),
        Err(AskError::Changed { slot }) => Err(CursorError::Changed { slot }),
        Err(AskError::Refused(_) | AskError::Stopped) => unreachable!(),
    }
}

/// Copies all windows of a stream, oldest first. It takes the memory for all of them before it reads one.
pub fn copy<D: Disk>(
    alloc: Global,
    store: &mut Store,
    disk: &mut D,
    id: StreamId,
) -> Result<Cursor, CursorError>
    requires runs { store.old.stopped ≡ false }
    requires one_disk { OfContent (D.seen disk.old) (StoreIsKept store.old) }
    requires stands { IsSome (part_numbered id.0 store.old.streams) }
    ensures copies { Step (verdict_of_cursor result) (D.seen disk.old) (D.seen disk.new) (CopiesRows id.0 store.old result) }
    ensures looks { Looks (verdict_of_cursor result) store.old store.new (D.seen disk.old) (D.seen disk.new) }
    ensures windows { IfOk result (λ rows. IfSome (part_numbered id.0 store.old.streams) (λ part. length rows ≡ length part.line.entries)) }
    ensures changed { IfChanged (verdict_of_cursor result) (λ slot. IfSome (part_numbered id.0 store.old.streams) (λ part.
        Contains (window_slots_of part) slot)) }
    ensures uncalled { IfUndone (verdict_of_cursor result) (disk.new ≡ disk.old) }
    ensures same { IfUndone (verdict_of_cursor result) (store.new ≡ store.old) }
    ensures unrefused { (r : CursorRefusal) → result ≢ Err (CursorError.Refused r) }
{
    let mut rows = VecDeque::with_capacity(alloc, store.windows(id) as usize)?;
    let mut next = store.window_first(id);
    while let Some(at) = next {
        rows.push_back_reserved(copy_window(store, disk, id, at)?);
        next = store.window_after(id, at);
    }
    Ok(Cursor::over(rows))
}
