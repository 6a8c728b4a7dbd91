// The cursors of sessions.
use crate::applying::READINGS;
use crate::changed::Taken::Spread;
use crate::passing::pass;
use crate::running::Asked::{self, Create, Value};
use crate::running::{DOUBLING, Running, fresh, reopen, runs};
use crate::steps::Step::{self, Apply, Clear, Play, Reopen, Settled, Stop};
use crate::steps::comes;
use ss_base::MOST_SESSIONS;
use ss_catalog::{Name, Refusal};
use ss_model::Placed;
use ss_sessions::{CursorError, CursorRefusal, OpenCursors};
use ss_store::OpenError;
use std::alloc::Global;
use std::test::Fail;

// The first and the last position of a row, and its sum.
type Given = (u64, u64, i128);

// A step of sessions over one store, with what must come of it.
#[derive(Clone, Copy)]
enum Turn {
    /// A step of the store.
    Does(Step),
    /// The cursor of a session over the stream whose name is a letter is opened, with so many rows, or why not.
    Opens(u8, u8, Result<u32, CursorError>),
    /// The cursor of a session has so many rows left. `None` is no cursor.
    Left(u8, Option<u32>),
    /// This is the next row of the cursor of a session, or there is none.
    Takes(u8, Option<Given>),
    /// The cursor of a session is ended, where there is one.
    Closes(u8, bool),
    /// The opening of a session's cursor over `a` fails, where the disk fails after fewer calls than these.
    Fails(u8, u64),
}

use Turn::{Closes, Does, Fails, Left, Opens, Takes};

// Opens a cursor. `None` is for what is no session or name, for a store that has stopped, and for a call of the disk where the cursor
// is refused.
fn opened(
    sessions: &mut OpenCursors,
    running: &mut Running,
    session: u8,
    letter: u8,
) -> Option<Result<u32, CursorError>> {
    let name = Name::of(&[letter])?;
    if session >= MOST_SESSIONS || !runs(running) {
        return None;
    }
    let before = running.disk.calls();
    let answer = sessions.open(session, &mut running.store, &mut running.disk, &name);
    match answer {
        Err(CursorError::Refused(_)) if running.disk.calls() != before => None,
        _ => Some(answer),
    }
}

fn has_left(sessions: &OpenCursors, session: u8, want: Option<u32>) -> bool {
    session < MOST_SESSIONS && sessions.left(session) == want
}

fn is_given(row: Option<Placed>, want: Option<Given>) -> bool {
    match (row, want) {
        (None, None) => true,
        (Some(row), Some((first, last, sum))) => {
            row.first == first && row.last == last && row.summary.sum == sum
        }
        _ => false,
    }
}

fn is_taken(sessions: &mut OpenCursors, session: u8, want: Option<Given>) -> bool {
    if session >= MOST_SESSIONS || sessions.left(session).is_none() {
        return false;
    }
    is_given(sessions.take(session), want)
}

fn is_closed(sessions: &mut OpenCursors, session: u8, want: bool) -> bool {
    session < MOST_SESSIONS && sessions.close(session) == want
}

// Whether the opening of a cursor fails where the disk fails after so many calls, and gives the session none.
fn fails_after(
    alloc: Global,
    sessions: &mut OpenCursors,
    running: &mut Running,
    session: u8,
    calls: u64,
) -> Result<bool, OpenError> {
    running.disk.stop_after(calls);
    let failed = opened(sessions, running, session, b'a') == Some(Err(CursorError::Disk));
    running.disk.stop_after(u64::MAX);
    reopen(alloc, running)?;
    Ok(failed && has_left(sessions, session, None))
}

// The same after each number of calls below this one.
fn fails_below(
    alloc: Global,
    sessions: &mut OpenCursors,
    running: &mut Running,
    session: u8,
    calls: u64,
) -> Result<bool, OpenError> {
    for call in 0..calls {
        if !fails_after(alloc, sessions, running, session, call)? {
            return Ok(false);
        }
    }
    Ok(true)
}

// Whether this comes of a turn.
fn is_so(
    alloc: Global,
    sessions: &mut OpenCursors,
    running: &mut Running,
    turn: Turn,
) -> Result<bool, OpenError> {
    match turn {
        Does(step) => comes(alloc, running, step),
        Opens(session, letter, want) => {
            Ok(opened(sessions, running, session, letter) == Some(want))
        }
        Left(session, want) => Ok(has_left(sessions, session, want)),
        Takes(session, want) => Ok(is_taken(sessions, session, want)),
        Closes(session, want) => Ok(is_closed(sessions, session, want)),
        Fails(session, calls) => fails_below(alloc, sessions, running, session, calls),
    }
}

// The first turn of which something else comes.
fn first_other(
    alloc: Global,
    sessions: &mut OpenCursors,
    running: &mut Running,
    turns: &[Turn],
) -> Result<Option<usize>, OpenError> {
    for (at, turn) in turns.iter().enumerate() {
        if !is_so(alloc, sessions, running, *turn)? {
            return Ok(Some(at));
        }
    }
    Ok(None)
}

// The same, from an empty disk and sessions without cursors on.
fn first_wrong(alloc: Global, turns: &[Turn]) -> Result<Option<usize>, OpenError> {
    let mut sessions = OpenCursors::new(alloc);
    let mut running = fresh(alloc)?;
    first_other(alloc, &mut sessions, &mut running, turns)
}

const UNKNOWN: Result<u32, CursorError> = Err(CursorError::Refused(CursorRefusal::Unknown));

const BUSY: Result<u32, CursorError> = Err(CursorError::Refused(CursorRefusal::Busy));

// A stream takes values, of which the second joins windows that cursors have, and is dropped, while two sessions have cursors.
const KEPT: [Turn; 38] = [
    Left(1, None),
    Closes(1, false),
    Opens(1, b'a', UNKNOWN),
    Does(Play(&READINGS)),
    Opens(1, b'a', Ok(3)),
    Left(1, Some(3)),
    Left(0, None),
    Opens(1, b'a', BUSY),
    Opens(1, b'x', UNKNOWN),
    Left(1, Some(3)),
    Does(Apply(b'a', Value(80, 1), Ok((8, 4)))),
    Opens(7, b'a', Ok(4)),
    Does(Apply(b'a', Value(90, 6), Ok((9, 4)))),
    Takes(1, Some((1, 4, 11))),
    Takes(1, Some((5, 6, 11))),
    Left(1, Some(1)),
    Left(7, Some(4)),
    Does(Apply(b'a', Asked::Drop, Ok((0, 0)))),
    Opens(2, b'a', UNKNOWN),
    Opens(1, b'a', UNKNOWN),
    Takes(7, Some((1, 4, 11))),
    Takes(1, Some((7, 7, 7))),
    Takes(1, None),
    Takes(1, None),
    Left(1, Some(0)),
    Closes(1, true),
    Left(1, None),
    Closes(1, false),
    Takes(7, Some((5, 6, 11))),
    Takes(7, Some((7, 7, 7))),
    Takes(7, Some((8, 8, 1))),
    Takes(7, None),
    // the name comes again, with another stream, which has no window
    Does(Apply(b'a', Create(DOUBLING), Ok((0, 0)))),
    Opens(7, b'a', BUSY),
    Opens(1, b'a', Ok(0)),
    Takes(1, None),
    Opens(1, b'a', BUSY),
    Closes(7, true),
];

#[test]
fn cursors_keep_their_rows(rt: HostRuntime) -> Result<(), Fail> {
    pass(first_wrong(rt.alloc(), &KEPT)?)
}

// Each of eight windows lies in a page of its own, and so is read by a call. A cursor that isn't opened, since a read fails or a slot
// has changed, leaves none, and the other cursor as it was.
const FAILING: [Turn; 16] = [
    Does(Settled(Spread)),
    Opens(0, b'a', Ok(8)),
    Takes(0, Some((1, 2, 2))),
    Does(Reopen),
    Fails(1, 8),
    Left(0, Some(7)),
    Does(Stop(8)),
    Opens(1, b'a', Ok(8)),
    Closes(1, true),
    Does(Stop(u64::MAX)),
    Does(Reopen),
    Does(Clear(3)),
    Opens(1, b'a', Err(CursorError::Changed { slot: 3 })),
    Left(1, None),
    Left(0, Some(7)),
    Takes(0, Some((3, 4, 2))),
];

#[test]
fn cursors_fail_to_open(rt: HostRuntime) -> Result<(), Fail> {
    pass(first_wrong(rt.alloc(), &FAILING)?)
}
