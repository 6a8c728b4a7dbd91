// A store with its disk, and what it is asked. Each call of the store stands here once.
ghost use Rattle.std.specs.Prelude.{◌≡◌, false, IfSome, IsTrue};
ghost use Rattle.ss_catalog.specs.Events.{IsInTime};

use crate::silent::Silent;
use ss_base::LAST_TIME;
use ss_catalog::{Event, Family, Kind, Name, Params, Query};
use ss_model::Outcome;
use ss_outside::{Failed, MemDisk};
use ss_store::{ApplyError, AskError, OpenError, Store};
use std::alloc::{AllocError, Global};

/// What a stream is asked to take.
#[derive(Clone, Copy)]
pub enum Asked {
    Create(Params),
    Value(u64, i64),
    Open(u64),
    Close(u64),
    Drop,
}

use Asked::{Close, Create, Open, Value};

/// The numbers of values and windows, or why not.
pub type Answer = Result<(u64, u32), ApplyError>;

/// An event, of the stream whose name is a letter, and its answer.
pub type Row = (u8, Asked, Answer);

/// What is asked, of the stream whose name is a letter, from which to which time.
pub type Question = (u8, Kind, u64, u64);

pub const DOUBLING: Params = Params {
    family: Family::Exp { b: 2, r: 1, s: 1 },
    within: None,
};

pub const IN_TWOS: Params = Params {
    family: Family::Power {
        p: 1,
        q: 0,
        r: 1,
        s: 2,
    },
    within: None,
};

/// A store with its disk.
#[derive(Drop)]
pub struct Running {
    pub store: Store,
    pub disk: Silent,
}

pub fn empty(alloc: Global) -> Result<Silent, AllocError> {
    Ok(Silent::new(MemDisk::new(alloc, Vec::new(alloc))?))
}

/// The store that a disk holds.
pub fn store_on(alloc: Global, disk: &mut Silent) -> Result<Store, OpenError> {
    Store::open(alloc, disk)
}

/// The store that a disk holds, with the disk.
pub fn opened(alloc: Global, mut disk: Silent) -> Result<Running, OpenError> {
    let store = store_on(alloc, &mut disk)?;
    Ok(Running { store, disk })
}

/// A store on an empty disk.
pub fn fresh(alloc: Global) -> Result<Running, OpenError> {
    opened(alloc, empty(alloc)?)
}

/// Opens the store that the disk holds now.
pub fn reopen(alloc: Global, running: &mut Running) -> Result<(), OpenError> {
    running.store = store_on(alloc, &mut running.disk)?;
    Ok(())
}

/// Whether the store hasn't stopped. No stream has this name, so that the disk isn't called.
pub fn runs(running: &mut Running) -> bool
    ensures { IsTrue result → running.new.store.stopped ≡ false }
{
    let Some(name) = Name::of(b"none") else {
        return false;
    };
    match running.store.newest(&mut running.disk, &name) {
        Err(AskError::Refused(_)) => true,
        _ => false,
    }
}

/// The event of the stream whose name is a letter, if it is one.
pub fn event_of(letter: u8, asked: Asked) -> Option<Event>
    ensures { IfSome result IsInTime }
{
    let name = Name::of(&[letter])?;
    match asked {
        Create(params) => Some(Event::Create { name, params }),
        Value(t, v) if t <= LAST_TIME => Some(Event::Value { name, t, v }),
        Open(t) if t <= LAST_TIME => Some(Event::Open { name, t }),
        Close(t) if t <= LAST_TIME => Some(Event::Close { name, t }),
        Asked::Drop => Some(Event::Drop { name }),
        _ => None,
    }
}

/// What an event is answered that is staged and sealed.
pub fn applied(running: &mut Running, event: &Event) -> Answer
    requires { IsInTime event.now }
{
    let ack = running.store.stage(&mut running.disk, event)?;
    match running.store.seal(&mut running.disk) {
        Ok(()) => Ok((ack.n, ack.k)),
        Err(Failed) => Err(ApplyError::Disk),
    }
}

/// What an event is answered. `None` is for what is no event, and for a call of the disk where the event is refused or the store
/// has stopped.
pub fn answered(running: &mut Running, letter: u8, asked: Asked) -> Option<Answer> {
    let event = event_of(letter, asked)?;
    let before = running.disk.calls();
    let answer = applied(running, &event);
    match answer {
        Err(ApplyError::Refused(_) | ApplyError::Stopped) if running.disk.calls() != before => None,
        _ => Some(answer),
    }
}

/// How many rows are answered so, up to the first that isn't.
pub fn play(running: &mut Running, rows: &[Row]) -> usize {
    for (row, (letter, asked, answer)) in rows.iter().enumerate() {
        if answered(running, *letter, *asked) != Some(*answer) {
            return row;
        }
    }
    rows.len()
}

/// Whether another stream, `z`, takes so many values in a landmark that the first pages of slots aren't among those that are
/// cached once the store is opened again.
pub fn crowd(running: &mut Running) -> bool {
    let begun = play(
        running,
        &[
            (b'z', Create(DOUBLING), Ok((0, 0))),
            (b'z', Open(1), Ok((0, 0))),
        ],
    );
    begun == 2 && fill(running, b'z', 1, 2081)
}

/// Whether the open landmark of a stream without windows takes a value at each time from the first one to before the end.
pub fn fill(running: &mut Running, letter: u8, first: u64, end: u64) -> bool {
    for t in first..end {
        if answered(running, letter, Value(t, 0)) != Some(Ok((0, 0))) {
            return false;
        }
    }
    true
}

/// What a query is answered. `None` is for what is no query, and for a call of the disk where it is refused or the store has
/// stopped.
pub fn told(running: &mut Running, question: Question) -> Option<Result<Outcome, AskError>> {
    let (letter, kind, from, to) = question;
    let name = Name::of(&[letter])?;
    let query = Query {
        name,
        kind,
        from,
        to,
    };
    let before = running.disk.calls();
    let answer = running.store.ask(&mut running.disk, &query);
    match answer {
        Err(AskError::Refused(_) | AskError::Stopped) if running.disk.calls() != before => None,
        _ => Some(answer),
    }
}

/// The first and the last position of the oldest window of `a`, or of the one after it. `None` is for no such window, and for a
/// call of the disk where the store has stopped.
pub fn window_read(running: &mut Running, is_second: bool) -> Option<Result<(u64, u64), AskError>> {
    let name = Name::of(b"a")?;
    let id = running.store.find(&name)?;
    let first = running.store.window_first(id)?;
    let at = if is_second {
        running.store.window_after(id, first)?
    } else {
        first
    };
    let before = running.disk.calls();
    match running.store.window_read(&mut running.disk, id, at) {
        Ok(placed) => Some(Ok((placed.first, placed.last))),
        Err(AskError::Stopped) if running.disk.calls() != before => None,
        Err(error) => Some(Err(error)),
    }
}

/// What is said of a stream: the first letter of its name, its numbers of values and windows, and its numbers of landmarks and
/// of their values.
pub type Said = (u8, u64, u32, u32, u32);

/// What is said of the one stream. There is none before its creation.
pub fn only(store: &Store) -> Option<Said> {
    if store.streams() != 1 {
        return None;
    }
    let row = store.stream(0);
    let letter = *row.name.as_bytes().first()?;
    Some((letter, row.n, row.k, row.landmarks, row.values))
}
