// Steps of a run, each with what must come of it.
use crate::changed::{Taken, take};
use crate::running::{
    Answer, Asked, Question, Row, Running, Said, answered, crowd, fresh, only, play, reopen, told,
    window_read,
};
use crate::silent::Silent;
use ss_base::LAST_TIME;
use ss_catalog::Kind;
use ss_model::Outcome::{self, Count};
use ss_outside::Choice;
use ss_store::{AskError, OpenError};
use std::alloc::Global;

/// A step of a run over one store, with what must come of it.
#[derive(Clone, Copy)]
pub enum Step {
    /// From here on it is another store, which has taken these and was opened again, so that it reads each record in its slot,
    /// of which none is cached.
    Settled(Taken),
    /// An event of the stream whose name is a letter is answered so.
    Apply(u8, Asked, Answer),
    /// These events are answered so.
    Play(&'static [Row]),
    /// These queries are answered so.
    Tell(&'static [(Question, Outcome)]),
    /// These queries are answered so, each by at most so many calls of the disk.
    Within(&'static [(Question, Outcome, u64)]),
    /// These queries are not answered, and why.
    Untold(&'static [(Question, AskError)]),
    /// `a` has so many values, or why they are not counted.
    Counts(Result<u64, AskError>),
    /// The first window of `a`, or the second, has this first and last position, or why it is not read.
    Reads(bool, Result<(u64, u64), AskError>),
    /// The only stream is listed so.
    Lists(Said),
    /// The store is opened again.
    Reopen,
    /// After so many calls of the disk more each one fails.
    Stop(u64),
    /// The store is opened on what a crash leaves.
    Crash(Choice),
    /// A slot is made free.
    Clear(u8),
    /// The last time of the window in a slot is changed.
    EndAt(u8, u64),
    /// Both times of the window in a slot are changed.
    MoveTo(u8, u64),
}

use Step::{
    Apply, Clear, Counts, Crash, EndAt, Lists, MoveTo, Play, Reads, Reopen, Settled, Stop, Tell,
    Untold, Within,
};

fn are_told(running: &mut Running, rows: &[(Question, Outcome)]) -> bool {
    for (question, outcome) in rows {
        if told(running, *question) != Some(Ok(*outcome)) {
            return false;
        }
    }
    true
}

fn are_told_within(running: &mut Running, rows: &[(Question, Outcome, u64)]) -> bool {
    for (question, outcome, most) in rows {
        let (before, _) = running.disk.calls();
        if told(running, *question) != Some(Ok(*outcome)) {
            return false;
        }
        let (after, _) = running.disk.calls();
        if after.saturating_sub(before) > *most {
            return false;
        }
    }
    true
}

fn are_untold(running: &mut Running, rows: &[(Question, AskError)]) -> bool {
    for (question, error) in rows {
        if told(running, *question) != Some(Err(*error)) {
            return false;
        }
    }
    true
}

fn is_counted(running: &mut Running, want: Result<u64, AskError>) -> bool {
    let outcome = match want {
        Ok(n) => Ok(Count { lo: n, hi: n }),
        Err(error) => Err(error),
    };
    told(running, (b'a', Kind::Count, 0, LAST_TIME)) == Some(outcome)
}

// Overwrites bytes of a slot.
fn spoil(disk: &mut Silent, slot: u8, field: u8, bytes: &[u8]) -> bool {
    let at = 36864 + 128 * u32::from(slot) + u32::from(field);
    disk.spoil(at, bytes)
}

fn clear(disk: &mut Silent, slot: u8) -> bool {
    spoil(disk, slot, 0, &[0; 128])
}

fn end_at(disk: &mut Silent, slot: u8, t: u64) -> bool {
    spoil(disk, slot, 64, &t.to_be_bytes())
}

fn move_to(disk: &mut Silent, slot: u8, t: u64) -> bool {
    spoil(disk, slot, 56, &t.to_be_bytes()) && end_at(disk, slot, t)
}

fn renew(alloc: Global, running: &mut Running) -> Result<bool, OpenError> {
    *running = fresh(alloc)?;
    Ok(true)
}

fn settle(alloc: Global, running: &mut Running, taken: Taken) -> Result<bool, OpenError> {
    renew(alloc, running)?;
    Ok(take(running, taken) && crowd(running) && reopen(alloc, running).is_ok())
}

fn crash(alloc: Global, running: &mut Running, choice: Choice) -> Result<bool, OpenError> {
    running.disk = running.disk.crash(choice)?;
    Ok(reopen(alloc, running).is_ok())
}

fn stop(disk: &mut Silent, calls: u64) -> bool {
    disk.stop_after(calls);
    true
}

/// Whether this comes of a step.
pub fn comes(alloc: Global, running: &mut Running, step: Step) -> Result<bool, OpenError> {
    match step {
        Settled(taken) => settle(alloc, running, taken),
        Apply(letter, asked, answer) => Ok(answered(running, letter, asked) == Some(answer)),
        Play(rows) => Ok(play(running, rows) == rows.len()),
        Tell(rows) => Ok(are_told(running, rows)),
        Within(rows) => Ok(are_told_within(running, rows)),
        Untold(rows) => Ok(are_untold(running, rows)),
        Counts(want) => Ok(is_counted(running, want)),
        Reads(is_second, want) => Ok(window_read(running, is_second) == Some(want)),
        Lists(said) => Ok(only(&running.store) == Some(said)),
        Reopen => Ok(reopen(alloc, running).is_ok()),
        Stop(calls) => Ok(stop(&mut running.disk, calls)),
        Crash(choice) => crash(alloc, running, choice),
        Clear(slot) => Ok(clear(&mut running.disk, slot)),
        EndAt(slot, t) => Ok(end_at(&mut running.disk, slot, t)),
        MoveTo(slot, t) => Ok(move_to(&mut running.disk, slot, t)),
    }
}

// The first step of which something else comes.
fn first_other(
    alloc: Global,
    running: &mut Running,
    steps: &[Step],
) -> Result<Option<usize>, OpenError> {
    for (at, step) in steps.iter().enumerate() {
        if !comes(alloc, running, *step)? {
            return Ok(Some(at));
        }
    }
    Ok(None)
}

/// The same, from an empty disk on.
pub fn first_wrong(alloc: Global, steps: &[Step]) -> Result<Option<usize>, OpenError> {
    let mut running = fresh(alloc)?;
    first_other(alloc, &mut running, steps)
}
