// Replicas: frames that are lost, come again or come in another order.

use crate::applying::READINGS;
use crate::passing::pass;
use crate::running::Asked::{self, Close, Create, Open, Value};
use crate::running::{DOUBLING, IN_TWOS, Row, Running, applied, event_of, fresh, play, runs};
use crate::steps::Step::{self, Apply, Crash, Lists, Reads, Reopen};
use crate::steps::comes;
use ss_catalog::{Name, Refusal};
use ss_model::Ack;
use ss_outside::Choice;
use ss_replica::{Due, Frame, due};
use ss_store::{ApplyError, OpenError};
use std::alloc::Global;
use std::test::Fail;

// What is said to a frame that isn't refused.
#[derive(Clone, Copy, Debug, PartialEq, Eq)]
enum Offered {
    /// Its event was the next of its stream, and was added.
    Done(Ack),
    /// The stream has its event already.
    Old,
    /// Events are missing before it: the stream has so many.
    Gap(u64),
}

use Offered::{Done, Gap, Old};

// A step of a replica, with what must come of it.
#[derive(Clone, Copy)]
enum Turn {
    /// A step of the store.
    Does(Step),
    /// The frame of an event, of the stream whose name is a letter, with its number, is answered so.
    Offers(u64, u8, Asked, Result<Offered, ApplyError>),
    /// The event of such a frame is added, and its stream has so many values and windows then.
    Adds(u64, u8, Asked, u64, u32),
    /// The stream whose name is a letter has taken so many events.
    Has(u8, u64),
}

use Turn::{Adds, Does, Has, Offers};

// What an event is answered that is the next of its stream.
fn added(running: &mut Running, frame: &Frame) -> Result<Offered, ApplyError> {
    let (n, k) = applied(running, &frame.event)?;
    Ok(Done(Ack { n, k }))
}

// What a frame is answered. `None` is for a store that doesn't run, and for a call of the disk where nothing is to change.
fn answer_to(running: &mut Running, frame: &Frame) -> Option<Result<Offered, ApplyError>> {
    if !runs(running) {
        return None;
    }
    let before = running.disk.calls();
    let answer = match due(&running.store, frame) {
        Due::Old => Ok(Old),
        Due::Gap(events) => Ok(Gap(events)),
        Due::Next => added(running, frame),
    };
    match answer {
        Ok(Old | Gap(_)) | Err(ApplyError::Refused(_)) if running.disk.calls() != before => None,
        _ => Some(answer),
    }
}

// The frame of an event with its number, if it is a valid one.
fn frame_of(number: u64, letter: u8, asked: Asked) -> Option<Frame> {
    Frame::of(number, event_of(letter, asked)?)
}

fn is_answered(
    running: &mut Running,
    frame: Option<Frame>,
    want: Result<Offered, ApplyError>,
) -> bool {
    match frame {
        None => false,
        Some(frame) => answer_to(running, &frame) == Some(want),
    }
}

// How many events the stream whose name is a letter has taken.
fn taken(running: &Running, letter: u8) -> Option<u64> {
    let id = running.store.find(&Name::of(&[letter])?)?;
    Some(running.store.events(id))
}

// Whether this comes of a turn.
fn is_so(alloc: Global, running: &mut Running, turn: Turn) -> Result<bool, OpenError> {
    match turn {
        Does(step) => comes(alloc, running, step),
        Offers(number, letter, asked, want) => {
            let frame = frame_of(number, letter, asked);
            Ok(is_answered(running, frame, want))
        }
        Adds(number, letter, asked, n, k) => {
            let frame = frame_of(number, letter, asked);
            Ok(is_answered(running, frame, Ok(Done(Ack { n, k }))))
        }
        Has(letter, events) => Ok(taken(running, letter) == Some(events)),
    }
}

// The first turn of which something else comes, from an empty disk on.
fn first_wrong(alloc: Global, turns: &[Turn]) -> Result<Option<usize>, OpenError> {
    let mut running = fresh(alloc)?;
    for (at, turn) in turns.iter().enumerate() {
        if !is_so(alloc, &mut running, *turn)? {
            return Ok(Some(at));
        }
    }
    Ok(None)
}

// Frames that come too early or again. Numbers outlive a reopening, also those of landmarks, and a drop ends them.
const MIXED: [Turn; 33] = [
    Offers(3, b'a', Value(20, -3), Ok(Gap(0))),
    Adds(1, b'a', Create(DOUBLING), 0, 0),
    Offers(1, b'a', Create(DOUBLING), Ok(Old)),
    Adds(2, b'a', Value(10, 5), 1, 1),
    Adds(3, b'a', Value(20, -3), 2, 2),
    Has(b'a', 3),
    Does(Reopen),
    Has(b'a', 3),
    Offers(3, b'a', Value(20, -3), Ok(Old)),
    Offers(2, b'a', Value(30, 8), Ok(Old)),
    Offers(1, b'a', Create(IN_TWOS), Ok(Old)),
    Offers(5, b'a', Value(40, 1), Ok(Gap(3))),
    Offers(
        4,
        b'a',
        Value(20, 1),
        Err(ApplyError::Refused(Refusal::Time)),
    ),
    Adds(4, b'a', Value(30, 8), 3, 2),
    Adds(5, b'a', Open(40), 3, 2),
    Adds(6, b'a', Value(40, 1), 3, 2),
    Has(b'a', 6),
    Does(Reopen),
    Has(b'a', 6),
    Offers(6, b'a', Value(40, 1), Ok(Old)),
    Offers(8, b'a', Value(42, 2), Ok(Gap(6))),
    Adds(7, b'a', Close(41), 3, 2),
    Adds(8, b'a', Value(42, 2), 4, 3),
    Has(b'a', 8),
    // each stream has numbers of its own
    Offers(2, b'b', Value(1, 1), Ok(Gap(0))),
    Adds(1, b'b', Create(IN_TWOS), 0, 0),
    Adds(2, b'b', Value(1, 1), 1, 1),
    Has(b'a', 8),
    Has(b'b', 2),
    Does(Apply(b'a', Asked::Drop, Ok((0, 0)))),
    Offers(9, b'a', Value(50, 1), Ok(Gap(0))),
    Adds(1, b'a', Create(DOUBLING), 0, 0),
    Has(b'a', 1),
];

#[test]
fn each_frame_is_next_or_old_or_behind_a_gap(rt: HostRuntime) -> Result<(), Fail> {
    pass(first_wrong(rt.alloc(), &MIXED)?)
}

// The frame of the event at a place.
fn frame_at(rows: &[Row], place: usize) -> Option<Frame> {
    let (letter, asked, _) = rows.get(place)?;
    frame_of((place as u64).saturating_add(1), *letter, *asked)
}

// Whether the frame of the event at a place is offered, and is taken, old or behind a gap.
fn is_heard(running: &mut Running, rows: &[Row], place: usize) -> bool {
    match frame_at(rows, place) {
        None => false,
        Some(frame) => matches!(answer_to(running, &frame), Some(Ok(_))),
    }
}

// How many frames are heard, in order, up to the first that isn't.
fn heard(running: &mut Running, rows: &[Row]) -> usize {
    for place in 0..rows.len() {
        if !is_heard(running, rows, place) {
            return place;
        }
    }
    rows.len()
}

// Whether all are heard from the last to the first.
fn are_heard_in_reverse(running: &mut Running, rows: &[Row]) -> bool {
    for behind in 0..rows.len() {
        if !is_heard(running, rows, rows.len() - 1 - behind) {
            return false;
        }
    }
    true
}

// What the readings leave.
const LEFT: [Turn; 4] = [
    Has(b'a', 8),
    Does(Lists((b'a', 7, 3, 0, 0))),
    Does(Reads(false, Ok((1, 4)))),
    Does(Reads(true, Ok((5, 6)))),
];

fn has_all(alloc: Global, running: &mut Running) -> Result<bool, OpenError> {
    for turn in LEFT {
        if !is_so(alloc, running, turn)? {
            return Ok(false);
        }
    }
    Ok(true)
}

// Whether a replica that hears the readings in reverse so many times has one more of them each time, and at last the primary's file.
fn comes_to_all(alloc: Global) -> Result<bool, OpenError> {
    let mut primary = fresh(alloc)?;
    let mut replica = fresh(alloc)?;
    if play(&mut primary, &READINGS) != READINGS.len() {
        return Ok(false);
    }
    for events in 1..=READINGS.len() {
        if !are_heard_in_reverse(&mut replica, &READINGS)
            || taken(&replica, b'a') != Some(events as u64)
        {
            return Ok(false);
        }
    }
    Ok(has_all(alloc, &mut replica)? && replica.disk.is_like(&primary.disk))
}

#[test]
fn frames_in_reverse_come_to_the_same(rt: HostRuntime) -> Result<(), Fail> {
    let is_same = comes_to_all(rt.alloc())?;
    pass(if is_same { None } else { Some(0) })
}

// Whether a replica whose disk stops after so many calls has all once it hears the readings again, from what a crash leaves on.
fn goes_on(alloc: Global, calls: u64, choice: Choice) -> Result<bool, OpenError> {
    let mut replica = fresh(alloc)?;
    replica.disk.stop_after(calls);
    let before = heard(&mut replica, &READINGS);
    if !comes(alloc, &mut replica, Crash(choice))? {
        return Ok(false);
    }
    let kept = taken(&replica, b'a').unwrap_or(0);
    let is_kept = before as u64 <= kept && kept <= (before as u64).saturating_add(1);
    Ok(is_kept && heard(&mut replica, &READINGS) == READINGS.len() && has_all(alloc, &mut replica)?)
}

// The first stop, of so many, after which the replica doesn't go on.
fn first_lost(alloc: Global, stops: usize) -> Result<Option<usize>, OpenError> {
    for stop in 0..stops {
        for choice in [Choice::Lost, Choice::Kept, Choice::Fill(0xA5)] {
            if !goes_on(alloc, stop as u64, choice)? {
                return Ok(Some(stop));
            }
        }
    }
    Ok(None)
}

#[test]
fn replicas_go_on_after_a_crash(rt: HostRuntime) -> Result<(), Fail> {
    pass(first_lost(rt.alloc(), 120)?)
}
