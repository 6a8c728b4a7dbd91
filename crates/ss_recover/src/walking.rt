// One walk over records in the order of their streams.
ghost use Rattle.std.specs.Prelude.{◌≡◌, ◌≤◌, ◌<◌, ◌++◌, [], ◌∷◌, length, All, OnOk, IfOk, IfErr};
ghost use Rattle.std.specs.List.{list_any};
ghost use Rattle.ss_base.specs.Steps.{IsFresh};
ghost use Rattle.ss_model.specs.declared.types.TheConstants.{MOST_RECORDS};
ghost use Rattle.ss_recover.specs.Doomed.{is_own};
ghost use Rattle.ss_recover.specs.Order.{Rises, found_key, stream_of};
ghost use Rattle.ss_recover.specs.Runs.{WalksAs, may_stand};
ghost use Rattle.ss_recover.specs.Shown.{AddsName, EndsWalk, HasMore, HasNothing, TakesAs, names_in, run_len};
ghost use Rattle.ss_recover.specs.Usable.{IsUsable, slots_found, without_slots};
ghost use Rattle.ss_recover.specs.declared.recover_error.RecoverError.TheVariants.{OutOfMemory};

use crate::building::{Head, build};
use crate::found::Found;
use crate::{Parts, RecoverError};
use ss_base::Steps;
use ss_catalog::{Catalog, MOST_STREAMS, Name, StreamId};
use ss_codec::Record;
use ss_parts::StreamParts;
use std::alloc::Global;
use std::sync::ledger::{Blank, Ledger};

// What a walk has made of the records so far: the names of all their streams, the streams that stand, and the slots of the records
// of dropped ones, the streams' own apart.
#[derive(Drop)]
pub struct Walk {
    pub names: Catalog,
    pub done: Vec<StreamParts>,
    pub others: Vec<u32>,
    pub heads: Vec<u32>,
}

// The number of the stream that a record is of.
fn stream_of(holds: &Record) -> u32
    ensures { result ≡ stream_of holds.now }
{
    match holds {
        Record::Free => 0,
        Record::Stream { id, .. }
        | Record::Window { id, .. }
        | Record::Landmark { id, .. }
        | Record::Value { id, .. } => *id,
    }
}

// Whether a record is a stream's own.
fn is_own(holds: &Record) -> bool
    ensures { result ≡ is_own holds.now }
{
    matches!(holds, Record::Stream { .. })
}

// Whether one of some records is a stream's own.
fn has_own(found: &[Found]) -> bool
    ensures { result ≡ list_any is_own (without_slots found.now) }
{
    for one in found {
        if is_own(&one.holds) {
            return true;
        }
    }
    false
}

// Puts the slots of records behind others.
fn push_slots(slots: &mut Vec<u32>, found: &[Found]) -> Result<(), RecoverError>
    ensures ok { OnOk result (slots.new.items ≡ slots.old.items ++ slots_found found.now) }
    ensures err { IfErr result (λ error. error ≡ OutOfMemory) }
{
    for one in found {
        if slots.push(one.slot).is_err() {
            return Err(RecoverError::OutOfMemory);
        }
    }
    Ok(())
}

// Whether a stream may stand beside those with these names: its name is new, and they aren't as many as can be.
fn may_stand(names: &Catalog, name: &Name) -> bool
    ensures { result ≡ may_stand (names_in names.now) name.now }
{
    match names.find(name) {
        Some(_) => false,
        None => names.len() < MOST_STREAMS,
    }
}

// Takes a name for a stream. False says that none of this name may be added.
fn add_name(names: &mut Catalog, name: Name, id: u32) -> Result<bool, RecoverError>
    ensures { AddsName names.old names.new name result }
{
    if !may_stand(names, &name) {
        return Ok(false);
    }
    match names.add(name, StreamId(id)) {
        Ok(()) => Ok(true),
        Err(_) => Err(RecoverError::OutOfMemory),
    }
}

impl Walk {
    // Before any record.
    fn new(alloc: Global) -> Walk
        ensures { HasNothing result }
    {
        Walk {
            names: Catalog::new(alloc),
            done: Vec::new(alloc),
            others: Vec::new(alloc),
            heads: Vec::new(alloc),
        }
    }

    // The slots of a dropped stream's records, its own and the others.
    fn put_dropped(&mut self, slot: u32, rest: &[Found]) -> Result<(), RecoverError>
        ensures ok { OnOk result (HasMore self.old self.new [] [] (slots_found rest.now) (slot ∷ [])) }
        ensures err { IfErr result (λ error. error ≡ OutOfMemory) }
    {
        if self.heads.push(slot).is_err() {
            return Err(RecoverError::OutOfMemory);
        }
        push_slots(&mut self.others, rest)
    }

    // A stream that stands.
    fn put_standing(&mut self, part: StreamParts) -> Result<(), RecoverError>
        ensures ok { OnOk result (HasMore self.old self.new [] (part ∷ []) [] []) }
        ensures err { IfErr result (λ error. error ≡ OutOfMemory) }
    {
        if self.done.push(part).is_err() {
            return Err(RecoverError::OutOfMemory);
        }
        Ok(())
    }

    // The records of one number, the first of them and the others.
    fn take<L: Ledger>(
        &mut self,
        alloc: Global,
        id: u32,
        first: &Found,
        rest: &[Found],
        steps: &mut Steps<L>,
    ) -> Result<(), RecoverError>
        requires first { IsUsable first.now.holds }
        requires number { stream_of first.now.holds ≡ id }
        requires usable { All (λ f. IsUsable f.holds) rest.now }
        requires own { All (λ f. stream_of f.holds ≡ id) rest.now }
        requires few { length rest.now < MOST_RECORDS }
        ensures { TakesAs self.old self.new id first.now rest.now result }
    {
        let Record::Stream {
            name,
            params,
            dropped,
            ..
        } = first.holds
        else {
            return Err(RecoverError::BadStream { id });
        };
        if has_own(rest) || !add_name(&mut self.names, name, id)? {
            return Err(RecoverError::BadStream { id });
        }
        if dropped {
            return self.put_dropped(first.slot, rest);
        }
        let head = Head {
            slot: first.slot,
            id,
            name,
            params,
        };
        match build(alloc, head, rest, steps)? {
            Some(part) => self.put_standing(part),
            None => Err(RecoverError::BadStream { id }),
        }
    }

    // All records came: the slots of dropped streams' records come to stand in order, the streams' own last.
    fn end(mut self) -> Result<Parts, RecoverError>
        ensures ok { IfOk result (EndsWalk self) }
        ensures err { IfErr result (λ error. error ≡ OutOfMemory) }
    {
        self.others.sort()?;
        self.heads.sort()?;
        self.others.extend_from_slice(&self.heads)?;
        Ok(Parts {
            streams: self.done,
            doomed: self.others,
        })
    }
}

// How many of the first records are of the stream of a number.
fn run_len(id: u32, found: &[Found]) -> usize
    ensures { result ≡ run_len id found.now }
{
    for at in 0..found.len() {
        if stream_of(&found[at].holds) != id {
            return at;
        }
    }
    found.len()
}

// The streams that some records carry, which come in the order of their streams.
pub fn streams_of<L: Ledger>(
    alloc: Global,
    all: &[Found],
    blank: Blank,
) -> Result<Parts, RecoverError>
    requires blank { IsFresh L.name L.parts blank }
    requires usable { All (λ f. IsUsable f.holds) all.now }
    requires order { Rises found_key all.now }
    requires few { length all.now ≤ MOST_RECORDS }
    ensures { WalksAs all.now result }
{
    let mut steps = Steps::<L>::new(blank);
    let mut walk = Walk::new(alloc);
    let mut left = all;
    while let Some((first, tail)) = left.split_first() {
        let id = stream_of(&first.holds);
        let (rest, back) = tail.split_at(run_len(id, tail));
        walk.take(alloc, id, first, rest, &mut steps)?;
        left = back;
    }
    walk.end()
}
