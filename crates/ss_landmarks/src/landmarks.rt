// The landmarks of one stream.
ghost use Rattle.std.specs.Prelude.{◌≡◌};
ghost use Rattle.ss_landmarks.specs.Stored.{one_open};

use crate::Tally;
use crate::search::{free_before, is_among, places_in, values_in};
use crate::stored::{Closed, Opened, StoredValue};
use crate::tally::tally_of;
use ss_base::{LAST_TIME, Steps};
use std::alloc::{AllocError, Global};
use std::marker::Model;
use std::sync::ledger::Ledger;

/// The most landmarks, and the most values, that are kept, with those that there is room for.
pub const MOST_LANDMARK_SLOTS: u32 = 1 << 24;

/// The landmarks of one stream in order of time, with their values, and the slot of the record of each. At most the last is
/// open. What is asked of a range of time is looked up by halves.
#[derive(Drop)]
pub struct Landmarks {
    // The landmarks that are closed, in order.
    closed: Vec<Closed>,
    // The one that is open, after them.
    current: Option<Opened>,
    // The values of all of them, in order.
    values: Vec<StoredValue>,
    // How many more landmarks and values there is room for.
    room: u32,
    value_room: u32,
}

impl Model for Landmarks {
    ghost use Rattle.std.specs.Prelude.{◌+◌, map, vec_len};
    ghost use Rattle.std.specs.Vec.{vec_capacity};
    ghost use Rattle.ss_landmarks.specs.Landmarks.{LandmarksState};
    ghost use Rattle.ss_landmarks.specs.Stored.{bare_value, landmarks_from, slots_of, one_open, AreStored, FitsMemory};

    ghost Value = { LandmarksState };

    ghost view = { λ s. record {
      landmarks = landmarks_from s.closed.items s.current (map bare_value s.values.items);
      slots = slots_of s.closed.items s.current;
      value_slots = map (λ value. value.slot) s.values.items;
      room = s.room;
      value_room = s.value_room;
    } };

    ghost invariant = { λ s. AreStored s.closed.items s.current (map bare_value s.values.items)
        × FitsMemory (vec_len s.closed + one_open s.current) s.room (vec_capacity s.closed)
        × FitsMemory (vec_len s.values) s.value_room (vec_capacity s.values) };
}

// How many landmarks are open.
fn one_open(current: &Option<Opened>) -> usize
    ensures { result ≡ one_open current.now }
{
    if current.is_some() { 1 } else { 0 }
}

impl Landmarks {
    ghost use Rattle.std.specs.Prelude.{◌≡◌, ◌+◌, ◌<◌, ◌≤◌, ◌↔◌, FitsSigned, [], ◌∷◌, ◌++◌, length, map, slice_get, take};
    ghost use Rattle.std.specs.Prelude.{drop, max, option_map, IsNone, OnOk, Some};
    ghost use Rattle.std.specs.Int.{w64};
    ghost use Rattle.std.specs.List.{All};
    ghost use Rattle.ss_landmarks.specs.Free.{free};
    ghost use Rattle.ss_landmarks.specs.Landmark.{LandmarkValue, opened_at, with_value, closed_at, change_last, open_landmark, all_values};
    ghost use Rattle.ss_landmarks.specs.Newest.{newest_value};
    ghost use Rattle.ss_landmarks.specs.Landmarks.{AreKnown, opened};
    ghost use Rattle.ss_landmarks.specs.Order.{CanOpen, CanTake, CanClose};
    ghost use Rattle.ss_landmarks.specs.Stored.{bare_value};
    ghost use Rattle.ss_landmarks.specs.ValuesIn.{is_among, values_between, tally_of};

    /// No landmarks, and room for none.
    pub fn new(alloc: Global) -> Landmarks
        ensures { result ≡ record { landmarks = []; slots = []; value_slots = []; room = 0; value_room = 0 } }
    {
        Landmarks {
            closed: Vec::new(alloc),
            current: None,
            values: Vec::new(alloc),
            room: 0,
            value_room: 0,
        }
    }

    /// Makes room for a landmark and for a value, where there is none. An error leaves what is kept, and no room falls.
    pub fn reserve(&mut self) -> Result<(), AllocError>
        requires landmarks { length self.old.landmarks < MOST_LANDMARK_SLOTS }
        requires values { length (all_values self.old.landmarks) < MOST_LANDMARK_SLOTS }
        ensures ok { OnOk result ((1 ≤ self.new.room) × (1 ≤ self.new.value_room)) }
        ensures grows { (self.old.room ≤ self.new.room) × (self.old.value_room ≤ self.new.value_room) }
        ensures least { (self.new.room ≤ max self.old.room 1) × (self.new.value_room ≤ max self.old.value_room 1) }
        ensures landmarks { self.new.landmarks ≡ self.old.landmarks }
        ensures slots { self.new.slots ≡ self.old.slots }
        ensures value_slots { self.new.value_slots ≡ self.old.value_slots }
    {
        let room = self.room.max(1);
        let value_room = self.value_room.max(1);
        self.closed
            .reserve(one_open(&self.current) + room as usize)?;
        self.values.reserve(value_room as usize)?;
        self.room = room;
        self.value_room = value_room;
        Ok(())
    }

    /// Opens a landmark at the time `t`, whose record is in `slot`.
    pub fn start(&mut self, t: u64, slot: u32)
        requires room { 1 ≤ self.old.room }
        requires time { t ≤ LAST_TIME }
        requires after { CanOpen self.old.landmarks t }
        ensures landmarks { self.new.landmarks ≡ self.old.landmarks ++ opened_at t ∷ [] }
        ensures slots { self.new.slots ≡ self.old.slots ++ slot ∷ [] }
        ensures value_slots { self.new.value_slots ≡ self.old.value_slots }
        ensures room { self.new.room + 1 ≡ self.old.room }
        ensures value_room { self.new.value_room ≡ self.old.value_room }
    {
        let free_before = free_before(&self.closed, &self.current, t);
        self.current = Some(Opened {
            start: t,
            slot,
            values_before: self.values.len(),
            free_before,
        });
        self.room -= 1;
    }

    /// Closes the open landmark at the time `t`.
    pub fn finish(&mut self, t: u64)
        requires time { t ≤ LAST_TIME }
        requires after { CanClose self.old.landmarks t }
        ensures landmarks { self.new.landmarks ≡ change_last (closed_at t) self.old.landmarks }
        ensures slots { self.new.slots ≡ self.old.slots }
        ensures value_slots { self.new.value_slots ≡ self.old.value_slots }
        ensures room { self.new.room ≡ self.old.room }
        ensures value_room { self.new.value_room ≡ self.old.value_room }
    {
        if let Some(opened) = self.current {
            let closed = Closed {
                start: opened.start,
                finish: t,
                slot: opened.slot,
                values: self.values.len() - opened.values_before,
                free_before: opened.free_before,
            };
            self.closed.push(closed).unwrap();
            self.current = None;
        }
    }

    /// Adds to the open landmark the value `v` at the time `t`, whose record is in `slot`.
    pub fn add(&mut self, t: u64, v: i64, slot: u32)
        requires room { 1 ≤ self.old.value_room }
        requires time { t ≤ LAST_TIME }
        requires after { CanTake self.old.landmarks t }
        ensures landmarks { self.new.landmarks ≡ change_last (with_value (record { t = t; v = v })) self.old.landmarks }
        ensures slots { self.new.slots ≡ self.old.slots }
        ensures value_slots { self.new.value_slots ≡ self.old.value_slots ++ slot ∷ [] }
        ensures room { self.new.room ≡ self.old.room }
        ensures value_room { self.new.value_room + 1 ≡ self.old.value_room }
    {
        self.values.push(StoredValue { t, v, slot }).unwrap();
        self.value_room -= 1;
    }

    /// The opening time of the open landmark, the slot of its record, and how many values it has; none if none is open.
    pub fn opened(&self) -> Option<(u64, u32, u32)>
        ensures value { result ≡ opened self.now }
        ensures none { IsNone result ↔ IsNone (open_landmark self.now.landmarks) }
    {
        match &self.current {
            None => None,
            Some(opened) => {
                let values = self.values.len() - opened.values_before;
                Some((opened.start, opened.slot, values as u32))
            }
        }
    }

    /// How many landmarks there are, with the open one.
    pub fn count(&self) -> u32
        ensures value { result ≡ length self.now.landmarks }
        ensures state { AreKnown self.now }
    {
        (self.closed.len() + one_open(&self.current)) as u32
    }

    /// How many values the landmarks have together.
    pub fn values(&self) -> u32
        ensures value { result ≡ length (all_values self.now.landmarks) }
        ensures state { AreKnown self.now }
    {
        self.values.len() as u32
    }

    /// The slot at a place among those of all records: first those of the landmarks, and then those of their values, each in order.
    pub fn slot_at(&self, place: u32) -> u32
        requires { place < length self.now.slots + length self.now.value_slots }
        ensures { slice_get (self.now.slots ++ self.now.value_slots) place ≡ Some result }
    {
        let place = place as usize;
        let closed = self.closed.len();
        if place < closed {
            return self.closed[place].slot;
        }
        match &self.current {
            None => self.values[place - closed].slot,
            Some(opened) => {
                if place == closed {
                    opened.slot
                } else {
                    self.values[place - closed - 1].slot
                }
            }
        }
    }

    /// How many of the times `p..=q` no landmark covers. Each call is one search of the landmarks, and ticks once. It takes the
    /// logarithm of their number.
    pub fn free<L: Ledger>(&self, p: u64, q: u64, searches: &mut Steps<L>) -> u64
        requires { q ≤ LAST_TIME }
        ensures free { result ≡ free self.now.landmarks p q }
        ensures one_search { searches.new ≡ searches.old + 1 }
    {
        searches.tick();
        self.free_between(p, q)
    }

    // The same, where nothing is counted.
    fn free_between(&self, p: u64, q: u64) -> u64
        requires { q ≤ LAST_TIME }
        ensures { result ≡ free self.now.landmarks p q }
    {
        if p > q {
            return 0;
        }
        free_before(&self.closed, &self.current, q + 1)
            - free_before(&self.closed, &self.current, p)
    }

    /// The time of the newest value, and this value; none where there are no values.
    pub fn newest(&self) -> Option<(u64, i64)>
        ensures { result ≡ option_map (λ value. (value.t, value.v)) (newest_value self.now.landmarks) }
    {
        let value = self.values.last()?;
        Some((value.t, value.v))
    }

    /// From which place on, among the values of all landmarks in order, those with time in `a..=b` stand, and how many these are. It
    /// takes the logarithm of the number of values.
    pub fn places_in(&self, a: u64, b: u64) -> (u32, u32)
        ensures values { values_between self.now.landmarks a b ≡ take result.1 (drop result.0 (all_values self.now.landmarks)) }
        ensures count { result.1 ≡ length (values_between self.now.landmarks a b) }
        ensures within { result.0 + result.1 ≤ length (all_values self.now.landmarks) }
    {
        let (from, to) = places_in(&self.values, a, b);
        (from as u32, (to - from) as u32)
    }

    /// The time of the value at a place among the values of all landmarks in order, and this value.
    pub fn value_at(&self, place: u32) -> (u64, i64)
        requires { place < length (all_values self.now.landmarks) }
        ensures { slice_get (all_values self.now.landmarks) place ≡ Some (record { t = result.0; v = result.1 }) }
    {
        let value = self.values[place as usize];
        (value.t, value.v)
    }

    // The values with time in a..=b.
    fn values_between(&self, a: u64, b: u64) -> &[StoredValue]
        ensures values { map bare_value result.now ≡ values_between self.now.landmarks a b }
        ensures fit { All (λ value. FitsSigned w64 value.v) result.now }
    {
        values_in(&self.values, a, b)
    }

    /// What the values with time in `a..=b` add up to. It takes the logarithm of the number of values to find them, and
    /// looks at each of them once, and at no other.
    pub fn values_in(&self, a: u64, b: u64) -> Tally
        ensures { result ≡ tally_of (values_between self.now.landmarks a b) }
    {
        tally_of(self.values_between(a, b))
    }

    /// Whether some value with time in `a..=b` is `v`. It takes the logarithm of the number of values to find them, and
    /// looks at each of them once at most, and at no other.
    pub fn holds(&self, a: u64, b: u64, v: i64) -> bool
        ensures { result ≡ is_among v (values_between self.now.landmarks a b) }
    {
        is_among(self.values_between(a, b), v)
    }
}
