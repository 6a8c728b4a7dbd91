// What stands behind a handle.
ghost use Rattle.std.specs.Prelude.{◌≤◌, length, IfOk};
ghost use Rattle.ss_catalog.specs.Series.{IsSeriesInRange};
ghost use Rattle.libsummarystore.specs.Kept.{IsFit};

use crate::answer::Why;
use crate::fill::fill;
use crate::held::Held;
use crate::image::{Image, Next};
use crate::shapes::{
    CAck, CInterval, CNewest, CTarget, ack, guess_kind, interval, kind, newest, params, presence,
};
use crate::shut::{Shut, tell_stop};
use ss_catalog::{Kind, Series};
use ss_connection::Taken;
use ss_model::Outcome;
use std::alloc::Global;

/// A connection to a store, or why it wasn't opened.
#[derive(Drop)]
pub enum Kept {
    Open(Held<Image>),
    Shut(Shut),
}

impl Kept {
    /// Why the connection has stopped, or 0 where it goes on.
    pub fn status(&self) -> i32 {
        match self {
            Kept::Open(held) => match held.ended() {
                Some(status) => Why::Stopped(status).number(),
                None => 0,
            },
            Kept::Shut(shut) => shut.why().number(),
        }
    }

    /// Puts what there is to say of it into the room, and answers how many bytes these are.
    pub fn tell(&self, alloc: Global, room: &mut [u8]) -> usize
        ensures { result ≤ length room.new }
    {
        match self {
            Kept::Shut(shut) => shut.tell(alloc, room),
            Kept::Open(held) => match held.ended() {
                None => 0,
                Some(_) if held.disk.has_failed() => fill(
                    b"no memory for what is to be written to the file",
                    room,
                ),
                Some(status) => tell_stop(status.number(), room),
            },
        }
    }

    /// Takes what is to be done next to the file, and puts what is written into the room.
    pub fn take(&mut self, room: &mut [u8]) -> Next
        requires { IsFit self.old }
        ensures { IsFit self.new }
    {
        match self {
            Kept::Open(held) => held.disk.take(room),
            Kept::Shut(_) => Next::Nothing,
        }
    }

    /// Does a line of the grammar, and puts the front of its reply into the room.
    pub fn call(&mut self, line: &[u8], room: &mut [u8]) -> Result<usize, Why>
        requires { IsFit self.old }
        ensures fit { IsFit self.new }
        ensures room { IfOk result (λ count. count ≤ length room.new) }
    {
        match self {
            Kept::Open(held) => held.call(line, room),
            Kept::Shut(shut) => Err(shut.why()),
        }
    }

    /// Puts what follows of the reply to the last line into the room.
    pub fn next(&mut self, room: &mut [u8]) -> Result<usize, Why>
        requires { IsFit self.old }
        ensures fit { IsFit self.new }
        ensures room { IfOk result (λ count. count ≤ length room.new) }
    {
        match self {
            Kept::Open(held) => held.next(room),
            Kept::Shut(shut) => Err(shut.why()),
        }
    }

    /// Takes values, each at its time, until one is refused.
    pub fn append_many(&mut self, name: &[u8], times: &[u64], values: &[i64]) -> Result<Taken, Why>
        requires { IsFit self.old }
        ensures { IsFit self.new }
    {
        match self {
            Kept::Open(held) => held.append_many(name, times, values),
            Kept::Shut(shut) => Err(shut.why()),
        }
    }

    /// Brings what waits to the disk.
    pub fn seal(&mut self) -> Result<(), Why>
        requires { IsFit self.old }
        ensures { IsFit self.new }
    {
        match self {
            Kept::Open(held) => held.seal(),
            Kept::Shut(shut) => Err(shut.why()),
        }
    }

    /// Makes a stream.
    pub fn create(&mut self, name: &[u8], target: &CTarget) -> Result<CAck, Why>
        requires { IsFit self.old }
        ensures { IsFit self.new }
    {
        match (self, params(target)) {
            (Kept::Shut(shut), _) => Err(shut.why()),
            (_, None) => Err(Why::Misuse),
            (Kept::Open(held), Some(params)) => match held.create(name, params) {
                Ok(found) => Ok(ack(found)),
                Err(why) => Err(why),
            },
        }
    }

    /// Takes a value.
    pub fn append(&mut self, name: &[u8], time: u64, value: i64) -> Result<CAck, Why>
        requires { IsFit self.old }
        ensures { IsFit self.new }
    {
        match self {
            Kept::Shut(shut) => Err(shut.why()),
            Kept::Open(held) => match held.append(name, time, value) {
                Ok(found) => Ok(ack(found)),
                Err(why) => Err(why),
            },
        }
    }

    // Asks a query of a kind, where there is such a kind.
    fn ask(&mut self, name: &[u8], kind: Option<Kind>, from: u64, to: u64) -> Result<Outcome, Why>
        requires { IsFit self.old }
        ensures { IsFit self.new }
    {
        match (self, kind) {
            (Kept::Shut(shut), _) => Err(shut.why()),
            (_, None) => Err(Why::Misuse),
            (Kept::Open(held), Some(kind)) => held.query(name, kind, from, to),
        }
    }

    /// What is known of the values with times from `from` to `to`.
    pub fn query(&mut self, name: &[u8], number: u32, from: u64, to: u64) -> Result<CInterval, Why>
        requires { IsFit self.old }
        ensures { IsFit self.new }
    {
        match self.ask(name, kind(number), from, to) {
            Ok(found) => Ok(interval(found)),
            Err(why) => Err(why),
        }
    }

    /// The same, with the likeliest number.
    pub fn estimate(
        &mut self,
        name: &[u8],
        number: u32,
        from: u64,
        to: u64,
    ) -> Result<CInterval, Why>
        requires { IsFit self.old }
        ensures { IsFit self.new }
    {
        match self.ask(name, guess_kind(number), from, to) {
            Ok(found) => Ok(interval(found)),
            Err(why) => Err(why),
        }
    }

    /// Whether one of these values is `value`.
    pub fn has(&mut self, name: &[u8], value: i64, from: u64, to: u64) -> Result<u32, Why>
        requires { IsFit self.old }
        ensures { IsFit self.new }
    {
        match self.ask(name, Some(Kind::Has { value }), from, to) {
            Ok(found) => Ok(presence(found)),
            Err(why) => Err(why),
        }
    }

    /// The queries of so many times each, from `from` on: how many there are, and the answers to the first of them.
    pub fn series(
        &mut self,
        series: Result<Series, Why>,
        rows: &mut [CInterval],
    ) -> Result<usize, Why>
        requires fit { IsFit self.old }
        requires range { IfOk series IsSeriesInRange }
        ensures { IsFit self.new }
    {
        match self {
            Kept::Shut(shut) => Err(shut.why()),
            Kept::Open(held) => held.series(series, rows),
        }
    }

    /// How far a stream has come, and what is known of its newest value.
    pub fn last(&mut self, name: &[u8]) -> Result<CNewest, Why>
        requires { IsFit self.old }
        ensures { IsFit self.new }
    {
        match self {
            Kept::Shut(shut) => Err(shut.why()),
            Kept::Open(held) => match held.last(name) {
                Ok(found) => Ok(newest(found)),
                Err(why) => Err(why),
            },
        }
    }

    /// How many streams stand.
    pub fn streams(&mut self) -> Result<usize, Why>
        requires { IsFit self.old }
        ensures { IsFit self.new }
    {
        match self {
            Kept::Shut(shut) => Err(shut.why()),
            Kept::Open(held) => held.streams(),
        }
    }
}
