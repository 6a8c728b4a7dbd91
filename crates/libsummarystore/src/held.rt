// A connection with its disk.
ghost use Rattle.std.specs.Prelude.{◌≡◌, ◌+◌, ◌<◌, ◌≤◌, drop, length, min, take, None, Some, Ok, Result, IfErr, IfOk, IfSome, OnOk, IsTrue, IsFalse};
ghost use Rattle.ss_catalog.specs.Series.{IsSeriesInRange};
ghost use Rattle.ss_catalog.specs.declared.event.Event.TheVariants.{Value};
ghost use Rattle.ss_connection.specs.Calls.{SealsHeld};
ghost use Rattle.ss_connection.specs.Many.{AppliesMany, StagesMany, values_at};
ghost use Rattle.ss_program.specs.Status.{IsDiskStop};
ghost use Rattle.ss_program.specs.declared.answer.Question.TheVariants as questions;
ghost use Rattle.ss_program.specs.declared.status.Status.{Status};
ghost use Rattle.libsummarystore.specs.Answer.{create_of, done_of, going, name_of, query_of, placed_of, writing};
ghost use Rattle.libsummarystore.specs.Held.{Asks, CalledOnce, HandsOut, IsReady, IsStill, Knows, KnowsNewest, RepliesTo, Says, SaysMore, Takes, TakesMany};

use crate::answer::{
    Why, ack_of, create_of, done_of, going, name_of, newest_of, outcome_of, placed_of, query_of,
    writing,
};
use crate::fill::fill;
use crate::shapes::{CInterval, interval};
use ss_catalog::{Event, Kind, Name, Params, Query, Series};
use ss_command::{CARRIAGE_RETURN, Command, LINE_END, LONGEST_LINE, parse};
use ss_connection::{Connection, Taken};
use ss_model::{Ack, Newest, Outcome};
use ss_outside::Disk;
use ss_program::{Question, Status};
use ss_report::Reply;

/// A connection, and the disk that its calls take.
#[derive(Drop)]
pub struct Held<D> {
    pub disk: D,
    pub connection: Connection,
    /// Whether typed events wait until they are sealed.
    pub is_batch: bool,
    /// Whether no event is taken.
    pub only_looks: bool,
    /// How many bytes of what was said last were handed out, where no other call was made since.
    pub shown: Option<usize>,
}

// The line without this byte at its end, where it has it.
fn without_last(line: &[u8], byte: u8) -> &[u8] {
    match line.last() {
        Some(last) if *last == byte => &line[..line.len() - 1],
        _ => line,
    }
}

// Whether a line is an event, with or without its line end.
fn is_event(line: &[u8]) -> bool {
    let line = without_last(without_last(line, LINE_END), CARRIAGE_RETURN);
    line.len() <= LONGEST_LINE && matches!(parse(line), Ok(Some(Command::Do(_))))
}

impl<D: Disk> Held<D> {
    /// Why the connection has stopped, where it has.
    pub fn ended(&self) -> Option<Status>
        ensures { result ≡ self.now.connection.ended }
    {
        self.connection.ended()
    }

    // Hands out what was said last, behind what was handed out of it.
    fn show(&mut self, shown: usize, room: &mut [u8]) -> usize
        ensures count { result ≡ min (length (drop shown self.old.connection.said)) (length room.old) }
        ensures same { self.new ≡ record self.old { shown = self.new.shown } }
        ensures length { length room.new ≡ length room.old }
        ensures bytes { take result room.new ≡ take result (drop shown self.old.connection.said) }
        ensures shown { shown ≤ length self.old.connection.said → self.new.shown ≡ Some (shown + result) }
    {
        let said = self.connection.said();
        let count = fill(&said[shown.min(said.len())..], room);
        self.shown = Some(shown.saturating_add(count));
        count
    }

    /// Does a line of the grammar, and puts the front of its reply into the room.
    pub fn call(&mut self, line: &[u8], room: &mut [u8]) -> Result<usize, Why>
        requires { IsReady D.seen self.old }
        ensures ready { IsReady D.seen self.new }
        ensures fits { IfOk result (λ count. count ≤ length room.new) }
        ensures says { Says D.seen line.now self.old self.new room.new result }
        ensures shown { IfOk result (λ count. self.new.shown ≡ Some count) }
        ensures none { IfErr result (λ why. self.new.shown ≡ None) }
    {
        self.shown = None;
        if self.ended().is_none() && self.only_looks && is_event(line) {
            return Err(Why::ReadOnly);
        }
        match self.connection.call(line, &mut self.disk) {
            Ok(()) => Ok(self.show(0, room)),
            Err(status) => Err(Why::Stopped(status)),
        }
    }

    // Says further rows, and puts the front of them into the room.
    fn further(&mut self, room: &mut [u8]) -> Result<usize, Why>
        requires { IsReady D.seen self.old }
        ensures ready { IsReady D.seen self.new }
        ensures fits { IfOk result (λ count. count ≤ length room.new) }
        ensures says { SaysMore D.seen self.old self.new room.new result }
        ensures shown { IfOk result (λ count. self.new.shown ≡ Some count) }
        ensures none { IfErr result (λ why. self.new.shown ≡ None) }
    {
        self.shown = None;
        match self.connection.next(&mut self.disk) {
            Ok(()) => Ok(self.show(0, room)),
            Err(status) => Err(Why::Stopped(status)),
        }
    }

    /// Puts what follows of the reply to the last line into the room. Nothing follows where 0 is answered, nor after any other call.
    pub fn next(&mut self, room: &mut [u8]) -> Result<usize, Why>
        requires { IsReady D.seen self.old }
        ensures ready { IsReady D.seen self.new }
        ensures fits { IfOk result (λ count. count ≤ length room.new) }
        ensures nothing { self.old.shown ≡ None → (result ≡ going self.old.connection.ended (Ok 0)) × IsStill D.seen self.old self.new }
        ensures rest { IfSome self.old.shown (λ shown. shown < length self.old.connection.said →
            IsStill D.seen self.old self.new × HandsOut (Ok tt) (drop shown self.old.connection.said) room.new result) }
        ensures further { IfSome self.old.shown (λ shown. length self.old.connection.said ≤ shown →
            SaysMore D.seen self.old self.new room.new result) }
    {
        let Some(shown) = self.shown else {
            return going(self.ended(), Ok(0));
        };
        if shown < self.connection.said().len() {
            return Ok(self.show(shown, room));
        }
        self.further(room)
    }

    // The reply to an event, which is staged in a batch, and else brought to the disk.
    fn reply_to(&mut self, event: &Event) -> Result<Reply, Status>
        requires { IsReady D.seen self.old }
        ensures ready { IsReady D.seen self.new }
        ensures replies { RepliesTo D.seen event.now self.old self.new result }
    {
        self.shown = None;
        if self.is_batch {
            self.connection.stage(event, &mut self.disk)
        } else {
            self.connection.apply(event, &mut self.disk)
        }
    }

    // Takes an event.
    fn take(&mut self, event: &Event) -> Result<Ack, Why>
        requires { IsReady D.seen self.old }
        ensures ready { IsReady D.seen self.new }
        ensures takes { Takes D.seen event.now self.old self.new result }
    {
        ack_of(self.reply_to(event))
    }

    /// Makes a stream.
    pub fn create(&mut self, name: &[u8], params: Params) -> Result<Ack, Why>
        requires { IsReady D.seen self.old }
        ensures ready { IsReady D.seen self.new }
        ensures refused { IfErr (going self.old.connection.ended (writing self.old.only_looks (create_of name.now params))) (λ why.
            (result ≡ Err why) × IsStill D.seen self.old self.new) }
        ensures takes { IfOk (going self.old.connection.ended (writing self.old.only_looks (create_of name.now params))) (λ event.
            Takes D.seen event self.old self.new result) }
    {
        self.shown = None;
        match going(
            self.ended(),
            writing(self.only_looks, create_of(name, params)),
        ) {
            Ok(event) => self.take(&event),
            Err(why) => Err(why),
        }
    }

    // The time and the name of a value, where the connection takes one.
    fn placed(&self, name: &[u8], time: u64) -> Result<(u64, Name), Why>
        ensures { result ≡ going self.now.connection.ended (writing self.now.only_looks (placed_of name.now time)) }
    {
        let meant = placed_of(name, time);
        going(self.ended(), writing(self.only_looks, meant))
    }

    /// Takes a value.
    pub fn append(&mut self, name: &[u8], time: u64, value: i64) -> Result<Ack, Why>
        requires { IsReady D.seen self.old }
        ensures ready { IsReady D.seen self.new }
        ensures refused { IfErr (going self.old.connection.ended (writing self.old.only_looks (placed_of name.now time))) (λ why.
            (result ≡ Err why) × IsStill D.seen self.old self.new) }
        ensures takes { IfOk (going self.old.connection.ended (writing self.old.only_looks (placed_of name.now time))) (λ placed.
            Takes D.seen (Value placed.1 placed.0 value) self.old self.new result) }
    {
        self.shown = None;
        match self.placed(name, time) {
            Ok((t, name)) => self.take(&Event::Value { name, t, v: value }),
            Err(why) => Err(why),
        }
    }

    // Stages values in a batch, and else brings them to the disk together.
    fn take_many(&mut self, name: &Name, times: &[u64], values: &[i64]) -> Result<Taken, Status>
        requires { IsReady D.seen self.old }
        ensures ready { IsReady D.seen self.new }
        ensures takes { TakesMany D.seen name.now (values_at name.now times.now values.now) self.old self.new result }
    {
        if self.is_batch {
            self.connection
                .stage_many(name, times, values, &mut self.disk)
        } else {
            self.connection
                .append_many(name, times, values, &mut self.disk)
        }
    }

    /// Takes values, each at its time, until one is refused. Those that were taken come to the disk with as few syncs as a batch has, but in
    /// a batch.
    pub fn append_many(&mut self, name: &[u8], times: &[u64], values: &[i64]) -> Result<Taken, Why>
        requires { IsReady D.seen self.old }
        ensures ready { IsReady D.seen self.new }
        ensures refused { IfErr (going self.old.connection.ended (writing self.old.only_looks (name_of name.now))) (λ why.
            (result ≡ Err why) × IsStill D.seen self.old self.new) }
        ensures takes { IfOk (going self.old.connection.ended (writing self.old.only_looks (name_of name.now))) (λ name.
            (taken : Result Taken Status) × (result ≡ done_of taken)
            × TakesMany D.seen name (values_at name times.now values.now) self.old self.new taken) }
    {
        self.shown = None;
        match going(self.ended(), writing(self.only_looks, name_of(name))) {
            Ok(name) => done_of(self.take_many(&name, times, values)),
            Err(why) => Err(why),
        }
    }

    /// Brings what waits to the disk.
    pub fn seal(&mut self) -> Result<(), Why>
        requires { IsReady D.seen self.old }
        ensures ready { IsReady D.seen self.new }
        ensures seals { (sealed : Result Unit Status) × (result ≡ done_of sealed) × CalledOnce D.seen IsDiskStop self.old self.new sealed
            (SealsHeld self.old.connection.store.records self.new.connection.store.records sealed) }
    {
        self.shown = None;
        done_of(self.connection.seal(&mut self.disk))
    }

    // The reply to a question.
    fn ask(&mut self, question: &Question) -> Result<Reply, Status>
        requires { IsReady D.seen self.old }
        ensures ready { IsReady D.seen self.new }
        ensures asks { Asks D.seen question.now self.old self.new result }
    {
        self.shown = None;
        self.connection.ask(question, &mut self.disk)
    }

    // The answer to a query.
    fn known(&mut self, query: Query) -> Result<Outcome, Why>
        requires { IsReady D.seen self.old }
        ensures ready { IsReady D.seen self.new }
        ensures knows { Knows D.seen query self.old self.new result }
    {
        outcome_of(self.ask(&Question::Query(query)))
    }

    /// What is known of the values with times from `from` to `to`.
    pub fn query(&mut self, name: &[u8], kind: Kind, from: u64, to: u64) -> Result<Outcome, Why>
        requires { IsReady D.seen self.old }
        ensures ready { IsReady D.seen self.new }
        ensures refused { IfErr (going self.old.connection.ended (query_of name.now kind from to)) (λ why.
            (result ≡ Err why) × IsStill D.seen self.old self.new) }
        ensures knows { IfOk (going self.old.connection.ended (query_of name.now kind from to)) (λ query.
            Knows D.seen query self.old self.new result) }
    {
        self.shown = None;
        match going(self.ended(), query_of(name, kind, from, to)) {
            Ok(query) => self.known(query),
            Err(why) => Err(why),
        }
    }

    // The answers to the first queries of a series, as many as there is room for.
    fn rows(&mut self, series: &Series, rows: &mut [CInterval]) -> Result<usize, Why>
        requires ready { IsReady D.seen self.old }
        requires range { IsSeriesInRange series.now }
        ensures ready { IsReady D.seen self.new }
    {
        let count = series.rows() as usize;
        if count == 0 || rows.is_empty() {
            self.known(Query {
                name: series.name,
                kind: series.kind,
                from: series.from,
                to: series.to,
            })?;
        }
        let shown = count.min(rows.len());
        let mut k = 0;
        while k < shown {
            rows[k] = interval(self.known(series.row(k as u32))?);
            k += 1;
        }
        Ok(count)
    }

    /// The queries of a series, where one is meant: how many there are, and the answers to the first of them, as many as there is room for.
    pub fn series(
        &mut self,
        meant: Result<Series, Why>,
        rows: &mut [CInterval],
    ) -> Result<usize, Why>
        requires ready { IsReady D.seen self.old }
        requires range { IfOk meant IsSeriesInRange }
        ensures ready { IsReady D.seen self.new }
        ensures refused { IfErr (going self.old.connection.ended meant) (λ why. (result ≡ Err why) × IsStill D.seen self.old self.new) }
    {
        self.shown = None;
        match going(self.ended(), meant) {
            Ok(series) => self.rows(&series, rows),
            Err(why) => Err(why),
        }
    }

    /// How far a stream has come, and what is known of its newest value.
    pub fn last(&mut self, name: &[u8]) -> Result<Newest, Why>
        requires { IsReady D.seen self.old }
        ensures ready { IsReady D.seen self.new }
        ensures refused { IfErr (going self.old.connection.ended (name_of name.now)) (λ why.
            (result ≡ Err why) × IsStill D.seen self.old self.new) }
        ensures knows { IfOk (going self.old.connection.ended (name_of name.now)) (λ name.
            KnowsNewest D.seen name self.old self.new result) }
    {
        self.shown = None;
        match going(self.ended(), name_of(name)) {
            Ok(name) => newest_of(self.ask(&Question::Newest(name))),
            Err(why) => Err(why),
        }
    }

    /// How many streams stand.
    pub fn streams(&mut self) -> Result<usize, Why>
        ensures same { IsStill D.seen self.old self.new }
        ensures count { result ≡ going self.old.connection.ended (Ok (length self.old.connection.store.streams)) }
    {
        self.shown = None;
        going(self.ended(), Ok(self.connection.streams() as usize))
    }
}
