// The commands, each by itself.
ghost use Rattle.std.specs.Prelude.{◌≡◌, ◌≤◌, ◌∷◌, drop, true};
ghost use Rattle.ss_catalog.specs.Names.{is_name};
ghost use Rattle.ss_catalog.specs.declared.event.Event.TheVariants.{Value, Open, Close};
ghost use Rattle.ss_command.specs.Printed.{IsCommandInTime, IsSayable};
ghost use Rattle.ss_command.specs.declared.command.Command.TheVariants as commands;
ghost use Rattle.ss_generator.specs.Commands.{ask, create, stream};
ghost use Rattle.ss_generator.specs.Left.{from_question};

use crate::phase::Question;
use ss_base::LAST_TIME;
use ss_catalog::{Event, Family, Kind, Name, Params, Query};
use ss_command::Command;

// The stream of all commands.
fn stream() -> Name
    ensures value { result ≡ stream }
    ensures name { is_name result ≡ true }
{
    match Name::of(b"g") {
        Some(name) => name,
        None => unreachable!(),
    }
}

/// The stream is created.
pub fn create() -> Command
    ensures value { result ≡ create }
    ensures time { IsCommandInTime result }
    ensures sayable { IsSayable result }
{
    let family = Family::Power {
        p: 1,
        q: 1,
        r: 4,
        s: 1,
    };
    let params = Params {
        family,
        within: None,
    };
    Command::Do(Event::Create {
        name: stream(),
        params,
    })
}

/// A landmark is opened.
pub fn open(t: u64) -> Command
    requires { t ≤ LAST_TIME }
    ensures value { result ≡ commands.Do (Open stream t) }
    ensures time { IsCommandInTime result }
    ensures sayable { IsSayable result }
{
    Command::Do(Event::Open { name: stream(), t })
}

/// A value is appended.
pub fn append(t: u64, v: i64) -> Command
    requires { t ≤ LAST_TIME }
    ensures value { result ≡ commands.Do (Value stream t v) }
    ensures time { IsCommandInTime result }
    ensures sayable { IsSayable result }
{
    Command::Do(Event::Value {
        name: stream(),
        t,
        v,
    })
}

/// A landmark is closed.
pub fn close(t: u64) -> Command
    requires { t ≤ LAST_TIME }
    ensures value { result ≡ commands.Do (Close stream t) }
    ensures time { IsCommandInTime result }
    ensures sayable { IsSayable result }
{
    Command::Do(Event::Close { name: stream(), t })
}

// A query for the values from a time to a time.
fn ask(kind: Kind, from: u64, to: u64) -> Command
    requires from { from ≤ LAST_TIME }
    requires to { to ≤ LAST_TIME }
    ensures value { result ≡ ask kind from to }
    ensures time { IsCommandInTime result }
    ensures sayable { IsSayable result }
{
    Command::Ask(Query {
        name: stream(),
        kind,
        from,
        to,
    })
}

/// A query of those at the end, where the last time is `t`.
pub fn query(question: Question, t: u64) -> Command
    requires { t ≤ LAST_TIME }
    ensures value { from_question question t ≡ result ∷ drop 1 (from_question question t) }
    ensures time { IsCommandInTime result }
    ensures sayable { IsSayable result }
{
    let a = t / 3;
    let b = 2 * t / 3;
    match question {
        Question::CountOfAll => ask(Kind::Count, 0, t),
        Question::SumOfAll => ask(Kind::Sum, 0, t),
        Question::Count => ask(Kind::Count, a, b),
        Question::Sum => ask(Kind::Sum, a, b),
        Question::Min => ask(Kind::Min, a, b),
        Question::Max => ask(Kind::Max, a, b),
    }
}
