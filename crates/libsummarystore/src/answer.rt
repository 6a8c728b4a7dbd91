// What a call answers.
ghost use Rattle.std.specs.Prelude.{◌≡◌, ◌≤◌, pos, IfOk};
ghost use Rattle.libsummarystore.specs.Answer as by;
ghost use Rattle.ss_catalog.specs.Series.{IsSeriesInRange};
ghost use Rattle.ss_base.specs.declared.limits.TheConstants.{LAST_TIME};

use ss_base::LAST_TIME;
use ss_catalog::{Event, Kind, MOST_ROWS, Name, Params, Query, Refusal, Series, rows_in};
use ss_model::{Ack, Newest, Outcome};
use ss_program::Status;
use ss_report::Reply;

/// Why a call isn't done.
#[derive(Clone, Copy, Debug)]
pub enum Why {
    /// The connection has stopped.
    Stopped(Status),
    /// Another connection or another process has the file.
    Busy,
    /// A call that can't be meant.
    Misuse,
    /// An event, by a connection that only looks.
    ReadOnly,
    /// The program's grammar refuses it.
    Refused(Refusal),
}

// Its place among the refusals.
fn place(refusal: Refusal) -> u8
    ensures { result ≡ by.place refusal }
{
    match refusal {
        Refusal::Line => 0,
        Refusal::Syntax => 1,
        Refusal::Number => 2,
        Refusal::Name => 3,
        Refusal::Param => 4,
        Refusal::Exists => 5,
        Refusal::Streams => 6,
        Refusal::Unknown => 7,
        Refusal::Open => 8,
        Refusal::NotOpen => 9,
        Refusal::Time => 10,
        Refusal::Range => 11,
        Refusal::StreamFull => 12,
        Refusal::StoreFull => 13,
        Refusal::Busy => 14,
        Refusal::NoCursor => 15,
        Refusal::Frame => 16,
    }
}

impl Why {
    /// Its number in C, where 0 says that a call is done.
    pub fn number(self) -> i32
        ensures { result ≡ pos (by.number self) }
    {
        match self {
            Why::Stopped(status) => i32::from(status.number()),
            Why::Busy => 5,
            Why::Misuse => 64,
            Why::ReadOnly => 65,
            Why::Refused(refusal) => 128 + i32::from(place(refusal)),
        }
    }
}

/// The name that these bytes spell.
pub fn name_of(word: &[u8]) -> Result<Name, Why>
    ensures { result ≡ by.name_of word.now }
{
    match Name::of(word) {
        Some(name) => Ok(name),
        None => Err(Why::Refused(Refusal::Name)),
    }
}

/// A time that is one.
pub fn in_time(time: u64) -> Result<u64, Why>
    ensures answer { result ≡ by.in_time time }
    ensures bound { IfOk result (λ time. time ≤ LAST_TIME) }
{
    if time <= LAST_TIME {
        Ok(time)
    } else {
        Err(Why::Refused(Refusal::Number))
    }
}

/// What an event answers a connection that only looks.
pub fn writing<T: Drop>(only_looks: bool, meant: Result<T, Why>) -> Result<T, Why>
    ensures { result ≡ by.writing only_looks meant }
{
    if only_looks {
        Err(Why::ReadOnly)
    } else {
        meant
    }
}

/// What any call answers a connection that has stopped.
pub fn going<T: Drop>(ended: Option<Status>, meant: Result<T, Why>) -> Result<T, Why>
    ensures { result ≡ by.going ended meant }
{
    match ended {
        Some(status) => Err(Why::Stopped(status)),
        None => meant,
    }
}

/// The event that makes a stream.
pub fn create_of(name: &[u8], params: Params) -> Result<Event, Why>
    ensures { result ≡ by.create_of name.now params }
{
    match name_of(name) {
        Ok(name) => Ok(Event::Create { name, params }),
        Err(why) => Err(why),
    }
}

/// A time and a name. The time is looked at first.
pub fn placed_of(name: &[u8], time: u64) -> Result<(u64, Name), Why>
    ensures { result ≡ by.placed_of name.now time }
{
    match (in_time(time), name_of(name)) {
        (Err(why), _) => Err(why),
        (_, Err(why)) => Err(why),
        (Ok(t), Ok(name)) => Ok((t, name)),
    }
}

/// A query. Its times are looked at first.
pub fn query_of(name: &[u8], kind: Kind, from: u64, to: u64) -> Result<Query, Why>
    ensures { result ≡ by.query_of name.now kind from to }
{
    match (in_time(from), in_time(to), name_of(name)) {
        (Err(why), _, _) => Err(why),
        (_, Err(why), _) => Err(why),
        (_, _, Err(why)) => Err(why),
        (Ok(from), Ok(to), Ok(name)) => Ok(Query {
            name,
            kind,
            from,
            to,
        }),
    }
}

/// A series, whose step isn't 0, nor so short that there are too many rows.
pub fn series_of(name: &[u8], kind: Kind, from: u64, to: u64, step: u64) -> Result<Series, Why>
    ensures { IfOk result IsSeriesInRange }
{
    let from = in_time(from)?;
    let to = in_time(to)?;
    let step = in_time(step)?;
    if step == 0 || rows_in(from, to, step) > u64::from(MOST_ROWS) {
        return Err(Why::Refused(Refusal::Number));
    }
    let name = name_of(name)?;
    Ok(Series {
        name,
        kind,
        from,
        to,
        step,
    })
}

// A reply that a call of this kind doesn't have.
fn other(reply: Reply) -> Why
    ensures { result ≡ by.other reply }
{
    match reply {
        Reply::Refused(refusal) => Why::Refused(refusal),
        _ => Why::Misuse,
    }
}

/// What is acknowledged of an event.
pub fn ack_of(reply: Result<Reply, Status>) -> Result<Ack, Why>
    ensures { result ≡ by.ack_of reply }
{
    match reply {
        Ok(Reply::Done(ack)) => Ok(ack),
        Ok(reply) => Err(other(reply)),
        Err(status) => Err(Why::Stopped(status)),
    }
}

/// What a call answers that says no more than this.
pub fn done_of<T: Drop>(done: Result<T, Status>) -> Result<T, Why>
    ensures { result ≡ by.done_of done }
{
    match done {
        Ok(value) => Ok(value),
        Err(status) => Err(Why::Stopped(status)),
    }
}

/// The answer to a query.
pub fn outcome_of(reply: Result<Reply, Status>) -> Result<Outcome, Why>
    ensures { result ≡ by.outcome_of reply }
{
    match reply {
        Ok(Reply::Answered(outcome)) => Ok(outcome),
        Ok(reply) => Err(other(reply)),
        Err(status) => Err(Why::Stopped(status)),
    }
}

/// How far a stream has come.
pub fn newest_of(reply: Result<Reply, Status>) -> Result<Newest, Why>
    ensures { result ≡ by.newest_of reply }
{
    match reply {
        Ok(Reply::Last(newest)) => Ok(newest),
        Ok(reply) => Err(other(reply)),
        Err(status) => Err(Why::Stopped(status)),
    }
}
