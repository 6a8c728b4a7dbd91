// What a line asks for.
use ss_catalog::{End, Event, Name, Query, Series};

/// What a line asks for. docs/GUIDE.md ("Commands") has the forms.
#[derive(Clone, Copy, Debug, PartialEq, Eq)]
pub enum Command {
    /// To take an event.
    Do(Event),
    /// What is asked of a stream.
    Ask(Query),
    /// What is asked of a stream in rows.
    Series(Series),
    /// The windows of a stream.
    Windows(Name),
    /// All streams.
    List,
    /// Why an end of what a query answers is no narrower, filters aside. What it asks for adds up.
    Certify { query: Query, end: End },
    /// How far a stream has come, and its newest value.
    Last(Name),
    /// The values of landmarks of a stream with times in `from..=to`.
    Values { name: Name, from: u64, to: u64 },
}
