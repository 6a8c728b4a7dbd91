//! Names, parameters, events, queries, series and refusals of streams, and the names in order of creation.
#![tactic(auto)]

mod catalog;
mod event;
mod laws;
mod name;
mod params;
mod query;
mod refusal;
mod series;
mod stream_id;

pub use catalog::{Catalog, CatalogError};
pub use event::Event;
pub use laws::rows_are_the_range;
pub use name::{LONGEST_NAME, Name};
pub use params::{
    Family, GREATEST_BASE, GREATEST_POWER, GREATEST_SCALE, GREATEST_WIDENING, Params,
};
pub use query::{End, Kind, Query};
pub use refusal::Refusal;
pub use series::{Series, rows_in};
pub use stream_id::StreamId;

/// A series has at most this many rows.
pub const MOST_ROWS: u32 = 100_000;

/// At most this many streams stand.
pub const MOST_STREAMS: u32 = 4096;

/// The greatest number that a stream can have.
pub const LAST_STREAM: u32 = u32::MAX;
