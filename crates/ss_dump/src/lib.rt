//! The text of a dump: a row for each record of a store, between a head and an end row.
#![tactic(auto)]

mod reading;
mod row;
mod summing;
mod text;

pub use reading::{is_end, read_head, read_row};
pub use row::Row;
pub use summing::further;
pub use text::{end_text, head_text, row_text};
