//! What is held in memory of a stream, the records that it stands for, and how those of its windows are read again: what rebuilding,
//! queries and the changes of a stream share.
#![tactic(auto)]

mod free;
mod parts;
mod read_error;
mod reading;

pub use free::lies_free;
pub use parts::{StreamParts, number_of};
pub use read_error::ReadError;
pub use reading::read_window;
