//! The windows of one stream in order, each at a place that stays good while others come and go.
#![tactic(auto)]

mod chain;
mod entry;
mod laws;
mod line;

pub use entry::{At, Entry};
pub use laws::{places_change, places_stay};
pub use line::{Line, MOST_PLACES};
