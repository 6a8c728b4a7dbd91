//! The store: named streams on a disk, kept as windows that are merged towards their targets as values arrive.
#![tactic(auto)]

mod clearing;
mod error;
mod laws;
mod opening;
mod place;
mod store;
mod surveying;

pub use error::{ApplyError, AskError, OpenError};
pub use laws::{
    calls_grow_little, files_are_as_long_as_their_slots, files_stay_short,
    query_refusals_of_what_is_held, reading_refusals_of_what_is_held, refusals_of_what_is_held,
    unformatted_files_stand_for_nothing, what_is_held_counts_alike, what_is_held_is_found_alike,
    what_is_kept_is_the_state,
};
pub use store::{Store, ValueRange};
pub use surveying::Survey;
