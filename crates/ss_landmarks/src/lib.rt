//! The landmarks of one stream: intervals of time whose values are kept one by one, each with the slot of its record.
#![tactic(auto)]

mod landmarks;
mod laws;
mod search;
mod stored;
mod tally;

pub use landmarks::{Landmarks, MOST_LANDMARK_SLOTS};
pub use laws::{
    free_times_add_up, landmarks_stay_in_order, last_times_rise, the_last_is_open,
    times_may_follow, values_come_last, which_values_are_among_them,
};
pub use tally::Tally;
