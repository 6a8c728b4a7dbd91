//! What many crates need: a counter of steps for contracts, which costs nothing when the program runs, and the numbers that are
//! rules of more than one crate.
#![tactic(auto)]

mod limits;
mod steps;

pub use limits::{LAST_TIME, MOST_SESSIONS, MOST_VALUES, SLOT_SIZE};
pub use steps::Steps;
