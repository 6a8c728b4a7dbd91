//! The arguments of the command line, and the mode that they ask for.
#![tactic(auto)]

mod laws;
mod mode;
mod reading;

pub use laws::{numbers_of_gen_are_in_range, options_ask_for_no_mode};
pub use mode::{Form, Mode, Sealing};
pub use reading::mode_of;

/// A number among the arguments has at most this many digits.
pub const MOST_DIGITS: usize = 20;
