//! A store in the caller's own process: a connection that is handed one line or one event after another, and the laws of its calls.
#![tactic(auto)]

mod bare;
mod connection;
mod laws;
mod text;

pub use connection::{Connection, Taken};
pub use laws::{
    answered_calls_stay, batches_hold_their_events, calls_say_what_a_run_says,
    typed_calls_do_what_lines_say,
};
