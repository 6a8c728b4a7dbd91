//! The reading side of a store: what the landmarks of a stream and the records of its windows tell of a query.
#![tactic(auto)]

mod answering;
mod asking;
mod cut;
mod means;
mod presence;
mod walking;

pub use answering::outcome_seen;
pub use asking::Seen;
pub use cut::Cut;
pub use ss_model::{Outcome, Presence};
pub use walking::see_from;
