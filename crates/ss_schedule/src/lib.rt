//! What is kept beside the line of a stream's windows: when each pair of neighbours first lies in one target window, which pair
//! does so now, and where the window of a time stands.
#![tactic(auto)]

mod index;
mod keys;
mod laws;
mod pair;
mod schedule;
mod sifting;
mod times;

pub use index::Index;
pub use laws::{keyed_at_the_next_count, the_last_one_pushed};
pub use pair::Pair;
pub use schedule::Schedule;
pub use times::Times;
