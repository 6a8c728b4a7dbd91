//! One stream of a store, beside whatever other records lie on the disk: a value or a mark of a landmark is put, windows that are due
//! are joined, and its index of windows is kept.
#![tactic(auto)]

mod appending;
mod closing;
mod counting;
mod dropping;
mod held;
mod indexing;
mod laws;
mod marking;
mod writing;

pub use closing::values_held;
pub use counting::closed_windows;
pub use dropping::{dropped_record, slots_of};
pub use held::HeldStream;
pub use indexing::held_streams;
pub use laws::few_windows_stand;
pub use marking::{Mark, reserve};
pub use writing::{stage_record, stage_replaced, stage_zeros};
