//! A map from slots to their bytes on a disk, which knows the slots that are free.
#![tactic(auto)]

mod bits;
mod laws;
mod live;
mod pages;
mod records;
mod slot_set;

pub use laws::zeros_alone_are_free;
pub use live::are_zeros;
pub use records::Records;
pub use slot_set::SlotSet;
