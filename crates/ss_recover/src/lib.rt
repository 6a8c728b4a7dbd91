//! The streams that the records of a map carry, with the slot of each record.
#![tactic(auto)]

mod building;
mod found;
mod gathering;
mod laws;
mod marking;
mod parts;
mod rebuilding;
mod recover_error;
mod sorting;
mod walking;
mod windows;

pub use laws::{
    a_dropped_record_that_goes, a_record_in_a_free_slot, a_record_in_place_of_another,
    a_slot_that_is_freed, a_stream_that_is_dropped, images_have_whole_slots,
    same_maps_carry_the_same, what_is_carried_is_a_state, what_is_held_is_carried,
};
pub use parts::Parts;
pub use rebuilding::rebuild;
pub use recover_error::RecoverError;
