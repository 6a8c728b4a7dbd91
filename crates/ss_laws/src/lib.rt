//! A law book: what else the windows of a stream may have held, how wide an answer is and how much a store takes, and what
//! damage a checked store tells. There is no code here: definitions, and laws over them.
#![tactic(auto)]

mod content_laws;
mod damage_laws;
mod exp_laws;
mod part_laws;
mod power_laws;
mod room_laws;
mod size_laws;
mod width_laws;

pub use content_laws::{
    counts_are_true_of_the_same_values, fitting_answers_may_be_true, fitting_values_are_attained,
    histories_give_contents, intervals_hold_for_all_that_are_like, rebuilt_is_like,
};
pub use damage_laws::{damaged_entries_are_told, damaged_records_are_told, moved_records_are_told};
pub use exp_laws::{exp_lengths_grow_with_age, exp_windows_are_few};
pub use part_laws::{
    exact_rows_add_up, ranges_lie_within_their_parts, ranges_lie_within_their_rows,
};
pub use power_laws::{power_lengths_grow_with_age, power_windows_are_few};
pub use room_laws::{small_stores_have_room, stores_are_small};
pub use size_laws::{records_are_few, slots_are_few};
pub use width_laws::{counts_are_as_wide_as_their_ages, sums_are_as_wide_as_their_values};
