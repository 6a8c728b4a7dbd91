//! What a window keeps of its values: how many, their sum, the least, the greatest, the times of the first and last, and a
//! filter of which values they are.
#![tactic(auto)]

mod filter;
mod laws;
mod possible;
mod summary;

pub use filter::Filter;
pub use laws::{
    filters_are_of_their_points, filters_are_their_bits, joined_is_of_the_joined_list,
    joining_is_associative, possible_figures_are_those_of_values, possible_figures_pass_the_test,
    uniting_is_associative,
};
pub use summary::Summary;
