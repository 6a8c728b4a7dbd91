//! What a window that a range splits says of its values in the range: intervals that hold the true answer.
#![tactic(auto)]

mod attained;
mod bounds;
mod corners;
mod extreme;
mod extremes;
mod fraction;
mod guess;
mod laws;
mod likeliest;
mod lines;
mod lowest;
mod mean;
mod mean_attained;
mod mean_laws;
mod means;
mod mixed;
mod ratio;
mod side;
mod split;
mod spread;

pub use attained::{greatest_sum_at, least_sum_at};
pub use bounds::{count_bounds, sum_bounds};
pub use extreme::Extreme;
pub use extremes::{greater, lesser, max_bounds, min_bounds};
pub use fraction::Fraction;
pub use guess::{count_guess, sum_guess};
pub use laws::{
    ends_of_sums_are_attained, extremes_hold_the_truth, free_times_are_parted, guesses_lie_between,
    several_hold_the_truth, split_windows_hold_the_truth, values_can_be_parted,
};
pub use likeliest::mean_guess;
pub use lines::{high_sum, low_sum};
pub use mean::{Mean, MeanGuess};
pub use mean_attained::{greatest_mean_at, least_mean_at, lowest_mean};
pub use mean_laws::{
    ends_of_means_are_attained, guesses_of_means_lie_between, means_are_no_wider_than_sums,
    means_hold_the_truth,
};
pub use means::{mean_bounds, with_values};
pub use split::Split;
