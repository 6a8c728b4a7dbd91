//! The target of a stream: how long each of its windows should be, counted back from the newest value, for each family of
//! lengths, and power sums.
#![tactic(auto)]

mod decay;
mod exp;
mod power;
mod power_laws;
mod power_sum;
mod target;
mod target_laws;
mod window_laws;

pub use decay::{Decay, Param, Spot};
pub use exp::{Exp, GREATEST_BASE, GREATEST_SCALE, LEAST_BASE, MOST_REPEAT};
pub use power::{GREATEST_POWER, GREATEST_WIDENING, LEAST_POWER, MOST_TICKS, Power};
pub use power_laws::{
    groups_start_at_power_sums, power_lengths_never_fall, sums_at_caps_pass_every_age,
};
pub use power_sum::{GREATEST_EXPONENT, PowerSum, power_sum_upto};
pub use target::Target;
pub use target_laws::lengths_of_a_target_never_fall;
pub use window_laws::{
    exp_lengths_never_fall, first_fit_is_now_or_in_a_longer_window, fits_is_one_window,
    groups_follow_one_another, index_is_of_the_window_that_holds,
};
