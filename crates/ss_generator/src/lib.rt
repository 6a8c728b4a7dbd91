//! A generated command file: its commands, one after another.
#![tactic(auto)]

mod commands;
mod generator;
mod numbers;
mod phase;
mod round;

pub use generator::Generator;

/// A generated command file has at least one round, and at most so many.
pub const MOST_COUNT: u32 = 100000;

/// Each number is the one before it times this one and the increment, in 64 bits.
pub const MULTIPLIER: u64 = 6364136223846793005;

/// Each number is the one before it times the multiplier and this one, in 64 bits.
pub const INCREMENT: u64 = 1442695040888963407;

/// The greatest value. The least is as far below 0.
pub const GREATEST_VALUE: i64 = 1000;

/// There are so many values, from the least to the greatest.
pub const DIFFERENT_VALUES: u64 = 2001;

/// Once in so many rounds a landmark is opened, and closed again.
pub const LANDMARK_ROUNDS: u32 = 1000;

/// A round opens a landmark before its value where its place modulo `LANDMARK_ROUNDS` is this.
pub const OPENING_ROUND: u32 = 500;

/// A round closes the landmark after its value where its place modulo `LANDMARK_ROUNDS` is this.
pub const CLOSING_ROUND: u32 = 509;
