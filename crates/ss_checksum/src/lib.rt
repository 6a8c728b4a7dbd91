//! CRC-32C, as RFC 3720 gives it, and what changes of bytes it tells for sure.
#![tactic(auto)]

mod laws;
mod steps;
mod tables;
mod walking;

pub use laws::{bursts_are_told, few_bits_are_told, fronts_are_told};
pub use walking::checksum;
