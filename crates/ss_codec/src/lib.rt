//! Records: what a slot's 128 bytes say, exactly, both ways.
#![tactic(auto)]

mod decoding;
mod encoding;
mod fields;
mod laws;
mod record;

pub use decoding::{decode, params_in};
pub use encoding::{encode, family, parameters, step_number};
pub use fields::{write_i64, write_text, write_u8, write_u32, write_u64};
pub use laws::{
    decoded_is_what_is_spelled, free_slots_are_zeros, one_spelling, spelling_reads_back,
    which_landmarks_are_valid, which_streams_are_valid, which_values_are_valid,
    which_windows_are_valid,
};
pub use record::Record;
