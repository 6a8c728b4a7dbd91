//! Frames: an event of a stream with its number, as 64 bytes, exactly, both ways, and how an input is cut into pieces of that size.
#![tactic(auto)]

mod decoding;
mod encoding;
mod frame;
mod laws;
mod piece_reader;

pub use decoding::{decode_frame, decode_piece};
pub use encoding::encode_frame;
pub use frame::{CLOSE, CONTENT, CREATE, FRAME_SIZE, Frame, NAME, NUMBER, OPEN, STEP};
pub use laws::{
    decoded_is_what_is_spelled, frames_are_cut_apart, one_spelling, other_lengths_spell_nothing,
    pieces_give_the_input_back, pieces_have_the_size_of_a_frame, spelling_reads_back,
    spellings_have_one_size,
};
pub use piece_reader::PieceReader;
