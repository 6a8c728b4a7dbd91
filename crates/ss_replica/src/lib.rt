//! Replicas: stores that are fed by the frames of another.
#![tactic(auto)]

mod framing;
mod judging;
mod laws;
mod numbers;

pub use framing::frame_after;
pub use judging::Due;
pub use laws::{
    events_have_the_next_frames, frames_are_refused_for_room_alone,
    replicas_own_fronts_of_their_primary, streams_own_their_events_since_their_create,
};
pub use numbers::due;
pub use ss_frames::{FRAME_SIZE, Frame, decode_frame, encode_frame};
