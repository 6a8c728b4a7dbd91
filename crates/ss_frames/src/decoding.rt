// Frames, read.
ghost use Rattle.std.specs.Prelude.{◌≡◌, IfSome, IfNone};
ghost use Rattle.ss_frames.specs.Frame.{FrameState, SpellsFrame, checked_frame, event_in, frame_in, frame_read, name_in};

use crate::encoding::encode_frame;
use crate::frame::{CLOSE, CONTENT, CREATE, FRAME_SIZE, Frame, NAME, NUMBER, OPEN, STEP, VALUE};
use ss_catalog::{Event, LONGEST_NAME, Name};
use ss_codec::params_in;
use ss_fields::{get_i64, get_u64};

// The event in the bytes of a frame, whose name was read.
#[tactic(auto, unfolding(crate::specs::Frame::event_in))]
fn event_in(bytes: &[u8; FRAME_SIZE], name: Name) -> Event
    requires { name ≡ name_in bytes.now }
    ensures { result ≡ event_in bytes.now }
{
    match bytes[0] {
        CREATE => Event::Create {
            name,
            params: params_in(bytes, CONTENT, STEP),
        },
        VALUE => Event::Value {
            name,
            t: get_u64(bytes, CONTENT),
            v: get_i64(bytes, CONTENT + 8),
        },
        OPEN => Event::Open {
            name,
            t: get_u64(bytes, CONTENT),
        },
        CLOSE => Event::Close {
            name,
            t: get_u64(bytes, CONTENT),
        },
        _ => Event::Drop { name },
    }
}

// The one frame whose spelling the bytes can be, if it is a valid one.
fn frame_read(bytes: &[u8; FRAME_SIZE]) -> Option<Frame>
    ensures { result ≡ checked_frame (frame_read bytes.now) }
{
    let length = usize::from(bytes[2]);
    if length > LONGEST_NAME {
        return None;
    }
    let name = Name::of(&bytes[NAME..NAME + length])?;
    Frame::of(get_u64(bytes, NUMBER), event_in(bytes, name))
}

/// The frame that the bytes spell. None says that they are the spelling of no valid frame.
#[tactic(auto, unfolding(crate::specs::Frame::frame_in))]
pub fn decode_frame(bytes: &[u8; FRAME_SIZE]) -> Option<Frame>
    ensures some { IfSome result (λ f. SpellsFrame bytes.now f) }
    ensures none { IfNone result ((f : FrameState) → ¬ SpellsFrame bytes.now f) }
    ensures exact { result ≡ frame_in bytes.now }
{
    let frame = frame_read(bytes)?;
    if encode_frame(&frame) == *bytes {
        Some(frame)
    } else {
        None
    }
}

/// The frame that a piece of an input spells. One that isn't as long as a frame spells none.
pub fn decode_piece(piece: &[u8]) -> Option<Frame>
    ensures some { IfSome result (λ f. SpellsFrame piece.now f) }
    ensures none { IfNone result ((f : FrameState) → ¬ SpellsFrame piece.now f) }
    ensures exact { result ≡ frame_in piece.now }
{
    match piece.try_into() {
        Ok(bytes) => decode_frame(bytes),
        Err(_) => None,
    }
}
