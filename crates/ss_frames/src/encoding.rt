// Frames, spelled.
ghost use Rattle.std.specs.Prelude.{◌≡◌, ◌≤◌, [], ◌∷◌, length};
ghost use Rattle.ss_codec.specs.Fields.{u8, u32, u64, text, with_fields};
ghost use Rattle.ss_codec.specs.Record.{parameters};
ghost use Rattle.ss_frames.specs.Frame.{frame_spelled};

use crate::frame::{CLOSE, CONTENT, CREATE, FRAME_SIZE, Frame, NAME, NUMBER, OPEN, STEP, VALUE};
use ss_catalog::{Event, Family, Name};
use ss_codec::{
    family, parameters, step_number, write_i64, write_text, write_u8, write_u32, write_u64,
};

// Writes the fields that every frame has.
fn write_head(bytes: &mut [u8], kind: u8, family: u8, step: u32, name: &Name, number: u64)
    requires { FRAME_SIZE ≤ length bytes.old }
    ensures { bytes.new ≡ with_fields bytes.old (u8 0 kind ∷ u8 1 family ∷ u8 2 (length name.now) ∷ u32 4 step ∷ u64 8 number
        ∷ text 16 name.now ∷ []) }
{
    let word = name.as_bytes();
    write_u8(bytes, 0, kind);
    write_u8(bytes, 1, family);
    write_u8(bytes, 2, word.len() as u8);
    write_u32(bytes, STEP, step);
    write_u64(bytes, NUMBER, number);
    write_text(bytes, NAME, word);
}

// Writes the parameters of a target's family.
fn write_parameters(bytes: &mut [u8], target: &Family)
    requires { FRAME_SIZE ≤ length bytes.old }
    ensures { bytes.new ≡ with_fields bytes.old (u32 48 (parameters target.now).0 ∷ u32 52 (parameters target.now).1
        ∷ u32 56 (parameters target.now).2 ∷ u32 60 (parameters target.now).3 ∷ []) }
{
    let numbers = parameters(target);
    write_u32(bytes, CONTENT, numbers.0);
    write_u32(bytes, CONTENT + 4, numbers.1);
    write_u32(bytes, CONTENT + 8, numbers.2);
    write_u32(bytes, CONTENT + 12, numbers.3);
}

/// The bytes that spell a frame.
#[tactic(auto, unfolding(crate::specs::Frame::frame_spelled))]
pub fn encode_frame(frame: &Frame) -> [u8; FRAME_SIZE]
    ensures { result ≡ frame_spelled frame.now }
{
    let mut bytes = [0; FRAME_SIZE];
    match &frame.event {
        Event::Create { name, params } => {
            let step = step_number(params.within);
            write_head(
                &mut bytes,
                CREATE,
                family(&params.family),
                step,
                name,
                frame.number,
            );
            write_parameters(&mut bytes, &params.family);
        }
        Event::Value { name, t, v } => {
            write_head(&mut bytes, VALUE, 0, 0, name, frame.number);
            write_u64(&mut bytes, CONTENT, *t);
            write_i64(&mut bytes, CONTENT + 8, *v);
        }
        Event::Open { name, t } => {
            write_head(&mut bytes, OPEN, 0, 0, name, frame.number);
            write_u64(&mut bytes, CONTENT, *t);
        }
        Event::Close { name, t } => {
            write_head(&mut bytes, CLOSE, 0, 0, name, frame.number);
            write_u64(&mut bytes, CONTENT, *t);
        }
        Event::Drop { .. } => unreachable!(),
    }
    bytes
}
