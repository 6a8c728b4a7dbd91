// Frames.
ghost use Rattle.std.specs.Prelude.{◌≡◌, ◌&&◌, ◌==◌, nat_le};
ghost use Rattle.ss_catalog.specs.Names.{is_name};
ghost use Rattle.ss_catalog.specs.Params.{in_range};
ghost use Rattle.ss_codec.specs.Record.{has_small_step};
ghost use Rattle.ss_frames.specs.Frame.{is_later, is_valid_frame};

use ss_base::LAST_TIME;
use ss_catalog::{Event, Name, Params};
use ss_codec::step_number;
use std::marker::Model;

/// The bytes of a frame.
pub const FRAME_SIZE: usize = 64;

/// The first byte of the frame of a Create.
pub const CREATE: u8 = 1;

// That of a Value.
pub const VALUE: u8 = 2;

/// The first byte of the frame of an Open.
pub const OPEN: u8 = 3;

/// The first byte of the frame of a Close.
pub const CLOSE: u8 = 4;

/// Where the step of a Create begins.
pub const STEP: usize = 4;

/// Where the number of the event begins.
pub const NUMBER: usize = 8;

/// Where the name of the stream begins.
pub const NAME: usize = 16;

/// Where the parameters of a Create begin, and the time of any other event.
pub const CONTENT: usize = 48;

/// An event of a stream, and its place among the events of that stream since it was created. The Create has the number 1, and
/// each other event a greater one. Every `Frame` is valid (`IsValidFrame`): its name is a name, its parameters are in range and
/// its time is at most `LAST_TIME`. None has a Drop.
#[derive(Clone, Copy, Debug)]
pub struct Frame {
    pub number: u64,
    pub event: Event,
}

impl Model for Frame {
    ghost use Rattle.ss_frames.specs.Frame.{FrameState, IsValidFrame};

    ghost Value = { FrameState };

    ghost view = { λ f. record {
      number = f.number;
      event = f.event;
    } };

    ghost invariant = { λ f. IsValidFrame f.number f.event };

    ghost inverse = { λ s. record {
      number = s.number;
      event = s.event;
    } };
}

// Whether a Create of this stream may have this number.
fn is_first(number: u64, name: &Name, params: &Params) -> bool
    ensures { result ≡ (number == 1 && is_name name.now && in_range params.now && has_small_step params.now) }
{
    // Called for the proof alone, here and below: the bytes of a name are a name, and a step is a number of 32 bits.
    let _word = name.as_bytes();
    let _step = step_number(params.within);
    number == 1 && params.in_range()
}

// Whether an event of this stream after its Create may have this number and this time.
#[tactic(auto, using(std::proofs::lemmas::Bool::Decides::nat_tests))]
fn is_later(number: u64, name: &Name, t: u64) -> bool
    ensures { result ≡ (is_later number && is_name name.now && nat_le t LAST_TIME) }
{
    let _word = name.as_bytes();
    2 <= number && t <= LAST_TIME
}

// Whether an event of this number is one that a frame can have.
#[tactic(auto, unfolding(crate::specs::Frame::is_valid_frame), using(std::proofs::lemmas::Bool::Decides::nat_tests))]
fn is_valid_frame(number: u64, event: &Event) -> bool
    ensures { result ≡ is_valid_frame number event.now }
{
    match event {
        Event::Create { name, params } => is_first(number, name, params),
        Event::Value { name, t, v } => {
            let _value = *v;
            is_later(number, name, *t)
        }
        Event::Open { name, t } => is_later(number, name, *t),
        Event::Close { name, t } => is_later(number, name, *t),
        Event::Drop { .. } => false,
    }
}

impl Frame {
    ghost use Rattle.std.specs.Prelude.{◌≡◌, ◌↔◌, IsSome};
    ghost use Rattle.ss_frames.specs.Frame.{FrameState, IsValidFrame, checked_frame};

    /// The frame of an event with its number, if it is a valid one.
    pub fn of(number: u64, event: Event) -> Option<Frame>
        ensures valid { IsSome result ↔ IsValidFrame number event }
        ensures exact { result ≡ checked_frame (record { number = number; event = event }) }
    {
        if is_valid_frame(number, &event) {
            Some(Frame { number, event })
        } else {
            None
        }
    }
}
