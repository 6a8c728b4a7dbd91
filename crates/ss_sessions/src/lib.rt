//! Sessions: what the lines of eight sessions mean, and the cursors of these, which give the windows of a stream as they
//! were when the cursor was opened.
#![tactic(auto)]

mod copying;
mod cursor;
mod error;
mod grammar;
mod open_cursors;
mod order;

pub use error::{CursorError, CursorRefusal};
pub use grammar::read_spoken;
pub use open_cursors::OpenCursors;
pub use order::{Order, Spoken};

/// A cursor is asked for at most this many rows at a time.
pub const MOST_ASKED: u32 = 1_000;

/// The byte before the number of a session, in the first word of its lines.
pub const ADDRESS: u8 = b'@';
