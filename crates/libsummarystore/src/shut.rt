// Why a store wasn't opened.
ghost use Rattle.std.specs.Prelude.{◌≤◌, length};

use crate::answer::Why;
use crate::fill::fill;
use ss_program::{Status, complaint};
use ss_store::OpenError;
use std::alloc::Global;

/// Why a store wasn't opened.
#[derive(Clone, Copy, Debug)]
pub enum Shut {
    /// The file isn't formatted, but holds something where records lie.
    Foreign,
    /// The store is plain, and has to be checked.
    Plain,
    /// There was no memory, or opening refused the file.
    Store(OpenError),
}

// The status of a store that wasn't opened. The disk, an image, fails only where there is no memory.
fn status_of(error: OpenError) -> Status {
    match error {
        OpenError::Disk | OpenError::OutOfMemory => Status::OutOfMemory,
        OpenError::Changed { .. } => Status::RecordChanged,
        _ => Status::RefusedStore,
    }
}

/// Puts the words for the number of a stop into the room.
pub fn tell_stop(number: u8, room: &mut [u8]) -> usize
    ensures { result ≤ length room.new }
{
    match complaint(number) {
        Some(words) => fill(words.as_bytes(), room),
        None => 0,
    }
}

// Puts the words for what opening refused into the room.
fn tell_refusal(alloc: Global, error: OpenError, room: &mut [u8]) -> usize
    ensures { result ≤ length room.new }
{
    match format!(in alloc; "{error}") {
        Ok(words) => fill(words.as_bytes(), room),
        Err(_) => fill(b"not a store, or a damaged one", room),
    }
}

impl Shut {
    fn status(self) -> Status {
        match self {
            Shut::Store(error) => status_of(error),
            _ => Status::DiskFault,
        }
    }

    /// What a call answers.
    pub fn why(self) -> Why {
        Why::Stopped(self.status())
    }

    /// Puts what there is to say of it into the room, and answers how many bytes these are.
    pub fn tell(self, alloc: Global, room: &mut [u8]) -> usize
        ensures { result ≤ length room.new }
    {
        match self {
            Shut::Foreign => fill(
                b"isn't formatted, but holds something: refused, and left as it was",
                room,
            ),
            Shut::Plain => fill(b"the store is plain, and a checked one is wanted", room),
            Shut::Store(error) => match status_of(error) {
                Status::RefusedStore => tell_refusal(alloc, error, room),
                status => tell_stop(status.number(), room),
            },
        }
    }
}
