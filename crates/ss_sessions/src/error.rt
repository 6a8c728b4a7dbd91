// Why a cursor is not opened.
ghost use Rattle.std.specs.Prelude.{◌≡◌};
ghost use Rattle.ss_sessions.specs.Errors.{refusal_of};
ghost use Rattle.ss_sessions.specs.declared.error.CursorError.TheVariants.{OutOfMemory};

use ss_catalog::Refusal;
use std::alloc::AllocError;
use thiserror::Error;

/// Why a cursor is refused. The first of these that applies is the answer, in this order.
#[derive(Clone, Copy, Debug, PartialEq, Eq)]
pub enum CursorRefusal {
    /// No stream of this name stands.
    Unknown,
    /// The session has a cursor already.
    Busy,
}

impl CursorRefusal {
    /// It as a refusal of a line.
    pub fn refusal(self) -> Refusal
        ensures { result ≡ refusal_of self }
    {
        match self {
            CursorRefusal::Unknown => Refusal::Unknown,
            CursorRefusal::Busy => Refusal::Busy,
        }
    }
}

/// Why a cursor was not opened. Each leaves the sessions as they were.
#[derive(Clone, Copy, Debug, PartialEq, Eq, Error)]
pub enum CursorError {
    /// The cursor is refused: the disk was not called.
    #[error("refused: {0}", .0.refusal().text())]
    Refused(CursorRefusal),
    /// A call of the disk failed. The store has stopped: open it again.
    #[error("the disk failed")]
    Disk,
    /// A slot gave other bytes than before. It comes only on a disk that doesn't tell what it holds, as a file. The store
    /// has stopped.
    #[error("slot {slot} has changed")]
    Changed { slot: u32 },
    /// There was no memory for the rows: the disk was not called.
    #[error("out of memory")]
    OutOfMemory,
}

impl From<AllocError> for CursorError {
    ghost from_gives = { λ _ e. e ≡ OutOfMemory };

    fn from(_none: AllocError) -> CursorError {
        CursorError::OutOfMemory
    }
}
