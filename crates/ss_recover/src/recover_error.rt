// Why records don't carry streams.
ghost use Rattle.ss_recover.specs.declared.recover_error.RecoverError.TheVariants.{OutOfMemory};

use std::alloc::AllocError;
use thiserror::Error;

/// Why the streams of some records were not rebuilt. docs/FORMAT.md has what is damaged when.
#[derive(Clone, Copy, Debug, PartialEq, Eq, Error)]
pub enum RecoverError {
    /// The slot is neither free nor a valid record.
    #[error("damaged slot {n}")]
    BadSlot { n: u32 },
    /// The records with this stream number break a condition.
    #[error("damaged stream {id}")]
    BadStream { id: u32 },
    /// The disk failed.
    #[error("the disk failed")]
    Disk,
    /// There was no memory for the streams.
    #[error("out of memory")]
    OutOfMemory,
}

impl From<AllocError> for RecoverError {
    ghost use Rattle.std.specs.Prelude.{◌≡◌};

    ghost from_gives = { λ _ e. e ≡ OutOfMemory };

    fn from(_none: AllocError) -> RecoverError {
        RecoverError::OutOfMemory
    }
}
