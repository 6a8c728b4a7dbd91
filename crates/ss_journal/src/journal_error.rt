// Why a journal was not opened.
ghost use Rattle.std.specs.Prelude.{◌≡◌};
ghost use Rattle.ss_journal.specs.declared.journal_error.JournalError.TheVariants.{Disk, OutOfMemory};

use ss_outside::Failed;
use std::alloc::AllocError;
use thiserror::Error;

/// Why a journal was not opened. The disk is as it was before.
#[derive(Clone, Copy, Debug, PartialEq, Eq, Error)]
pub enum JournalError {
    /// A call of the disk failed.
    #[error("disk failed")]
    Disk,
    /// The disk holds something else.
    #[error("not a store")]
    NotAStore,
    /// An entry in use is damaged, and no entry before it.
    #[error("damaged entry {n}")]
    BadEntry {
        /// The number of the entry.
        n: u32,
    },
    /// No memory for the entries in use.
    #[error("out of memory")]
    OutOfMemory,
}

impl From<Failed> for JournalError {
    ghost from_gives = { λ _ e. e ≡ Disk };

    fn from(_failed: Failed) -> JournalError {
        JournalError::Disk
    }
}

impl From<AllocError> for JournalError {
    ghost from_gives = { λ _ e. e ≡ OutOfMemory };

    fn from(_none: AllocError) -> JournalError {
        JournalError::OutOfMemory
    }
}
