// Why calls of a store fail.
ghost use Rattle.std.specs.Prelude.{◌≡◌};
ghost use Rattle.ss_store.specs.Errors.{apply_of_fault, ask_of_fault, open_of_fault, open_of_journal, open_of_recover};
ghost use Rattle.ss_store.specs.declared.error.OpenError.TheVariants.{Disk, OutOfMemory};

use ss_catalog::Refusal;
use ss_journal::JournalError;
use ss_outside::Failed;
use ss_parts::ReadError;
use ss_recover::RecoverError;
use std::alloc::AllocError;
use thiserror::Error;

/// Why a store was not opened. At all but `Disk` and `Changed` nothing was written. docs/FORMAT.md has what is damaged when.
#[derive(Clone, Copy, Debug, PartialEq, Eq, Error)]
pub enum OpenError {
    /// A call of the disk failed.
    #[error("the disk failed")]
    Disk,
    /// The disk holds something else.
    #[error("not a store")]
    NotAStore,
    /// An entry in use is damaged, and no entry before it.
    #[error("damaged entry {n}")]
    BadEntry { n: u32 },
    /// The slot is neither free nor a valid record.
    #[error("damaged slot {n}")]
    BadSlot { n: u32 },
    /// The records with this stream number break a condition.
    #[error("damaged stream {id}")]
    BadStream { id: u32 },
    /// There was no memory for the streams.
    #[error("out of memory")]
    OutOfMemory,
    /// A slot gave other bytes than before. It comes only on a disk that doesn't tell what it holds, as a file.
    #[error("slot {slot} has changed")]
    Changed { slot: u32 },
}

/// Why an event was not applied.
#[derive(Clone, Copy, Debug, PartialEq, Eq, Error)]
pub enum ApplyError {
    /// The event is refused: nothing has changed, and the disk was not called.
    #[error("refused: {0}", .0.text())]
    Refused(Refusal),
    /// A call of the disk failed. The store has stopped: open it again.
    #[error("the disk failed")]
    Disk,
    /// An earlier call of this store answered `Disk` or `Changed`. The disk was not called.
    #[error("the store has stopped")]
    Stopped,
    /// There was no memory for it: nothing has changed, and the disk was not called.
    #[error("out of memory")]
    OutOfMemory,
    /// A slot gave other bytes than before. It comes only on a disk that doesn't tell what it holds, as a file. The store
    /// has stopped.
    #[error("slot {slot} has changed")]
    Changed { slot: u32 },
}

/// Why a store was not read.
#[derive(Clone, Copy, Debug, PartialEq, Eq, Error)]
pub enum AskError {
    /// The query is refused: the disk was not called.
    #[error("refused: {0}", .0.text())]
    Refused(Refusal),
    /// A call of the disk failed. The store has stopped: open it again.
    #[error("the disk failed")]
    Disk,
    /// An earlier call of this store answered `Disk` or `Changed`. The disk was not called.
    #[error("the store has stopped")]
    Stopped,
    /// A slot gave other bytes than before. It comes only on a disk that doesn't tell what it holds, as a file. The store
    /// has stopped.
    #[error("slot {slot} has changed")]
    Changed { slot: u32 },
}

impl From<JournalError> for OpenError {
    ghost from_gives = { λ error e. e ≡ open_of_journal error };

    fn from(error: JournalError) -> OpenError {
        match error {
            JournalError::Disk => OpenError::Disk,
            JournalError::NotAStore => OpenError::NotAStore,
            JournalError::BadEntry { n } => OpenError::BadEntry { n },
            JournalError::OutOfMemory => OpenError::OutOfMemory,
        }
    }
}

impl From<RecoverError> for OpenError {
    ghost from_gives = { λ error e. e ≡ open_of_recover error };

    fn from(error: RecoverError) -> OpenError {
        match error {
            RecoverError::BadSlot { n } => OpenError::BadSlot { n },
            RecoverError::BadStream { id } => OpenError::BadStream { id },
            RecoverError::Disk => OpenError::Disk,
            RecoverError::OutOfMemory => OpenError::OutOfMemory,
        }
    }
}

impl From<AllocError> for OpenError {
    ghost from_gives = { λ _ e. e ≡ OutOfMemory };

    fn from(_none: AllocError) -> OpenError {
        OpenError::OutOfMemory
    }
}

impl From<Failed> for OpenError {
    ghost from_gives = { λ _ e. e ≡ Disk };

    fn from(_failed: Failed) -> OpenError {
        OpenError::Disk
    }
}

impl From<ReadError> for OpenError {
    ghost from_gives = { λ fault e. e ≡ open_of_fault fault };

    fn from(fault: ReadError) -> OpenError {
        match fault {
            ReadError::Disk => OpenError::Disk,
            ReadError::Changed { slot } => OpenError::Changed { slot },
        }
    }
}

impl From<ReadError> for ApplyError {
    ghost from_gives = { λ fault e. e ≡ apply_of_fault fault };

    fn from(fault: ReadError) -> ApplyError {
        match fault {
            ReadError::Disk => ApplyError::Disk,
            ReadError::Changed { slot } => ApplyError::Changed { slot },
        }
    }
}

impl From<ReadError> for AskError {
    ghost from_gives = { λ fault e. e ≡ ask_of_fault fault };

    fn from(fault: ReadError) -> AskError {
        match fault {
            ReadError::Disk => AskError::Disk,
            ReadError::Changed { slot } => AskError::Changed { slot },
        }
    }
}
