// Why windows were not read.
ghost use Rattle.std.specs.Prelude.{◌≡◌};
ghost use Rattle.ss_parts.specs.declared.read_error.ReadError.TheVariants.{Disk};

use ss_outside::Failed;
use thiserror::Error;

/// Why a stream was not read.
#[derive(Clone, Copy, Debug, PartialEq, Eq, Error)]
pub enum ReadError {
    /// A call of the disk failed.
    #[error("the disk failed")]
    Disk,
    /// A slot gave other bytes than before. It comes only on a disk that doesn't tell what it holds, as a file.
    #[error("slot {slot} has changed")]
    Changed {
        /// The number of the slot.
        slot: u32,
    },
}

impl From<Failed> for ReadError {
    ghost from_gives = { λ _ e. e ≡ Disk };

    fn from(_failed: Failed) -> ReadError {
        ReadError::Disk
    }
}
