// What is put into a slot.
ghost use Rattle.std.specs.Prelude.{◌≡◌, replicate};

use crate::format::MOST_PUTS;
use arrayvec::ArrayVec;
use ss_base::SLOT_SIZE;

/// Bytes for a slot.
#[derive(Clone, Copy, Debug, PartialEq, Eq)]
pub struct Put {
    /// The number of the slot.
    pub slot: u32,
    /// All of its bytes.
    pub bytes: [u8; SLOT_SIZE],
}

impl Default for Put {
    ghost use Rattle.ss_base.specs.declared.limits.TheConstants.{SLOT_SIZE};

    ghost is_default = { λ put. put ≡ record { slot = 0; bytes = replicate SLOT_SIZE 0 } };

    // Zeros for slot 0.
    fn default() -> Put {
        Put {
            slot: 0,
            bytes: [0; SLOT_SIZE],
        }
    }
}

/// Puts that come to the disk all together or not at all.
pub type Txn = ArrayVec<Put, MOST_PUTS>;
