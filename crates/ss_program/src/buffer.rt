// The memory that a read of the input goes into.
ghost use Rattle.std.specs.Prelude.{◌≡◌, length, IfOk};
ghost use Rattle.ss_program.specs.Reading.{most_read};

use ss_arguments::Sealing;
use std::alloc::{AllocError, Global};

/// Where each event is sealed by itself, a read takes at most this many bytes.
pub const MOST_READ: usize = 4096;

/// Where events share seals, a read takes at most this many: what comes in one read is sealed together.
pub const MOST_READ_SHARED: usize = 65_536;

/// A buffer for a read of the input. It takes memory.
pub fn buffer_for(alloc: Global, sealing: Sealing) -> Result<Vec<u8>, AllocError>
    ensures { IfOk result (λ buffer. length buffer.items ≡ most_read sealing) }
{
    let size = match sealing {
        Sealing::Each => MOST_READ,
        Sealing::Shared => MOST_READ_SHARED,
    };
    vec![in alloc; 0; size]
}
