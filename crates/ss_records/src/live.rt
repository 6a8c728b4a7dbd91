// Which slots are live, kept up with what is put.
ghost use Rattle.std.specs.Prelude.{◌≡◌, ◌<◌, length, All};
ghost use Rattle.ss_records.specs.Live.{are_zeros, live_after};

use crate::slot_set::SlotSet;
use ss_journal::Put;

/// Whether the bytes of a slot are zeros.
pub fn are_zeros(bytes: &[u8]) -> bool
    ensures { result ≡ are_zeros bytes.now }
{
    bytes.iter().all(|byte| *byte == 0)
}

// Keeps up with the puts of a transaction.
pub fn note_puts(live: &mut SlotSet, puts: &[Put])
    requires { All (λ put. put.slot < length live.old) puts.now }
    ensures { live.new ≡ live_after puts.now live.old }
{
    for put in puts {
        live.put(put.slot as usize, !are_zeros(&put.bytes));
    }
}
