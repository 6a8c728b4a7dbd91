// The puts of transactions.
ghost use Rattle.std.specs.Prelude.{◌≡◌, ◌+◌, ◌<◌, ◌≤◌, ◌^◌, ℕ, IsTrue};
ghost use Rattle.ss_journal.specs.Puts.{IsTxn, slots_fit};
ghost use Rattle.bench_calls.specs.Puts.{puts_from};

use ss_journal::{Put, Txn};

/// Puts into so many slots from the first on, each filled with the byte.
pub fn txn_of(first: u32, puts: u32, byte: u8) -> Txn
    requires some { 0 < puts }
    requires few { puts ≤ 4 }
    requires slots { first + puts ≤ 2 ^ 20 }
    ensures puts { result.items ≡ puts_from first puts byte }
    ensures txn { IsTxn result.items }
    ensures fit { (extent : ℕ) → first ≤ extent → IsTrue (slots_fit result.items extent) }
{
    let mut txn = Txn::new();
    for k in 0..puts {
        txn.push(Put {
            slot: first + k,
            bytes: [byte; 128],
        });
    }
    txn
}
