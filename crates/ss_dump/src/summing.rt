// The checksum of bytes that come one after the other.
ghost use Rattle.std.specs.Prelude.{◌≡◌, ◌++◌, ℕ, List, bit_xor};
ghost use Rattle.ss_checksum.specs.Checksum.{after_bit, after_bits, after_bytes, checksum};

use ss_checksum::checksum;

// The generator below x^32, its highest coefficient at the lowest bit.
const GENERATOR: u32 = 0x82f6_3b78;

// The number from which one step leads to this one.
fn before_bit(state: u32) -> u32
    ensures { after_bit result ≡ state }
{
    if state >= 1 << 31 {
        (state ^ GENERATOR) * 2 + 1
    } else {
        state * 2
    }
}

// The four bytes, as a number, that lead a checksum from its start to a state.
fn front_of(state: u32) -> u32
    ensures { after_bits 32 (bit_xor u32.MAX result) ≡ state }
{
    let mut word = state;
    for _ in 0..32u32 {
        word = before_bit(word);
    }
    word ^ u32::MAX
}

/// The checksum of some bytes and of others behind them, by that of the first.
pub fn further(sum: u32, bytes: &[u8]) -> u32
    ensures { (front : List ℕ) → sum ≡ checksum front → result ≡ checksum (front ++ bytes.now) }
{
    let front = front_of(sum ^ u32::MAX).to_le_bytes();
    checksum(&front, bytes)
}
