// Steps over one byte, over four, eight and sixteen at once, by the tables.
ghost use Rattle.std.specs.Prelude.{◌≡◌, ◌+◌, ◌*◌, ◌≤◌};
ghost use Rattle.ss_checksum.specs.Checksum.{after_bits, after_byte, after_bytes};

use crate::tables::TABLES;

// What the steps over four bytes and over so many more leave of a number.
fn after_four_and(more: usize, number: u32) -> u32
    requires { more ≤ 12 }
    ensures { result ≡ after_bits (32 + more * 8) number }
{
    let [one, two, three, four] = number.to_le_bytes();
    TABLES[3 + more][one as usize]
        ^ TABLES[2 + more][two as usize]
        ^ TABLES[1 + more][three as usize]
        ^ TABLES[more][four as usize]
}

// With one more byte.
pub fn with_byte(state: u32, byte: u8) -> u32
    ensures { result ≡ after_byte state byte }
{
    let index = (state ^ u32::from(byte)) & 255;
    TABLES[0][index as usize] ^ (state >> 8)
}

// With four more bytes.
pub fn with_four(state: u32, bytes: &[u8; 4]) -> u32
    ensures { result ≡ after_bytes state bytes.now }
{
    after_four_and(0, state ^ u32::from_le_bytes(*bytes))
}

// With eight more bytes. What the last four leave waits for nothing, so it stands first.
pub fn with_eight(state: u32, front: &[u8; 4], back: &[u8; 4]) -> u32
    ensures { result ≡ after_bytes (after_bytes state front.now) back.now }
{
    after_four_and(0, u32::from_le_bytes(*back))
        ^ after_four_and(4, state ^ u32::from_le_bytes(*front))
}

// With sixteen more bytes. What the last twelve leave waits for nothing, so it stands first.
pub fn with_sixteen(
    state: u32,
    one: &[u8; 4],
    two: &[u8; 4],
    three: &[u8; 4],
    four: &[u8; 4],
) -> u32
    ensures { result ≡ after_bytes (after_bytes (after_bytes (after_bytes state one.now) two.now) three.now) four.now }
{
    after_four_and(0, u32::from_le_bytes(*four))
        ^ after_four_and(4, u32::from_le_bytes(*three))
        ^ after_four_and(8, u32::from_le_bytes(*two))
        ^ after_four_and(12, state ^ u32::from_le_bytes(*one))
}
