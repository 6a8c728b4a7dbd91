// Numbers in bytes, the highest byte first, and signed ones in two's complement.
ghost use Rattle.std.specs.Prelude.{◌≡◌, ◌+◌, ◌≤◌, ◌++◌, length, take, drop};
ghost use Rattle.std.specs.Int.{cast_signed, cast_unsigned, w64, w128};
ghost use Rattle.ss_fields.specs.Fields.{number_at, number_bytes};

use byteorder::{BigEndian, ByteOrder};

/// The number in the 4 bytes from `at`.
#[tactic(auto, unfolding(crate::specs::Fields::number_at))]
pub fn get_u32(bytes: &[u8], at: usize) -> u32
    requires { at + 4 ≤ length bytes.now }
    ensures { result ≡ number_at 4 bytes.now at }
{
    BigEndian::read_u32(&bytes[at..])
}

/// The number in the 8 bytes from `at`.
#[tactic(auto, unfolding(crate::specs::Fields::number_at))]
pub fn get_u64(bytes: &[u8], at: usize) -> u64
    requires { at + 8 ≤ length bytes.now }
    ensures { result ≡ number_at 8 bytes.now at }
{
    BigEndian::read_u64(&bytes[at..])
}

// The number in the 16 bytes from `at`.
#[tactic(auto, unfolding(crate::specs::Fields::number_at))]
fn get_u128(bytes: &[u8], at: usize) -> u128
    requires { at + 16 ≤ length bytes.now }
    ensures { result ≡ number_at 16 bytes.now at }
{
    BigEndian::read_u128(&bytes[at..])
}

/// The signed number in the 8 bytes from `at`.
pub fn get_i64(bytes: &[u8], at: usize) -> i64
    requires { at + 8 ≤ length bytes.now }
    ensures { result ≡ cast_signed w64 (number_at 8 bytes.now at) }
{
    get_u64(bytes, at).cast_signed()
}

/// The signed number in the 16 bytes from `at`.
pub fn get_i128(bytes: &[u8], at: usize) -> i128
    requires { at + 16 ≤ length bytes.now }
    ensures { result ≡ cast_signed w128 (number_at 16 bytes.now at) }
{
    get_u128(bytes, at).cast_signed()
}

/// Writes `value` into the 4 bytes from `at`.
pub fn put_u32(bytes: &mut [u8], at: usize, value: u32)
    requires { at + 4 ≤ length bytes.old }
    ensures { bytes.new ≡ take at bytes.old ++ number_bytes 4 value ++ drop (at + 4) bytes.old }
{
    BigEndian::write_u32(&mut bytes[at..], value);
}

/// Writes `value` into the 8 bytes from `at`.
pub fn put_u64(bytes: &mut [u8], at: usize, value: u64)
    requires { at + 8 ≤ length bytes.old }
    ensures { bytes.new ≡ take at bytes.old ++ number_bytes 8 value ++ drop (at + 8) bytes.old }
{
    BigEndian::write_u64(&mut bytes[at..], value);
}

// Writes `value` into the 16 bytes from `at`.
fn put_u128(bytes: &mut [u8], at: usize, value: u128)
    requires { at + 16 ≤ length bytes.old }
    ensures { bytes.new ≡ take at bytes.old ++ number_bytes 16 value ++ drop (at + 16) bytes.old }
{
    BigEndian::write_u128(&mut bytes[at..], value);
}

/// Writes `value` into the 8 bytes from `at`.
pub fn put_i64(bytes: &mut [u8], at: usize, value: i64)
    requires { at + 8 ≤ length bytes.old }
    ensures { bytes.new ≡ take at bytes.old ++ number_bytes 8 (cast_unsigned w64 value) ++ drop (at + 8) bytes.old }
{
    put_u64(bytes, at, value.cast_unsigned());
}

/// Writes `value` into the 16 bytes from `at`.
pub fn put_i128(bytes: &mut [u8], at: usize, value: i128)
    requires { at + 16 ≤ length bytes.old }
    ensures { bytes.new ≡ take at bytes.old ++ number_bytes 16 (cast_unsigned w128 value) ++ drop (at + 16) bytes.old }
{
    put_u128(bytes, at, value.cast_unsigned());
}
