// Fields, written at their places.
#![tactic(auto, unfolding(crate::specs::Fields::with_field))]

ghost use Rattle.std.specs.Prelude.{◌≡◌, ◌+◌, ◌<◌, ◌≤◌, length};
ghost use Rattle.ss_codec.specs.Fields.{with_field, u8, u32, u64, i64, i128, text};

/// Writes a byte.
pub fn write_u8(bytes: &mut [u8], place: usize, value: u8)
    requires { place < length bytes.old }
    ensures { bytes.new ≡ with_field bytes.old (u8 place value) }
{
    bytes[place] = value;
}

/// Writes a number of 4 bytes.
pub fn write_u32(bytes: &mut [u8], place: usize, value: u32)
    requires { place + 4 ≤ length bytes.old }
    ensures { bytes.new ≡ with_field bytes.old (u32 place value) }
{
    ss_fields::put_u32(bytes, place, value);
}

/// Writes a number of 8 bytes.
pub fn write_u64(bytes: &mut [u8], place: usize, value: u64)
    requires { place + 8 ≤ length bytes.old }
    ensures { bytes.new ≡ with_field bytes.old (u64 place value) }
{
    ss_fields::put_u64(bytes, place, value);
}

/// Writes a signed number of 8 bytes.
pub fn write_i64(bytes: &mut [u8], place: usize, value: i64)
    requires { place + 8 ≤ length bytes.old }
    ensures { bytes.new ≡ with_field bytes.old (i64 place value) }
{
    ss_fields::put_i64(bytes, place, value);
}

// Writes a signed number of 16 bytes.
pub fn write_i128(bytes: &mut [u8], place: usize, value: i128)
    requires { place + 16 ≤ length bytes.old }
    ensures { bytes.new ≡ with_field bytes.old (i128 place value) }
{
    ss_fields::put_i128(bytes, place, value);
}

/// Writes a text.
pub fn write_text(bytes: &mut [u8], place: usize, value: &[u8])
    requires { place + length value.now ≤ length bytes.old }
    ensures { bytes.new ≡ with_field bytes.old (text place value.now) }
{
    bytes[place..place + value.len()].copy_from_slice(value);
}
