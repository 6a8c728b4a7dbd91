// Numbers as decimal text.
ghost use Rattle.std.specs.Prelude.{◌≡◌, ◌+◌, ◌≤◌, ◌++◌, length};
ghost use Rattle.std.specs.Fmt.{decimal, signed_decimal};

use arrayvec::ArrayString;
use itoa::Buffer;

/// The most bytes that the decimal text of a number takes.
pub const LONGEST_PRINTED_NUMBER: usize = 40;

/// Appends `value` as decimal text.
pub fn print_u64(value: u64, out: &mut ArrayString<256>)
    requires { length out.old.bytes + LONGEST_PRINTED_NUMBER ≤ 256 }
    ensures { out.new.bytes ≡ out.old.bytes ++ decimal value }
{
    out.push_str(Buffer::new().format::<u64>(value));
}

/// Appends `value` as decimal text.
pub fn print_i64(value: i64, out: &mut ArrayString<256>)
    requires { length out.old.bytes + LONGEST_PRINTED_NUMBER ≤ 256 }
    ensures { out.new.bytes ≡ out.old.bytes ++ signed_decimal value }
{
    out.push_str(Buffer::new().format::<i64>(value));
}

/// Appends `value` as decimal text.
pub fn print_i128(value: i128, out: &mut ArrayString<256>)
    requires { length out.old.bytes + LONGEST_PRINTED_NUMBER ≤ 256 }
    ensures { out.new.bytes ≡ out.old.bytes ++ signed_decimal value }
{
    out.push_str(Buffer::new().format::<i128>(value));
}
