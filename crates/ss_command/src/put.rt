// Words put after a text.
ghost use Rattle.std.specs.Prelude.{◌≡◌, ◌≤◌, ◌+◌, length};
ghost use Rattle.std.specs.Fmt.{decimal, signed_decimal};
ghost use Rattle.ss_command.specs.Printed.{HasParameters, IsFamilyOfNumbers, IsStepOfNumber, family_words, spaced, target_words, with_word};
ghost use Rattle.ss_command.specs.Printed.{within_words};

use arrayvec::ArrayString;
use ss_catalog::{Family, Params};
use ss_fields::{print_i64, print_i128, print_u64};

/// Adds a space and a number.
pub fn put_number(number: u64, out: &mut ArrayString<256>)
    requires { length out.old.bytes + 41 ≤ 256 }
    ensures bytes { out.new.bytes ≡ with_word out.old.bytes (decimal number) }
    ensures short { length out.new.bytes ≤ length out.old.bytes + 21 }
{
    out.push_str(" ");
    print_u64(number, out);
}

/// Adds a space and a value.
pub fn put_value(value: i64, out: &mut ArrayString<256>)
    requires { length out.old.bytes + 41 ≤ 256 }
    ensures bytes { out.new.bytes ≡ with_word out.old.bytes (signed_decimal value) }
    ensures short { length out.new.bytes ≤ length out.old.bytes + 21 }
{
    out.push_str(" ");
    print_i64(value, out);
}

/// Adds a space and a sum.
pub fn put_sum(sum: i128, out: &mut ArrayString<256>)
    requires { length out.old.bytes + 41 ≤ 256 }
    ensures bytes { out.new.bytes ≡ with_word out.old.bytes (signed_decimal sum) }
    ensures short { length out.new.bytes ≤ length out.old.bytes + 41 }
{
    out.push_str(" ");
    print_i128(sum, out);
}

// Adds a family of lengths, with a space before each of its words.
fn put_family(family: &Family, out: &mut ArrayString<256>)
    requires { length out.old.bytes + 110 ≤ 256 }
    ensures bytes { out.new.bytes ≡ spaced out.old.bytes (family_words family.now) }
    ensures short { length out.new.bytes ≤ length out.old.bytes + 90 }
    ensures parameters { IsFamilyOfNumbers family.now }
{
    match *family {
        Family::Exp { b, r, s } => {
            out.push_str(" exp");
            put_number(u64::from(b), out);
            put_number(u64::from(r), out);
            put_number(u64::from(s), out);
        }
        Family::Power { p, q, r, s } => {
            out.push_str(" power");
            put_number(u64::from(p), out);
            put_number(u64::from(q), out);
            put_number(u64::from(r), out);
            put_number(u64::from(s), out);
        }
    }
}

// Adds a step of the clock, if there is one, with a space before each of its words.
fn put_within(within: Option<u32>, out: &mut ArrayString<256>)
    requires { length out.old.bytes + 48 ≤ 256 }
    ensures bytes { out.new.bytes ≡ spaced out.old.bytes (within_words within) }
    ensures short { length out.new.bytes ≤ length out.old.bytes + 28 }
    ensures step { IsStepOfNumber within }
{
    match within {
        None => {}
        Some(step) => {
            out.push_str(" within");
            put_number(u64::from(step), out);
        }
    }
}

/// Adds a target as `create` takes it, with a space before each of its words.
pub fn put_target(params: &Params, out: &mut ArrayString<256>)
    requires { length out.old.bytes + 138 ≤ 256 }
    ensures bytes { out.new.bytes ≡ spaced out.old.bytes (target_words params.now) }
    ensures short { length out.new.bytes ≤ length out.old.bytes + 118 }
    ensures parameters { HasParameters params.now }
{
    put_family(&params.family, out);
    put_within(params.within, out);
}
