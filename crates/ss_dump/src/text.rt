// The lines of a dump.
ghost use Rattle.std.specs.Prelude.{◌≡◌, ◌+◌, ◌≤◌, [], ◌∷◌, ◌++◌, length};
ghost use Rattle.std.specs.Fmt.{decimal};
ghost use Rattle.std.specs.Str.{IsUtf8};
ghost use Rattle.hex.specs.Hex.{encode_lower};
ghost use Rattle.ss_dump.specs.Dump.{end_line, head_line, row_front, row_line, sum_word};

use crate::Row;
use arrayvec::ArrayString;
use ss_base::SLOT_SIZE;
use ss_checksum::checksum;
use ss_fields::{print_u64, put_u32};

// The digits of a checksum.
fn sum_digits(sum: u32) -> [u8; 8]
    ensures { result ≡ sum_word sum }
{
    let mut bytes = [0; 4];
    put_u32(&mut bytes, 0, sum);
    let mut digits = [0; 8];
    if hex::encode_to_slice(&bytes, &mut digits).is_err() {
        unreachable!();
    }
    digits
}

// The digits of a record.
fn record_digits(bytes: &[u8; SLOT_SIZE]) -> [u8; 2 * SLOT_SIZE]
    ensures { result ≡ encode_lower bytes.now }
{
    let mut digits = [0; 2 * SLOT_SIZE];
    if hex::encode_to_slice(bytes, &mut digits).is_err() {
        unreachable!();
    }
    digits
}

// Adds digits.
fn put_digits(digits: &[u8], out: &mut ArrayString<288>)
    requires room { length out.old.bytes + length digits.now ≤ 288 }
    requires text { IsUtf8 digits.now }
    ensures { out.new.bytes ≡ out.old.bytes ++ digits.now }
{
    match str::from_utf8(digits) {
        Ok(word) => out.push_str(word),
        Err(_) => unreachable!(),
    }
}

// Adds a number.
fn put_number(number: u64, out: &mut ArrayString<288>)
    requires { length out.old.bytes + 20 ≤ 288 }
    ensures bytes { out.new.bytes ≡ out.old.bytes ++ decimal number }
    ensures short { length out.new.bytes ≤ length out.old.bytes + 20 }
{
    let mut word = ArrayString::new();
    print_u64(number, &mut word);
    out.push_str(word.as_str());
}

// Adds a space and a checksum, and ends the line.
fn put_sum(sum: u32, out: &mut ArrayString<288>)
    requires { length out.old.bytes + 10 ≤ 288 }
    ensures { out.new.bytes ≡ out.old.bytes ++ 32 ∷ sum_word sum ++ 10 ∷ [] }
{
    let digits = sum_digits(sum);
    out.push_str(" ");
    put_digits(&digits, out);
    out.push_str("\n");
}

// Writes the front of a row into an empty text.
fn put_front(row: &Row, out: &mut ArrayString<288>)
    requires { out.old.bytes ≡ [] }
    ensures bytes { out.new.bytes ≡ row_front row.now }
    ensures short { length out.new.bytes ≤ 277 }
{
    let digits = record_digits(&row.bytes);
    put_number(u64::from(row.slot), out);
    out.push_str(" ");
    put_digits(&digits, out);
}

/// Writes the line of a row, with its line end, into an empty text.
pub fn row_text(row: &Row, out: &mut ArrayString<288>)
    requires { out.old.bytes ≡ [] }
    ensures { out.new.bytes ≡ row_line row.now }
{
    put_front(row, out);
    let sum = checksum(out.as_str().as_bytes(), &[]);
    put_sum(sum, out);
}

/// Writes the head of a dump of so many rows, with its line end, into an empty text.
pub fn head_text(count: u32, out: &mut ArrayString<288>)
    requires { out.old.bytes ≡ [] }
    ensures { out.new.bytes ≡ head_line count }
{
    out.push_str("dump ");
    put_number(u64::from(count), out);
    out.push_str("\n");
}

/// Writes the end row of so many rows, whose lines have this checksum, with its line end, into an empty text.
pub fn end_text(count: u32, sum: u32, out: &mut ArrayString<288>)
    requires { out.old.bytes ≡ [] }
    ensures { out.new.bytes ≡ end_line count sum }
{
    out.push_str("end ");
    put_number(u64::from(count), out);
    put_sum(sum, out);
}
