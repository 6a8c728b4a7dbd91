// The lines of a dump, read. A line is what it spells where that is spelled so again.
ghost use Rattle.std.specs.Prelude.{◌≡◌, ◌≢◌, ◌↔◌, ◌<◌, ◌^◌, ℕ, List, length, Some, IsTrue, IfSome, IfNone};
ghost use Rattle.std.specs.Fmt.{decimal};
ghost use Rattle.hex.specs.Hex.{IsBytes, encode_lower};
ghost use Rattle.ss_base.specs.declared.limits.TheConstants.{SLOT_SIZE};
ghost use Rattle.ss_dump.specs.Dump.{IsRow, end_line, head_line, row_line};
ghost use Rattle.ss_dump.specs.declared.row.Row.{Row};

use crate::Row;
use crate::text::{end_text, head_text, row_text};
use arrayvec::ArrayString;
use ss_base::SLOT_SIZE;
use ss_fields::read_u64;

// How many bytes of a row stand behind its slot.
const BEHIND_SLOT: usize = 267;

// A number of 32 bits.
fn as_small(number: u64) -> Option<u32>
    ensures { number < 2 ^ 32 → result ≡ Some number }
{
    if number <= u64::from(u32::MAX) {
        Some(number as u32)
    } else {
        None
    }
}

// The number that a word spells.
fn read_number(word: &[u8]) -> Option<u32>
    ensures { (n : ℕ) → n < 2 ^ 32 → word.now ≡ decimal n → result ≡ Some n }
{
    match read_u64(word) {
        Ok(number) => as_small(number),
        Err(_) => None,
    }
}

// The record that digits spell.
fn read_record(digits: &[u8]) -> Option<[u8; SLOT_SIZE]>
    ensures { (bytes : List ℕ) → length bytes ≡ SLOT_SIZE → IsBytes bytes → digits.now ≡ encode_lower bytes → result ≡ Some bytes }
{
    let mut bytes = [0; SLOT_SIZE];
    match hex::decode_to_slice(digits, &mut bytes) {
        Ok(()) => Some(bytes),
        Err(_) => None,
    }
}

// The one row whose line this can be.
fn row_read(line: &[u8]) -> Option<Row>
    ensures { (row : Row) → IsRow row → line.now ≡ row_line row → result ≡ Some row }
{
    if line.len() < BEHIND_SLOT {
        return None;
    }
    let end = line.len() - BEHIND_SLOT;
    let slot = read_number(&line[..end])?;
    let rest = &line[end + 1..];
    let bytes = read_record(&rest[..2 * SLOT_SIZE])?;
    Some(Row { slot, bytes })
}

/// The row that a line with its line end spells. None says that it is the line of no row.
pub fn read_row(line: &[u8]) -> Option<Row>
    ensures some { IfSome result (λ row. line.now ≡ row_line row) }
    ensures none { IfNone result ((row : Row) → IsRow row → line.now ≢ row_line row) }
{
    let row = row_read(line)?;
    let mut text = ArrayString::new();
    row_text(&row, &mut text);
    if text.as_str().as_bytes() == line {
        Some(row)
    } else {
        None
    }
}

// The one count whose head this can be.
fn head_read(line: &[u8]) -> Option<u32>
    ensures { (count : ℕ) → count < 2 ^ 32 → line.now ≡ head_line count → result ≡ Some count }
{
    if line.len() < 6 {
        return None;
    }
    let rest = &line[5..];
    read_number(&rest[..rest.len() - 1])
}

/// How many rows a dump has, by its head, a line with its line end. None says that the line is no head.
pub fn read_head(line: &[u8]) -> Option<u32>
    ensures some { IfSome result (λ count. line.now ≡ head_line count) }
    ensures none { IfNone result ((count : ℕ) → count < 2 ^ 32 → line.now ≢ head_line count) }
{
    let count = head_read(line)?;
    let mut text = ArrayString::new();
    head_text(count, &mut text);
    if text.as_str().as_bytes() == line {
        Some(count)
    } else {
        None
    }
}

/// Whether a line with its line end is the end row of so many rows, whose lines have this checksum.
pub fn is_end(line: &[u8], count: u32, sum: u32) -> bool
    ensures { IsTrue result ↔ (line.now ≡ end_line count sum) }
{
    let mut text = ArrayString::new();
    end_text(count, sum, &mut text);
    text.as_str().as_bytes() == line
}
