// Numbers as text and as bytes.
use crate::tables::{Subject, Text, numbers_of, small, test, write, write_number};
use arrayvec::ArrayString;
use ss_fields::{
    NumberError, get_i64, get_i128, get_u32, get_u64, print_i64, print_i128, print_u64, put_i64,
    put_i128, put_u32, put_u64, read_i64, read_u64,
};
use std::fmt::Write;
use std::test::Fail;

fn write_error(error: NumberError, out: &mut Text) {
    let mut text: ArrayString<256> = ArrayString::new();
    let _ = write!(text, "{error}");
    write(text.as_str().as_bytes(), out);
}

// What a word reads as without sign, printed after no text and after one, or why it doesn't.
pub fn unsigned(word: &[u8], out: &mut Text) {
    match read_u64(word) {
        Ok(value) => {
            let mut text = ArrayString::new();
            print_u64(value, &mut text);
            write(text.as_str().as_bytes(), out);
            text.clear();
            text.push(' ');
            print_u64(value, &mut text);
            write(text.as_str().as_bytes(), out);
        }
        Err(error) => write_error(error, out),
    }
}

#[test]
fn words_read_as_numbers_without_sign() -> Result<(), Fail> {
    test(
        Subject::Unsigned,
        "0=0 0\n\
        007=7 7\n\
        18446744073709551615=18446744073709551615 18446744073709551615\n\
        18446744073709551616=number out of range\n\
        0000000000000000000000000000005=5 5\n\
        =not a number\n\
        +5=not a number\n\
        -5=not a number\n\
        5 =not a number\n\
        5x=not a number\n\
        99999999999999999999999x=not a number\n"
            .as_bytes(),
    )
}

// What a word reads as with its sign, printed after no text and after one, or why it doesn't.
pub fn signed(word: &[u8], out: &mut Text) {
    match read_i64(word) {
        Ok(value) => {
            let mut text = ArrayString::new();
            print_i64(value, &mut text);
            write(text.as_str().as_bytes(), out);
            text.clear();
            text.push(' ');
            print_i64(value, &mut text);
            write(text.as_str().as_bytes(), out);
        }
        Err(error) => write_error(error, out),
    }
}

#[test]
fn words_read_as_signed_numbers() -> Result<(), Fail> {
    test(
        Subject::Signed,
        "-9223372036854775808=-9223372036854775808 -9223372036854775808\n\
        9223372036854775807=9223372036854775807 9223372036854775807\n\
        -1=-1 -1\n\
        9223372036854775808=number out of range\n\
        -9223372036854775809=number out of range\n\
        --5=not a number\n\
        -=not a number\n\
        +5=not a number\n\
        -0=0 0\n"
            .as_bytes(),
    )
}

fn write_wide(value: i128, out: &mut Text) {
    let mut text = ArrayString::new();
    text.push('z');
    print_i128(value, &mut text);
    write(text.as_str().as_bytes(), out);
}

// The least or the greatest wide number after a 'z'.
pub fn wide(word: &[u8], out: &mut Text) {
    if word == b"least".as_slice() {
        write_wide(i128::MIN, out);
    } else {
        write_wide(i128::MAX, out);
    }
}

#[test]
fn wide_numbers_print_after_a_text() -> Result<(), Fail> {
    test(
        Subject::Wide,
        "least=z-170141183460469231731687303715884105728\n\
        greatest=z170141183460469231731687303715884105727\n"
            .as_bytes(),
    )
}

fn write_bytes(bytes: &[u8], out: &mut Text) {
    for byte in bytes {
        write_number(u64::from(*byte), out);
        write(b" ", out);
    }
}

// A field among other bytes, and what is read of it.
pub fn field_of_u32(word: &[u8], out: &mut Text) {
    let mut bytes = [9; 6];
    put_u32(&mut bytes, 1, small(numbers_of(word)[0]));
    write_bytes(&bytes, out);
    write_number(u64::from(get_u32(&bytes, 1)), out);
}

pub fn field_of_u64(word: &[u8], out: &mut Text) {
    let mut bytes = [0; 9];
    put_u64(&mut bytes, 1, numbers_of(word)[0]);
    write_bytes(&bytes, out);
    write_number(get_u64(&bytes, 1), out);
}

pub fn field_of_i64(word: &[u8], out: &mut Text) {
    let mut bytes = [0; 8];
    if let Ok(value) = read_i64(word) {
        put_i64(&mut bytes, 0, value);
    }
    write_bytes(&bytes, out);
    write_wide(i128::from(get_i64(&bytes, 0)), out);
}

pub fn field_of_i128(word: &[u8], out: &mut Text) {
    let mut bytes = [9; 16];
    put_i128(&mut bytes, 0, i128::from(numbers_of(word)[0]));
    write_bytes(&bytes, out);
    write_wide(get_i128(&bytes, 0), out);
}

// The bytes around and of a field, and what is read of it. The first number is 0x01020304, and the second 0x0102030405060708.
#[test]
fn fields_are_written_and_read() -> Result<(), Fail> {
    test(
        Subject::FieldOfU32,
        "16909060=9 1 2 3 4 9 16909060\n".as_bytes(),
    )?;
    test(
        Subject::FieldOfU64,
        "72623859790382856=0 1 2 3 4 5 6 7 8 72623859790382856\n".as_bytes(),
    )?;
    test(
        Subject::FieldOfI64,
        "-3=255 255 255 255 255 255 255 253 z-3\n".as_bytes(),
    )?;
    test(
        Subject::FieldOfI128,
        "11=0 0 0 0 0 0 0 0 0 0 0 0 0 0 0 11 z11\n".as_bytes(),
    )
}
