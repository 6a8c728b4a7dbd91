// Names, parameters, refusals, and a catalog.
use crate::tables::{Subject, Text, cut, numbers_of, pass, small, test, write};
use ss_catalog::{Catalog, CatalogError, Family, Name, Params, Refusal, StreamId};
use std::test::Fail;

fn write_answer(answer: bool, out: &mut Text) {
    if answer {
        write(b"yes", out);
    } else {
        write(b"no", out);
    }
}

// Whether a word is a name.
pub fn name(word: &[u8], out: &mut Text) {
    write_answer(Name::of(word).is_some(), out);
}

#[test]
fn words_are_names() -> Result<(), Fail> {
    test(
        Subject::Name,
        b"a=yes\n\
        azAZ09_-.=yes\n\
        abcdefghijklmnopqrstuvwxyz012345=yes\n\
        abcdefghijklmnopqrstuvwxyz0123456=no\n\
        =no\n\
        a/b=no\n\
        a b=no\n\
        a\0=no\n\
        @=no\n\
        [=no\n\
        x!=no\n\
        a\x80=no\n",
    )
}

// The parameters of a family: of `exp` three numbers, of `power` four.
fn family_of(kind: &[u8], numbers: [u64; 4]) -> Family {
    if kind == b"exp".as_slice() {
        return Family::Exp {
            b: small(numbers[0]),
            r: small(numbers[1]),
            s: small(numbers[2]),
        };
    }
    Family::Power {
        p: small(numbers[0]),
        q: small(numbers[1]),
        r: small(numbers[2]),
        s: small(numbers[3]),
    }
}

// The parameters of a target, with a step behind a '/' where it has one.
fn params_of(input: &[u8]) -> Params {
    let (target, step) = cut(input, b'/');
    let (kind, numbers) = cut(target, b' ');
    let within = if step.is_empty() {
        None
    } else {
        Some(small(numbers_of(step)[0]))
    };
    Params {
        family: family_of(kind, numbers_of(numbers)),
        within,
    }
}

// Whether parameters are in their ranges.
pub fn params(input: &[u8], out: &mut Text) {
    write_answer(params_of(input).in_range(), out);
}

#[test]
fn parameters_have_their_ranges() -> Result<(), Fail> {
    test(
        Subject::Params,
        "exp 2 1 1=yes\n\
        exp 16 65536 65536=yes\n\
        exp 1 1 1=no\n\
        exp 17 1 1=no\n\
        exp 2 0 1=no\n\
        exp 2 65537 1=no\n\
        exp 2 1 0=no\n\
        exp 2 1 65537=no\n\
        power 1 0 1 1=yes\n\
        power 4 3 65536 65536=yes\n\
        power 0 0 1 1=no\n\
        power 5 0 1 1=no\n\
        power 1 4 1 1=no\n\
        power 1 0 0 1=no\n\
        power 1 0 65537 1=no\n\
        power 1 0 1 0=no\n\
        power 1 0 1 65537=no\n\
        exp 2 1 1/1=yes\n\
        exp 2 1 1/0=no\n\
        exp 1 1 1/1=no\n\
        power 1 0 1 1/4294967295=yes\n\
        power 1 0 1 1/0=no\n\
        power 1 0 0 1/5=no\n"
            .as_bytes(),
    )
}

// The refusals in the order of their numbers.
fn refusal_at(place: u64) -> Refusal {
    match place {
        1 => Refusal::Line,
        2 => Refusal::Syntax,
        3 => Refusal::Number,
        4 => Refusal::Name,
        5 => Refusal::Param,
        6 => Refusal::Exists,
        7 => Refusal::Streams,
        8 => Refusal::Unknown,
        9 => Refusal::Open,
        10 => Refusal::NotOpen,
        11 => Refusal::Time,
        12 => Refusal::Range,
        13 => Refusal::StreamFull,
        14 => Refusal::StoreFull,
        15 => Refusal::Busy,
        16 => Refusal::NoCursor,
        _ => Refusal::Frame,
    }
}

// The name of the refusal at a place.
pub fn refusal(input: &[u8], out: &mut Text) {
    let refusal = refusal_at(numbers_of(input)[0]);
    write(refusal.text().as_bytes(), out);
}

#[test]
fn refusals_have_names() -> Result<(), Fail> {
    test(
        Subject::Refusal,
        "1=LINE\n\
        2=SYNTAX\n\
        3=NUMBER\n\
        4=NAME\n\
        5=PARAM\n\
        6=EXISTS\n\
        7=STREAMS\n\
        8=UNKNOWN\n\
        9=OPEN\n\
        10=NOT_OPEN\n\
        11=TIME\n\
        12=RANGE\n\
        13=STREAM_FULL\n\
        14=STORE_FULL\n\
        15=BUSY\n\
        16=NO_CURSOR\n\
        17=FRAME\n"
            .as_bytes(),
    )
}

// What adding a name under a number answers.
fn add(catalog: &mut Catalog, word: &[u8], number: u32) -> u8 {
    match Name::of(word) {
        None => b'!',
        Some(name) => match catalog.add(name, StreamId(number)) {
            Ok(()) => b'+',
            Err(CatalogError::Exists) => b'-',
            Err(_) => b'?',
        },
    }
}

// The number of a name, and 99 where there is none.
fn find(catalog: &Catalog, word: &[u8]) -> u32 {
    match Name::of(word) {
        None => 100,
        Some(name) => match catalog.find(&name) {
            Some(id) => id.0,
            None => 99,
        },
    }
}

// Whether `room` and `Room` are found as these numbers, and there are so many names.
fn has(catalog: &Catalog, room: u32, large: u32, count: u32) -> bool {
    find(catalog, b"room") == room && find(catalog, b"Room") == large && catalog.len() == count
}

// Adds `room` as 0, `Room` as 7 and `room` as 8. The first step that is wrong.
fn wrong_step(catalog: &mut Catalog) -> Option<u32> {
    if !has(catalog, 99, 99, 0) {
        return Some(0);
    }
    let first = add(catalog, b"room", 0);
    let second = add(catalog, b"Room", 7);
    let third = add(catalog, b"room", 8);
    if first != b'+' || second != b'+' || third != b'-' {
        return Some(1);
    }
    if !has(catalog, 0, 7, 2) {
        return Some(2);
    }
    None
}

// What removing a name answers, and 99 where it is not there.
fn remove(catalog: &mut Catalog, word: &[u8]) -> u32 {
    match Name::of(word) {
        None => 100,
        Some(name) => match catalog.remove(&name) {
            Some(id) => id.0,
            None => 99,
        },
    }
}

// Adds `a`, `room` and `Room`, and removes `room`, `room` again, and `a`. The first step that is wrong.
fn wrong_removal(catalog: &mut Catalog) -> Option<u32> {
    add(catalog, b"a", 3);
    add(catalog, b"room", 4);
    add(catalog, b"Room", 5);
    if remove(catalog, b"room") != 4 || !has(catalog, 99, 5, 2) {
        return Some(0);
    }
    if remove(catalog, b"room") != 99 || !has(catalog, 99, 5, 2) {
        return Some(1);
    }
    if remove(catalog, b"a") != 3 || !has(catalog, 99, 5, 1) {
        return Some(2);
    }
    if add(catalog, b"room", 6) != b'+' || !has(catalog, 6, 5, 2) {
        return Some(3);
    }
    None
}

#[test]
fn names_are_removed_by_their_bytes(rt: HostRuntime) -> Result<(), Fail> {
    let mut catalog = Catalog::new(rt.alloc());
    pass(wrong_removal(&mut catalog))
}

#[test]
fn names_are_found_by_their_bytes(rt: HostRuntime) -> Result<(), Fail> {
    let mut catalog = Catalog::new(rt.alloc());
    pass(wrong_step(&mut catalog))
}
