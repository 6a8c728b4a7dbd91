// The worked records: each is spelled so and read again, and what differs from them in one byte is no record.
use crate::passing::pass;
use ss_base::SLOT_SIZE;
use ss_codec::{
    Record, decode, decoded_is_what_is_spelled, encode, free_slots_are_zeros, one_spelling,
    spelling_reads_back, which_landmarks_are_valid, which_streams_are_valid,
    which_values_are_valid, which_windows_are_valid,
};
use ss_journal::JournalError;
use std::alloc::{AllocError, Global};
use std::test::Fail;

// The stream `a` with the target `exp 2 1 1` and the number 0.
const STREAM: [u8; 25] = [
    1, 1, 1, 0, 0, 0, 0, 0, 0, 0, 0, 2, 0, 0, 0, 1, 0, 0, 0, 1, 0, 0, 0, 0, 97,
];

// The same once it was dropped.
const DROPPED_STREAM: [u8; 25] = [
    1, 1, 1, 1, 0, 0, 0, 0, 0, 0, 0, 2, 0, 0, 0, 1, 0, 0, 0, 1, 0, 0, 0, 0, 97,
];

// The stream `a` within 86400.
const STREAM_WITHIN: [u8; 60] = [
    1, 1, 1, 0, 0, 0, 0, 0, 0, 0, 0, 2, 0, 0, 0, 1, 0, 0, 0, 1, 0, 0, 0, 0, 97, 0, 0, 0, 0, 0, 0,
    0, 0, 0, 0, 0, 0, 0, 0, 0, 0, 0, 0, 0, 0, 0, 0, 0, 0, 0, 0, 0, 0, 0, 0, 0, 0, 1, 81, 128,
];

// The stream `p` with the target `power 1 1 4 2` and the number 1.
const POWER_STREAM: [u8; 25] = [
    1, 2, 1, 0, 0, 0, 0, 1, 0, 0, 0, 1, 0, 0, 0, 1, 0, 0, 0, 4, 0, 0, 0, 2, 112,
];

// The values 5, -3, 8 and 1 at the times 10, 20, 30 and 40, the first four of stream 0, with a filter that has all bits.
const WINDOW: [u8; 72] = [
    2, 0, 0, 0, 0, 0, 0, 0, 0, 0, 0, 0, 0, 0, 0, 1, 0, 0, 0, 0, 0, 0, 0, 4, 0, 0, 0, 0, 0, 0, 0, 0,
    0, 0, 0, 0, 0, 0, 0, 11, 255, 255, 255, 255, 255, 255, 255, 253, 0, 0, 0, 0, 0, 0, 0, 8, 0, 0,
    0, 0, 0, 0, 0, 10, 0, 0, 0, 0, 0, 0, 0, 40,
];

// The same values with the filter of them alone, and with one that has all bits but one.
const FILTERED_WINDOW: [u8; 104] = [
    2, 1, 0, 0, 0, 0, 0, 0, 0, 0, 0, 0, 0, 0, 0, 1, 0, 0, 0, 0, 0, 0, 0, 4, 0, 0, 0, 0, 0, 0, 0, 0,
    0, 0, 0, 0, 0, 0, 0, 11, 255, 255, 255, 255, 255, 255, 255, 253, 0, 0, 0, 0, 0, 0, 0, 8, 0, 0,
    0, 0, 0, 0, 0, 10, 0, 0, 0, 0, 0, 0, 0, 40, 0, 0, 0, 32, 0, 128, 0, 0, 0, 0, 0, 0, 0, 0, 0, 0,
    0, 0, 0, 0, 64, 0, 0, 0, 0, 2, 0, 0, 0, 0, 0, 0,
];

const ALL_BUT_ONE: [u8; 104] = [
    2, 1, 0, 0, 0, 0, 0, 0, 0, 0, 0, 0, 0, 0, 0, 1, 0, 0, 0, 0, 0, 0, 0, 4, 0, 0, 0, 0, 0, 0, 0, 0,
    0, 0, 0, 0, 0, 0, 0, 11, 255, 255, 255, 255, 255, 255, 255, 253, 0, 0, 0, 0, 0, 0, 0, 8, 0, 0,
    0, 0, 0, 0, 0, 10, 0, 0, 0, 0, 0, 0, 0, 40, 255, 255, 255, 255, 255, 255, 255, 255, 255, 255,
    255, 255, 255, 255, 255, 255, 255, 255, 255, 255, 255, 255, 255, 255, 255, 255, 255, 255, 255,
    255, 255, 254,
];

// The value -1 at the time 10, the first of stream 7.
const ONE_VALUE: [u8; 72] = [
    2, 0, 0, 0, 0, 0, 0, 7, 0, 0, 0, 0, 0, 0, 0, 1, 0, 0, 0, 0, 0, 0, 0, 1, 255, 255, 255, 255,
    255, 255, 255, 255, 255, 255, 255, 255, 255, 255, 255, 255, 255, 255, 255, 255, 255, 255, 255,
    255, 255, 255, 255, 255, 255, 255, 255, 255, 0, 0, 0, 0, 0, 0, 0, 10, 0, 0, 0, 0, 0, 0, 0, 10,
];

// The landmark 1 of stream 0, from 100 to 100, with one value.
const LANDMARK: [u8; 32] = [
    3, 2, 0, 0, 0, 0, 0, 0, 0, 0, 0, 1, 0, 0, 0, 1, 0, 0, 0, 0, 0, 0, 0, 100, 0, 0, 0, 0, 0, 0, 0,
    100,
];

// The same while it is open.
const OPEN_LANDMARK: [u8; 24] = [
    3, 1, 0, 0, 0, 0, 0, 0, 0, 0, 0, 1, 0, 0, 0, 0, 0, 0, 0, 0, 0, 0, 0, 100,
];

// The last landmark of the last stream, with as many values as can be, at the last time.
const LAST_LANDMARK: [u8; 32] = [
    3, 2, 0, 0, 255, 255, 255, 255, 255, 255, 255, 255, 255, 255, 255, 255, 64, 0, 0, 0, 0, 0, 0,
    0, 64, 0, 0, 0, 0, 0, 0, 0,
];

// The value 7 at the time 100, the first of the landmark 1 of stream 0.
const VALUE: [u8; 32] = [
    4, 0, 0, 0, 0, 0, 0, 0, 0, 0, 0, 1, 0, 0, 0, 1, 0, 0, 0, 0, 0, 0, 0, 100, 0, 0, 0, 0, 0, 0, 0,
    7,
];

// The last value of the last landmark of the last stream, at the last time: the greatest, and the least.
const GREATEST_VALUE: [u8; 32] = [
    4, 0, 0, 0, 255, 255, 255, 255, 255, 255, 255, 255, 255, 255, 255, 255, 64, 0, 0, 0, 0, 0, 0,
    0, 127, 255, 255, 255, 255, 255, 255, 255,
];

const LEAST_VALUE: [u8; 32] = [
    4, 0, 0, 0, 255, 255, 255, 255, 255, 255, 255, 255, 255, 255, 255, 255, 64, 0, 0, 0, 0, 0, 0,
    0, 128, 0, 0, 0, 0, 0, 0, 0,
];

// A slot that begins with some bytes and has zeros after them, the text of the record that it holds, and places, each before
// the byte that stands there in a slot without a record.
struct Row {
    bytes: &'static [u8],
    text: &'static str,
    wrong: &'static [u8],
}

const ROWS: [Row; 15] = [
    Row {
        bytes: &STREAM,
        text: "0 a Exp { b: 2, r: 1, s: 1 } None false",
        wrong: &[
            // a kind that isn't there
            0, 5, 0, 0,
            // neither standing nor dropped, a byte that isn't zero where no field is
            3, 2, 3, 255, 127, 1,
            // a family whose fourth parameter isn't 0, and no family
            1, 2, 1, 0,
            // an empty name, one with a byte after its length, of too many, of another letter
            2, 0, 25, 98, 2, 33, 24, 32,
            // a parameter out of range, and a fourth one
            11, 17, 23, 1,
        ],
    },
    Row {
        bytes: &STREAM_WITHIN,
        text: "0 a Exp { b: 2, r: 1, s: 1 } Some(86400) false",
        // a byte that isn't zero where no field is
        wrong: &[55, 1, 60, 1],
    },
    Row {
        bytes: &POWER_STREAM,
        text: "1 p Power { p: 1, q: 1, r: 4, s: 2 } None false",
        // a parameter out of range
        wrong: &[11, 5],
    },
    Row {
        bytes: &DROPPED_STREAM,
        text: "0 a Exp { b: 2, r: 1, s: 1 } None true",
        wrong: &[
            // a kind that isn't there, neither standing nor dropped, a byte that isn't zero where no field is
            0, 5, 3, 2, 127, 1,
            // an empty name, a parameter out of range
            2, 0, 11, 17,
        ],
    },
    Row {
        bytes: &WINDOW,
        text: "Window { id: 0, first: 1, summary: Summary { count: 4, sum: 11, min: -3, max: 8, t_first: 10, t_last: 40, \
            filter: Filter { words: [18446744073709551615, 18446744073709551615, 18446744073709551615, 18446744073709551615] } } }",
        wrong: &[
            // another kind
            0, 1,
            // by words, and neither so nor with all bits; a byte among its words
            1, 1, 1, 2, 72, 1, 103, 1,
            // a byte that isn't zero where no field is
            2, 1, 104, 1, 127, 1,
            // no values, a sum that is too large, before the first position, after the last one
            23, 0, 39, 22, 15, 0, 10, 1,
        ],
    },
    Row {
        bytes: &FILTERED_WINDOW,
        text: "Window { id: 0, first: 1, summary: Summary { count: 4, sum: 11, min: -3, max: 8, t_first: 10, t_last: 40, \
            filter: Filter { words: [137447342080, 0, 1073741824, 562949953421312] } } }",
        wrong: &[
            // with all bits, and neither so nor by words
            1, 0, 1, 2,
            // without the bit of the least value, and without that of the greatest
            75, 0, 97, 0,
            // a byte that isn't zero where no field is
            3, 1, 104, 1, 127, 1,
        ],
    },
    Row {
        bytes: &ALL_BUT_ONE,
        text: "Window { id: 0, first: 1, summary: Summary { count: 4, sum: 11, min: -3, max: 8, t_first: 10, t_last: 40, \
            filter: Filter { words: [18446744073709551615, 18446744073709551615, 18446744073709551615, 18446744073709551614] } } }",
        // all bits by words
        wrong: &[103, 255],
    },
    Row {
        bytes: &ONE_VALUE,
        text: "Window { id: 7, first: 1, summary: Summary { count: 1, sum: -1, min: -1, max: -1, t_first: 10, t_last: 10, \
            filter: Filter { words: [18446744073709551615, 18446744073709551615, 18446744073709551615, 18446744073709551615] } } }",
        // at two times, with another sum, at a time that is too late
        wrong: &[71, 11, 39, 254, 64, 128],
    },
    Row {
        bytes: &LANDMARK,
        text: "Landmark { id: 0, number: 1, values: 1, start: 100, finish: Some(100) }",
        wrong: &[
            // neither open nor closed
            1, 0, 1, 3,
            // open with a closing time
            1, 1,
            // closed before it opens, with the number 0
            31, 99, 11, 0,
            // a byte that isn't zero where no field is
            2, 1, 32, 1,
        ],
    },
    Row {
        bytes: &OPEN_LANDMARK,
        text: "Landmark { id: 0, number: 1, values: 0, start: 100, finish: None }",
        wrong: &[
            // neither open nor closed
            1, 0,
            // with a closing time, and with a value
            31, 100, 15, 1,
            // closed before it opens, with the number 0, too late
            1, 2, 11, 0, 16, 64,
            // a byte that isn't zero where no field is
            127, 1,
        ],
    },
    Row {
        bytes: &LAST_LANDMARK,
        text: "Landmark { id: 4294967295, number: 4294967295, values: 4294967295, start: 4611686018427387904, \
            finish: Some(4611686018427387904) }",
        // too late
        wrong: &[31, 1],
    },
    Row {
        bytes: &VALUE,
        text: "Value { id: 0, number: 1, index: 1, t: 100, v: 7 }",
        wrong: &[
            // a byte that isn't zero where no field is
            1, 1, 32, 1,
            // of the landmark 0, with the index 0, of another kind
            11, 0, 15, 0, 0, 3,
        ],
    },
    Row {
        bytes: &GREATEST_VALUE,
        text: "Value { id: 4294967295, number: 4294967295, index: 4294967295, t: 4611686018427387904, v: 9223372036854775807 }",
        // too late
        wrong: &[23, 1],
    },
    Row {
        bytes: &LEAST_VALUE,
        text: "Value { id: 4294967295, number: 4294967295, index: 4294967295, t: 4611686018427387904, v: -9223372036854775808 }",
        wrong: &[],
    },
    Row {
        bytes: &[],
        text: "Free",
        // a byte that isn't zero
        wrong: &[1, 1, 127, 1],
    },
];

fn slot(bytes: &[u8]) -> [u8; SLOT_SIZE] {
    let mut slot = [0; SLOT_SIZE];
    if bytes.len() <= SLOT_SIZE {
        slot[..bytes.len()].copy_from_slice(bytes);
    }
    slot
}

// The record in a slot, and whether the slot is how it is spelled.
fn read(bytes: &[u8; SLOT_SIZE]) -> Option<(Record, bool)> {
    let record = decode(bytes)?;
    Some((record, encode(&record) == *bytes))
}

// The fields of a record, where a name is its word.
fn text_of(alloc: Global, record: &Record) -> Result<String, AllocError> {
    match record {
        Record::Stream {
            id,
            name,
            params,
            dropped,
        } => {
            let (family, within) = (params.family, params.within);
            format!(in alloc; "{id} {} {family:?} {within:?} {dropped}", name.as_str())
        }
        _ => format!(in alloc; "{record:?}"),
    }
}

fn has_text(alloc: Global, record: &Record, text: &str) -> Result<bool, AllocError> {
    let said = text_of(alloc, record)?;
    Ok(said.as_str() == text)
}

// Whether a row's slot has the record of its text, and is how this is spelled.
fn is_so(alloc: Global, row: &Row) -> Result<bool, AllocError> {
    match read(&slot(row.bytes)) {
        Some((record, true)) => has_text(alloc, &record, row.text),
        _ => Ok(false),
    }
}

// Whether a slot is a record in which another byte stands at a place.
fn is_record(bytes: &[u8], place: u8, byte: u8) -> bool {
    let mut bytes = slot(bytes);
    bytes[usize::from(place) % SLOT_SIZE] = byte;
    read(&bytes).is_some()
}

// Whether each other byte of the row leaves no record.
fn is_none(row: &Row) -> bool {
    let mut place = 0u8;
    for (k, byte) in row.wrong.iter().enumerate() {
        if k % 2 == 0 {
            place = *byte;
        } else if is_record(row.bytes, place, *byte) {
            return false;
        }
    }
    true
}

fn first_wrong(alloc: Global) -> Result<Option<usize>, JournalError> {
    for (k, row) in ROWS.iter().enumerate() {
        if !is_so(alloc, row)? || !is_none(row) {
            return Ok(Some(k));
        }
    }
    Ok(None)
}

#[test]
fn each_record_is_spelled_as_it_is_read_and_another_byte_leaves_none(
    rt: HostRuntime,
) -> Result<(), Fail> {
    pass(first_wrong(rt.alloc()))
}

#[test]
fn laws_are_called() {
    decoded_is_what_is_spelled();
    spelling_reads_back();
    one_spelling();
    free_slots_are_zeros();
    which_streams_are_valid();
    which_windows_are_valid();
    which_landmarks_are_valid();
    which_values_are_valid();
}
