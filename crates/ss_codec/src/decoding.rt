// Records, read.
ghost use Rattle.std.specs.Prelude.{◌≡◌, ◌≢◌, ◌+◌, ◌-◌, ◌*◌, ◌&&◌, ◌==◌, ◌≤◌, length, drop, take, nat_le, slice_index, IfSome, IfNone, if◌then◌else◌};
ghost use Rattle.std.specs.List.{list_all};
ghost use Rattle.ss_summary.specs.Possible.{is_possible};
ghost use Rattle.ss_catalog.specs.Params.{step_for};
ghost use Rattle.ss_codec.specs.Record.{Spells, counts_from_1, is_interval};
ghost use Rattle.ss_codec.specs.Decoded.{checked, decoded, family_in, figures_in, filter_in, finish_in, is_blank_beside, is_filter_spelled, landmark_in};
ghost use Rattle.ss_codec.specs.Decoded.{params_in, record_in, stream_in, value_in, window_in};

use crate::encoding::{encode, is_full};
use crate::record::{
    ALL_BITS, BY_WORDS, CLOSED, DROPPED, EXPONENTIAL, LANDMARK, NAME, Record, STEP, STREAM, VALUE,
    WINDOW,
};
use ss_base::{LAST_TIME, MOST_VALUES, SLOT_SIZE};
use ss_catalog::{Family, LONGEST_NAME, Name, Params};
use ss_fields::{get_i64, get_i128, get_u32, get_u64};
use ss_summary::{Filter, Summary};

// The family in some bytes: byte 1 says which it is, and from `place` on stand its numbers.
fn family_in(bytes: &[u8], place: usize) -> Family
    requires { place + 16 ≤ length bytes.now }
    ensures { result ≡ family_in place bytes.now }
{
    let first = get_u32(bytes, place);
    let second = get_u32(bytes, place + 4);
    let third = get_u32(bytes, place + 8);
    if bytes[1] == EXPONENTIAL {
        Family::Exp {
            b: first,
            r: second,
            s: third,
        }
    } else {
        Family::Power {
            p: first,
            q: second,
            r: third,
            s: get_u32(bytes, place + 12),
        }
    }
}

// The step that a number stands for, none for 0.
fn step_for(number: u32) -> Option<u32>
    ensures { result ≡ step_for number }
{
    if number == 0 { None } else { Some(number) }
}

/// The parameters in some bytes: byte 1 says their family, from `place` on stand its numbers, and at `step` the step.
#[tactic(auto, unfolding(crate::specs::Decoded::params_in))]
pub fn params_in(bytes: &[u8], place: usize, step: usize) -> Params
    requires numbers { place + 16 ≤ length bytes.now }
    requires step { step + 4 ≤ length bytes.now }
    ensures { result ≡ params_in place step bytes.now }
{
    Params {
        family: family_in(bytes, place),
        within: step_for(get_u32(bytes, step)),
    }
}

// The stream's record in the bytes, if it is a valid one.
#[tactic(auto, using(std::proofs::lemmas::Bool::Decides::nat_tests), unfolding(crate::specs::Decoded::stream_in, crate::specs::Record::is_valid))]
fn stream_in(bytes: &[u8; SLOT_SIZE]) -> Option<Record>
    ensures { result ≡ checked (stream_in bytes.now) }
{
    let length = usize::from(bytes[2]);
    if length > LONGEST_NAME {
        return None;
    }
    let id = get_u32(bytes, 4);
    let name = Name::of(&bytes[NAME..NAME + length])?;
    let params = params_in(bytes, 8, STEP);
    if params.in_range() {
        Some(Record::Stream {
            id,
            name,
            params,
            dropped: bytes[3] == DROPPED,
        })
    } else {
        None
    }
}

// The filter in the bytes of a window.
fn filter_in(bytes: &[u8; SLOT_SIZE]) -> Filter
    ensures { result ≡ filter_in bytes.now }
{
    if bytes[1] == BY_WORDS {
        Filter {
            words: [
                get_u64(bytes, 72),
                get_u64(bytes, 80),
                get_u64(bytes, 88),
                get_u64(bytes, 96),
            ],
        }
    } else {
        Filter::full()
    }
}

// The summary in the bytes of a window, if its figures are possible.
fn summary_in(bytes: &[u8; SLOT_SIZE]) -> Option<Summary>
    ensures { result ≡ (if is_possible (figures_in bytes.now) then Some (figures_in bytes.now) else None) }
{
    let count = get_u64(bytes, 16);
    let sum = get_i128(bytes, 24);
    let min = get_i64(bytes, 40);
    let max = get_i64(bytes, 48);
    let t_first = get_u64(bytes, 56);
    let t_last = get_u64(bytes, 64);
    let filter = filter_in(bytes);
    Summary::of(count, sum, min, max, t_first, t_last, filter)
}

// Whether so many values may begin at this position.
fn are_positions(first: u64, count: u64) -> bool
    requires some { 1 ≤ count }
    requires few { count ≤ MOST_VALUES }
    ensures { result ≡ (nat_le 1 first && nat_le (first + count - 1) MOST_VALUES) }
{
    1 <= first && first <= MOST_VALUES && first + count - 1 <= MOST_VALUES
}

// The window's record in the bytes, if it is a valid one.
#[tactic(auto, using(std::proofs::lemmas::Bool::Decides::nat_tests), unfolding(crate::specs::Decoded::window_in, crate::specs::Record::is_valid))]
fn window_in(bytes: &[u8; SLOT_SIZE]) -> Option<Record>
    ensures { result ≡ checked (window_in bytes.now) }
{
    let id = get_u32(bytes, 4);
    let first = get_u64(bytes, 8);
    let summary = summary_in(bytes)?;
    if are_positions(first, summary.count) {
        Some(Record::Window { id, first, summary })
    } else {
        None
    }
}

// Whether a number counts from 1.
fn counts_from_1(n: u32) -> bool
    ensures { result ≡ counts_from_1 n }
{
    1 <= n
}

// Whether a landmark may have so many values and these times.
fn is_interval(values: u32, start: u64, finish: Option<u64>) -> bool
    ensures { result ≡ is_interval values start finish }
{
    match finish {
        None => values == 0 && start <= LAST_TIME,
        Some(finish) => start <= finish && finish <= LAST_TIME,
    }
}

// When the landmark in the bytes closes, if it is closed.
#[tactic(auto, unfolding(crate::specs::Decoded::finish_in))]
fn finish_in(bytes: &[u8; SLOT_SIZE]) -> Option<u64>
    ensures { result ≡ finish_in bytes.now }
{
    if bytes[1] == CLOSED {
        Some(get_u64(bytes, 24))
    } else {
        None
    }
}

// The landmark's record in the bytes, if it is a valid one.
#[tactic(auto, using(std::proofs::lemmas::Bool::Decides::nat_tests), unfolding(crate::specs::Decoded::landmark_in, crate::specs::Record::is_valid))]
fn landmark_in(bytes: &[u8; SLOT_SIZE]) -> Option<Record>
    ensures { result ≡ checked (landmark_in bytes.now) }
{
    let id = get_u32(bytes, 4);
    let number = get_u32(bytes, 8);
    let values = get_u32(bytes, 12);
    let start = get_u64(bytes, 16);
    let finish = finish_in(bytes);
    if counts_from_1(number) && is_interval(values, start, finish) {
        Some(Record::Landmark {
            id,
            number,
            values,
            start,
            finish,
        })
    } else {
        None
    }
}

// The record of a landmark's value in the bytes, if it is a valid one.
#[tactic(auto, using(std::proofs::lemmas::Bool::Decides::nat_tests), unfolding(crate::specs::Decoded::value_in, crate::specs::Record::is_valid))]
fn value_in(bytes: &[u8; SLOT_SIZE]) -> Option<Record>
    ensures { result ≡ checked (value_in bytes.now) }
{
    let id = get_u32(bytes, 4);
    let number = get_u32(bytes, 8);
    let index = get_u32(bytes, 12);
    let t = get_u64(bytes, 16);
    let v = get_i64(bytes, 24);
    if counts_from_1(number) && counts_from_1(index) && t <= LAST_TIME {
        Some(Record::Value {
            id,
            number,
            index,
            t,
            v,
        })
    } else {
        None
    }
}

// The one record whose spelling the bytes can be, if it is a valid one, and they aren't those of a window.
#[tactic(auto, using(std::proofs::lemmas::Bool::Decides::nat_tests), unfolding(crate::specs::Decoded::record_in, crate::specs::Record::is_valid))]
fn other_in(bytes: &[u8; SLOT_SIZE]) -> Option<Record>
    requires { slice_index bytes.now 0 ≢ WINDOW }
    ensures { result ≡ checked (record_in bytes.now) }
{
    match bytes[0] {
        STREAM => stream_in(bytes),
        LANDMARK => landmark_in(bytes),
        VALUE => value_in(bytes),
        _ => Some(Record::Free),
    }
}

// Whether some words of 8 bytes, up to another one, are zeros.
fn are_zero_words(bytes: &[u8; SLOT_SIZE], from: usize, to: usize) -> bool
    requires order { from ≤ to }
    requires inside { to ≤ 16 }
    ensures { result ≡ list_all (λ byte. byte == 0) (take (8 * (to - from)) (drop (8 * from) bytes.now)) }
{
    for word in from..to {
        if get_u64(bytes, 8 * word) != 0 {
            return false;
        }
    }
    true
}

// Whether a filter is spelled as it should be: one with all bits by zeros, and any other by its words.
fn is_filter_spelled(bytes: &[u8; SLOT_SIZE]) -> bool
    ensures { result ≡ is_filter_spelled bytes.now }
{
    match bytes[1] {
        ALL_BITS => are_zero_words(bytes, 9, 13),
        BY_WORDS => !is_full(filter_in(bytes)),
        _ => false,
    }
}

// Whether zeros stand wherever a window has no field, and its filter is spelled as it should be.
#[tactic(auto, using(crate::proofs::ZeroLemmas::is_blank_bytes, std::proofs::lemmas::Bool::Decides::nat_tests))]
fn is_blank_beside(bytes: &[u8; SLOT_SIZE]) -> bool
    ensures { result ≡ is_blank_beside bytes.now }
{
    bytes[2] == 0 && bytes[3] == 0 && are_zero_words(bytes, 13, 16) && is_filter_spelled(bytes)
}

// The record that the bytes of a window spell. Its fields are what is read, so the other bytes tell whether it is spelled so.
fn decode_window(bytes: &[u8; SLOT_SIZE]) -> Option<Record>
    requires { slice_index bytes.now 0 ≡ WINDOW }
    ensures { result ≡ decoded bytes.now }
{
    if is_blank_beside(bytes) {
        window_in(bytes)
    } else {
        None
    }
}

// The record that other bytes spell.
#[tactic(auto, unfolding(crate::specs::Decoded::decoded))]
fn decode_other(bytes: &[u8; SLOT_SIZE]) -> Option<Record>
    requires { slice_index bytes.now 0 ≢ WINDOW }
    ensures { result ≡ decoded bytes.now }
{
    let record = other_in(bytes)?;
    if encode(&record) == *bytes {
        Some(record)
    } else {
        None
    }
}

/// The record that the bytes spell. None says that they are the spelling of no valid record.
pub fn decode(bytes: &[u8; SLOT_SIZE]) -> Option<Record>
    ensures some { IfSome result (λ r. Spells bytes.now r) }
    ensures none { IfNone result ((r : Record) → ¬ Spells bytes.now r) }
    ensures exact { result ≡ decoded bytes.now }
{
    if bytes[0] == WINDOW {
        decode_window(bytes)
    } else {
        decode_other(bytes)
    }
}
