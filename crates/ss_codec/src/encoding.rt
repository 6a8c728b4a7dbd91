// Records, spelled.
ghost use Rattle.std.specs.Prelude.{◌≡◌, ◌≤◌, [], ◌∷◌, length, IsTrue};
ghost use Rattle.ss_catalog.specs.Params.{step_number};
ghost use Rattle.ss_codec.specs.Fields.{u64, with_fields};
ghost use Rattle.ss_codec.specs.Record.{closing_time, drop_number, family, fields, filter_number, is_full, is_valid, parameters, spelling, state_number};
ghost use Rattle.ss_codec.specs.Record.{word_spelled};

use crate::fields::{write_i64, write_i128, write_text, write_u8, write_u32, write_u64};
use crate::record::{
    ALL_BITS, BY_WORDS, CLOSED, DROPPED, EXPONENTIAL, LANDMARK, NAME, OPEN, POWER_LAW, Record,
    STANDING, STEP, STREAM, VALUE, WINDOW,
};
use ss_base::SLOT_SIZE;
use ss_catalog::{Family, LONGEST_NAME, Name, Params};
use ss_summary::{Filter, Summary};

/// The number of a target's family.
pub fn family(target: &Family) -> u8
    ensures { result ≡ family target.now }
{
    match *target {
        Family::Exp { .. } => EXPONENTIAL,
        Family::Power { .. } => POWER_LAW,
    }
}

/// The four parameters of a target's family. The exponential one has three, and a 0.
pub fn parameters(target: &Family) -> (u32, u32, u32, u32)
    ensures { result ≡ parameters target.now }
{
    match *target {
        Family::Exp { b, r, s } => (b, r, s, 0),
        Family::Power { p, q, r, s } => (p, q, r, s),
    }
}

/// A step as a number, 0 for none.
pub fn step_number(within: Option<u32>) -> u32
    ensures { result ≡ step_number within }
{
    match within {
        None => 0,
        Some(step) => step,
    }
}

// The number of a stream's state.
fn drop_state(dropped: bool) -> u8
    ensures { result ≡ drop_number dropped }
{
    if dropped { DROPPED } else { STANDING }
}

// Writes the fields of a stream.
fn write_stream(bytes: &mut [u8], id: u32, name: &Name, params: &Params, dropped: bool)
    requires long { SLOT_SIZE ≤ length bytes.old }
    requires short_name { length name.now ≤ LONGEST_NAME }
    ensures { bytes.new ≡ with_fields bytes.old (fields (Record.Stream id name.now params.now dropped)) }
{
    let word = name.as_bytes();
    let numbers = parameters(&params.family);
    write_u8(bytes, 0, STREAM);
    write_u8(bytes, 1, family(&params.family));
    write_u8(bytes, 2, word.len() as u8);
    write_u8(bytes, 3, drop_state(dropped));
    write_u32(bytes, 4, id);
    write_u32(bytes, 8, numbers.0);
    write_u32(bytes, 12, numbers.1);
    write_u32(bytes, 16, numbers.2);
    write_u32(bytes, 20, numbers.3);
    write_text(bytes, NAME, word);
    write_u32(bytes, STEP, step_number(params.within));
}

// Whether a filter has all bits.
pub fn is_full(filter: Filter) -> bool
    ensures { result ≡ is_full filter }
{
    let words = filter.words;
    words[0] == u64::MAX && words[1] == u64::MAX && words[2] == u64::MAX && words[3] == u64::MAX
}

// The number of a filter's state.
fn filter_state(filter: Filter) -> u8
    ensures { result ≡ filter_number filter }
{
    if is_full(filter) { ALL_BITS } else { BY_WORDS }
}

// Writes the words of a filter, and zeros where it has all bits.
fn write_words(bytes: &mut [u8], filter: Filter)
    requires { SLOT_SIZE ≤ length bytes.old }
    ensures { bytes.new ≡ with_fields bytes.old (u64 72 (word_spelled filter 0) ∷ u64 80 (word_spelled filter 1)
        ∷ u64 88 (word_spelled filter 2) ∷ u64 96 (word_spelled filter 3) ∷ []) }
{
    let words = if is_full(filter) {
        [0; 4]
    } else {
        filter.words
    };
    write_u64(bytes, 72, words[0]);
    write_u64(bytes, 80, words[1]);
    write_u64(bytes, 88, words[2]);
    write_u64(bytes, 96, words[3]);
}

// Writes the fields of a window.
fn write_window(bytes: &mut [u8], id: u32, first: u64, summary: Summary)
    requires { SLOT_SIZE ≤ length bytes.old }
    ensures { bytes.new ≡ with_fields bytes.old (fields (Record.Window id first summary)) }
{
    write_u8(bytes, 0, WINDOW);
    write_u8(bytes, 1, filter_state(summary.filter));
    write_u32(bytes, 4, id);
    write_u64(bytes, 8, first);
    write_u64(bytes, 16, summary.count);
    write_i128(bytes, 24, summary.sum);
    write_i64(bytes, 40, summary.min);
    write_i64(bytes, 48, summary.max);
    write_u64(bytes, 56, summary.t_first);
    write_u64(bytes, 64, summary.t_last);
    write_words(bytes, summary.filter);
}

// The number of a landmark's state.
fn state(finish: Option<u64>) -> u8
    ensures { result ≡ state_number finish }
{
    match finish {
        None => OPEN,
        Some(_) => CLOSED,
    }
}

// When a landmark closes, and 0 as long as it is open.
fn closing(finish: Option<u64>) -> u64
    ensures { result ≡ closing_time finish }
{
    match finish {
        None => 0,
        Some(finish) => finish,
    }
}

// Writes the fields of a landmark.
fn write_landmark(
    bytes: &mut [u8],
    id: u32,
    number: u32,
    values: u32,
    start: u64,
    finish: Option<u64>,
)
    requires { SLOT_SIZE ≤ length bytes.old }
    ensures { bytes.new ≡ with_fields bytes.old (fields (Record.Landmark id number values start finish)) }
{
    write_u8(bytes, 0, LANDMARK);
    write_u8(bytes, 1, state(finish));
    write_u32(bytes, 4, id);
    write_u32(bytes, 8, number);
    write_u32(bytes, 12, values);
    write_u64(bytes, 16, start);
    write_u64(bytes, 24, closing(finish));
}

// Writes the fields of a landmark's value.
fn write_value(bytes: &mut [u8], id: u32, number: u32, index: u32, t: u64, v: i64)
    requires { SLOT_SIZE ≤ length bytes.old }
    ensures { bytes.new ≡ with_fields bytes.old (fields (Record.Value id number index t v)) }
{
    write_u8(bytes, 0, VALUE);
    write_u32(bytes, 4, id);
    write_u32(bytes, 8, number);
    write_u32(bytes, 12, index);
    write_u64(bytes, 16, t);
    write_i64(bytes, 24, v);
}

/// The bytes that spell a record.
#[tactic(auto, unfolding(crate::specs::Record::spelling))]
pub fn encode(r: &Record) -> [u8; SLOT_SIZE]
    requires { IsTrue (is_valid r.now) }
    ensures { result ≡ spelling r.now }
{
    let mut bytes = [0; SLOT_SIZE];
    match r {
        Record::Free => {}
        Record::Stream {
            id,
            name,
            params,
            dropped,
        } => write_stream(&mut bytes, *id, name, params, *dropped),
        Record::Window { id, first, summary } => write_window(&mut bytes, *id, *first, *summary),
        Record::Landmark {
            id,
            number,
            values,
            start,
            finish,
        } => write_landmark(&mut bytes, *id, *number, *values, *start, *finish),
        Record::Value {
            id,
            number,
            index,
            t,
            v,
        } => write_value(&mut bytes, *id, *number, *index, *t, *v),
    }
    bytes
}
