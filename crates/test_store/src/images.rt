// Files with slots of a choice.
use crate::silent::Silent;
use ss_outside::MemDisk;
use std::alloc::{AllocError, Global};

/// What a window says of its values: how many, their sum, which isn't negative, the least and the greatest.
pub type Values = (u64, u64, i64, i64);

/// What a slot has.
#[derive(Clone, Copy)]
pub enum Slot {
    Free,
    /// A stream's number, and its name of one letter.
    Stream(u32, u8),
    /// The same of a stream that is dropped.
    Dropped(u32, u8),
    /// A window of a stream: the stream's number, the first position, how many values, and the first and last time.
    Window(u32, u64, u64, u64, u64),
    /// The same with the filter of its values, where the filter of a `Window` has all bits.
    Filtered(u32, u64, u64, u64, u64),
    /// A landmark: the stream's number, its own, how many values it has, and when it opens and closes.
    Landmark(u32, u32, u32, u64, Option<u64>),
    /// A value of a landmark: the stream's number, the landmark's, its index, its time, and what it is.
    Value(u32, u32, u32, u64, i64),
}

/// What a formatted file begins with.
pub const FORMATTED: &[u8] = b"\xA5SSTORE01";

// Puts a field into the bytes of a slot.
fn put(bytes: &mut [u8; 128], at: usize, field: &[u8]) {
    for (place, byte) in field.iter().enumerate() {
        if let Some(to) = bytes.get_mut(at.saturating_add(place)) {
            *to = *byte;
        }
    }
}

fn put_u32(bytes: &mut [u8; 128], at: usize, field: u32) {
    put(bytes, at, &field.to_be_bytes());
}

fn put_u64(bytes: &mut [u8; 128], at: usize, field: u64) {
    put(bytes, at, &field.to_be_bytes());
}

fn put_stream(bytes: &mut [u8; 128], id: u32, letter: u8, dropped: u8) {
    put(bytes, 0, &[1, 1, 1, dropped]);
    put_u32(bytes, 4, id);
    put(bytes, 8, &[0, 0, 0, 2, 0, 0, 0, 1, 0, 0, 0, 1]);
    put(bytes, 24, &[letter]);
}

// Without a state and words of its filter a window has all bits.
fn put_window(bytes: &mut [u8; 128], id: u32, first: u64, values: Values, times: (u64, u64)) {
    let (count, sum, min, max) = values;
    let (t_first, t_last) = times;
    put(bytes, 0, &[2]);
    put_u32(bytes, 4, id);
    put_u64(bytes, 8, first);
    put_u64(bytes, 16, count);
    put_u64(bytes, 32, sum);
    put(bytes, 40, &min.to_be_bytes());
    put(bytes, 48, &max.to_be_bytes());
    put_u64(bytes, 56, t_first);
    put_u64(bytes, 64, t_last);
}

// The filter of a window's values: the bit of the value 0 is the first.
fn put_filter(bytes: &mut [u8; 128]) {
    put(bytes, 1, &[1]);
    put_u64(bytes, 72, 1);
}

// The bytes of a slot: those of a stream have the target `exp 2 1 1`, and those of a window whose values aren't named only 0.
fn spelled(slot: Slot) -> [u8; 128] {
    let mut bytes = [0; 128];
    match slot {
        Slot::Free => {}
        Slot::Stream(id, letter) => put_stream(&mut bytes, id, letter, 0),
        Slot::Dropped(id, letter) => put_stream(&mut bytes, id, letter, 1),
        Slot::Window(id, first, count, t_first, t_last) => {
            put_window(&mut bytes, id, first, (count, 0, 0, 0), (t_first, t_last));
        }
        Slot::Filtered(id, first, count, t_first, t_last) => {
            put_window(&mut bytes, id, first, (count, 0, 0, 0), (t_first, t_last));
            put_filter(&mut bytes);
        }
        Slot::Landmark(id, number, values, start, finish) => {
            put(&mut bytes, 0, &[3, if finish.is_some() { 2 } else { 1 }]);
            put_u32(&mut bytes, 4, id);
            put_u32(&mut bytes, 8, number);
            put_u32(&mut bytes, 12, values);
            put_u64(&mut bytes, 16, start);
            put_u64(&mut bytes, 24, finish.unwrap_or(0));
        }
        Slot::Value(id, number, index, t, v) => {
            put(&mut bytes, 0, &[4]);
            put_u32(&mut bytes, 4, id);
            put_u32(&mut bytes, 8, number);
            put_u32(&mut bytes, 12, index);
            put_u64(&mut bytes, 16, t);
            put(&mut bytes, 24, &v.to_be_bytes());
        }
    }
    bytes
}

/// A file that begins so and has these slots. Without slots it has no more bytes.
pub fn image(alloc: Global, begin: &[u8], slots: &[Slot]) -> Result<Silent, AllocError> {
    let mut bytes = begin.to_vec(alloc)?;
    if !slots.is_empty() {
        bytes.resize(36864, 0)?;
    }
    for slot in slots {
        bytes.extend_from_slice(&spelled(*slot))?;
    }
    Ok(Silent::new(MemDisk::new(alloc, bytes)?))
}
