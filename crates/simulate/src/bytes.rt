// Bytes in memory: put over others, cut, counted and told by hexadecimal digits.
use std::alloc::{AllocError, Global};

/// Puts bytes over others from a place on. Where they end past the end, zeros come between, and it grows.
pub fn put_over(content: &mut Vec<u8>, at: usize, bytes: &[u8]) -> Result<(), AllocError> {
    let end = at.saturating_add(bytes.len());
    for _ in content.len()..end {
        content.push(0)?;
    }
    for (k, byte) in bytes.iter().enumerate() {
        if let Some(held) = content.get_mut(at.saturating_add(k)) {
            *held = *byte;
        }
    }
    Ok(())
}

/// The bytes from a place to another one, as far as there are any.
pub fn part(bytes: &[u8], from: usize, to: usize) -> &[u8] {
    let to = to.min(bytes.len());
    let from = from.min(to);
    &bytes[from..to]
}

fn digit(byte: u8) -> Option<u8> {
    match byte {
        b'0'..=b'9' => Some(byte - b'0'),
        b'a'..=b'f' => Some(byte - b'a' + 10),
        _ => None,
    }
}

/// Adds the bytes that pairs of hexadecimal digits spell, or says that they are none.
pub fn push_hex(bytes: &mut Vec<u8>, word: &str) -> Result<bool, AllocError> {
    let digits = word.as_bytes();
    for k in 0..digits.len() / 2 {
        let high = digits.get(k.saturating_mul(2)).copied().and_then(digit);
        let low = digits
            .get(k.saturating_mul(2).saturating_add(1))
            .copied()
            .and_then(digit);
        match (high, low) {
            (Some(high), Some(low)) => bytes.push(high.wrapping_mul(16).wrapping_add(low))?,
            _ => return Ok(false),
        }
    }
    Ok(digits.len() % 2 == 0)
}

/// How many line ends there are.
pub fn count_lines(bytes: &[u8]) -> usize {
    let mut lines = 0usize;
    for byte in bytes {
        if *byte == b'\n' {
            lines = lines.saturating_add(1);
        }
    }
    lines
}

/// Words of numbers.
pub fn numbers_of(alloc: Global, words: &str) -> Result<Vec<u64>, AllocError> {
    let mut numbers = Vec::new(alloc);
    for word in words.split_whitespace() {
        if let Ok(number) = word.parse::<u64>() {
            numbers.push(number)?;
        }
    }
    Ok(numbers)
}

/// A number that stands alone.
pub fn number_of(word: &str) -> Option<u64> {
    word.parse::<u64>().ok()
}
