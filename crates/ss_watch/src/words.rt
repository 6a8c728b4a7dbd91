// The words of a line as they are shown.
use std::alloc::{AllocError, Global};

// Adds a byte of a line. One that isn't printed as it is gets its number, and a tab is a space.
fn put_byte(byte: u8, text: &mut String) -> Result<(), AllocError> {
    match byte {
        b'\t' => text.push(' '),
        b' '..=b'~' => text.push(char::from(byte)),
        _ => text.push_str(format!(in *text.allocator(); "\\x{byte:02x}")?.as_str()),
    }
}

/// A line as it is shown: printable ASCII as it is, a tab as a space, and any other byte as `\x` and its number.
pub fn shown(alloc: Global, line: &[u8]) -> Result<String, AllocError> {
    let mut text = String::new(alloc);
    for byte in line {
        put_byte(*byte, &mut text)?;
    }
    Ok(text)
}

/// The words of a line as it is shown.
pub fn words_of(alloc: Global, text: &str) -> Result<Vec<&str>, AllocError> {
    text.split(' ')
        .filter(|word| !word.is_empty())
        .collect(alloc)
}

/// The word at a place, counted from 0, or the empty word where there are fewer.
pub fn word_at<'a>(words: &[&'a str], place: usize) -> &'a str {
    match words.get(place) {
        Some(word) => *word,
        None => "",
    }
}

/// Whether a word has digits alone, and at least one.
pub fn has_digits_alone(word: &str) -> bool {
    !word.is_empty() && word.bytes().all(|byte| byte.is_ascii_digit())
}
