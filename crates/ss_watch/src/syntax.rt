// Why the words of a line fit no form.
use crate::forms::misfit;
use crate::hints::hint;
use crate::words::word_at;
use ss_command::verb_of;
use std::alloc::{AllocError, Global};

fn no_command(alloc: Global, words: &[&str]) -> Result<String, AllocError> {
    let verb = word_at(words, 0);
    let hint = hint(words);
    format!(in alloc; "no command begins with \"{verb}\"{hint}")
}

// That a line hasn't as many words as a form.
fn counted(alloc: Global, form: &str, wanted: usize, words: &[&str]) -> Result<String, AllocError> {
    let found = words.len();
    format!(in alloc; "{form} has {wanted} words, and this line has {found}")
}

/// Why these words, which begin with `cursor`, fit no form of a line of a session.
pub fn syntax_of_cursor(alloc: Global, words: &[&str]) -> Result<String, AllocError> {
    match word_at(words, 1) {
        "open" => counted(alloc, "cursor open NAME", 3, words),
        "next" => counted(alloc, "cursor next C", 3, words),
        "close" => counted(alloc, "cursor close", 2, words),
        _ => String::from_str(
            alloc,
            "a cursor form is cursor open NAME, cursor next C or cursor close",
        ),
    }
}

/// Why these words fit no form.
pub fn syntax(alloc: Global, words: &[&str]) -> Result<String, AllocError> {
    match verb_of(word_at(words, 0).as_bytes()) {
        Some(verb) => misfit(alloc, verb, words),
        None => no_command(alloc, words),
    }
}
