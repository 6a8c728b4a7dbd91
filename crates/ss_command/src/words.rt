// The words of a line.
ghost use Rattle.std.specs.Prelude.{◌≡◌, ◌<◌, ◌≤◌, [], ◌∷◌, not, false, length, slice_index, position};
ghost use Rattle.ss_command.specs.Words.{first_word, from_word, is_blank, is_word, rest_of, words};

use ss_catalog::Refusal;
use std::marker::Model;

// Whether a byte stands between words.
fn is_blank(byte: u8) -> bool
    ensures { result ≡ is_blank byte }
{
    byte == b' ' || byte == b'\t'
}

// Where the first byte of a word stands.
fn first_of_word(line: &[u8]) -> Option<usize>
    ensures { result ≡ position (λ b. not (is_blank b)) line.now }
{
    line.iter().position(|byte| !is_blank(*byte))
}

// Where the first blank stands.
fn first_blank(line: &[u8]) -> Option<usize>
    ensures { result ≡ position is_blank line.now }
{
    line.iter().position(|byte| is_blank(*byte))
}

// What stands from the first word of a line on.
fn without_blanks(line: &[u8]) -> &[u8]
    ensures value { result.now ≡ from_word line.now }
    ensures words { words line.now ≡ words result.now }
    ensures front { 0 < length result.now → is_blank (slice_index result.now 0) ≡ false }
{
    match first_of_word(line) {
        Some(start) => &line[start..],
        None => &line[line.len()..],
    }
}

// The word that a line begins with, and what stands after it.
fn cut_word(line: &[u8]) -> (&[u8], &[u8])
    requires some { 0 < length line.now }
    requires front { is_blank (slice_index line.now 0) ≡ false }
    ensures { words line.now ≡ result.0.now ∷ words result.1.now }
{
    match first_blank(line) {
        Some(end) => (&line[..end], &line[end..]),
        None => (line, &line[line.len()..]),
    }
}

/// The first word of a line, and what stands after it and the blanks behind it. Of a line without words both are empty.
pub fn cut_first(line: &[u8]) -> (&[u8], &[u8])
    ensures word { result.0.now ≡ first_word line.now }
    ensures rest { result.1.now ≡ rest_of line.now }
    ensures words { 0 < length result.0.now → words line.now ≡ result.0.now ∷ words result.1.now }
    ensures none { length result.0.now ≡ 0 → words line.now ≡ [] }
    ensures shorter { length result.1.now ≤ length line.now }
{
    let line = without_blanks(line);
    match first_blank(line) {
        Some(end) => (&line[..end], without_blanks(&line[end..])),
        None => (line, &line[line.len()..]),
    }
}

/// Whether a word is this one.
pub fn is_word(word: &[u8], text: &str) -> bool
    ensures { result ≡ is_word word.now text.now }
{
    word == text.as_bytes()
}

/// The words of a line that are still to be read. It is seen as the list of them.
#[derive(Drop)]
pub struct Words<'a> {
    rest: &'a [u8],
}

impl<'a> Model for Words<'a> {
    ghost use Rattle.std.specs.Prelude.{List, ℕ};
    ghost use Rattle.ss_command.specs.Words.{words};

    ghost Value = { List (List ℕ) };

    ghost view = { λ w. words w.rest.now };
}

impl<'a> Words<'a> {
    ghost use Rattle.std.specs.Prelude.{◌≡◌, [], ◌∷◌, ℕ, List, MatchOption, MatchResult};
    ghost use Rattle.ss_command.specs.Words.{words};

    /// The words of a line.
    pub fn of(line: &'a [u8]) -> Words<'a>
        ensures { result ≡ words line.now }
    {
        Words { rest: line }
    }

    /// The next word, if there is one.
    pub fn next(&mut self) -> Option<&'a [u8]>
        ensures { MatchOption result ((self.old ≡ []) × (self.new ≡ self.old)) (λ word. self.old ≡ word.now ∷ self.new) }
    {
        let line = without_blanks(self.rest);
        if line.is_empty() {
            return None;
        }
        let (word, rest) = cut_word(line);
        self.rest = rest;
        Some(word)
    }

    /// The next word, which has to be there.
    pub fn word(&mut self) -> Result<&'a [u8], Refusal>
        ensures { MatchResult result (λ word. self.old ≡ word.now ∷ self.new) (λ e. (e ≡ Refusal.Syntax) × (self.old ≡ [])) }
    {
        self.next().ok_or(Refusal::Syntax)
    }

    /// No word is to be left.
    pub fn end(mut self) -> Result<(), Refusal>
        ensures { MatchResult result (λ _. self.entry ≡ [])
            (λ e. (e ≡ Refusal.Syntax) × ((word : List ℕ) × (rest : List (List ℕ)) × (self.entry ≡ word ∷ rest))) }
    {
        match self.next() {
            Some(_) => Err(Refusal::Syntax),
            None => Ok(()),
        }
    }
}
