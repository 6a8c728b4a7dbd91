// The options that stand before the store's path.
ghost use Rattle.std.specs.Prelude.{◌≡◌, ◌≤◌, drop, length, IsSome, OnOk};
ghost use Rattle.std.specs.Str.Parse.{starts_with_minus};
ghost use Rattle.ss_arguments.specs.Modes.{words_of};
ghost use Rattle.summarystore.specs.Plan.{asked_words, first_switch, has_hyphen, is_last, names_run, no_options, options_of, place_of_framed};
ghost use Rattle.summarystore.specs.Plan.{switch_of, with_switch, with_word, without_options, without_run, without_unknown};

use std::alloc::{AllocError, Global};

/// An option.
#[derive(Clone, Copy, Debug, PartialEq, Eq)]
pub enum Switch {
    Explain,
    Batch,
    Framed,
    Strict,
    Existing,
    Checked,
}

/// What the options ask for.
#[derive(Clone, Copy, Debug, PartialEq, Eq)]
pub struct Options {
    /// Whether standard error says why a line is refused, also where it is no terminal.
    pub explains: bool,
    /// Whether events whose lines come together come to the disk together.
    pub batches: bool,
    /// Whether the frame of each accepted event stands behind the reply to it.
    pub is_framed: bool,
    /// Whether a run that is done ends with status 1 where a line was refused.
    pub is_strict: bool,
    /// Whether the store has to be there.
    pub has_to_exist: bool,
    /// Whether the store has to be a checked one.
    pub has_to_be_checked: bool,
}

// No option.
fn no_options() -> Options
    ensures { result ≡ no_options }
{
    Options {
        explains: false,
        batches: false,
        is_framed: false,
        is_strict: false,
        has_to_exist: false,
        has_to_be_checked: false,
    }
}

/// The option that a word is.
pub fn switch_of(word: &str) -> Option<Switch>
    ensures { result ≡ switch_of word.now }
{
    match word {
        "--explain" => Some(Switch::Explain),
        "--batch" => Some(Switch::Batch),
        "--framed" => Some(Switch::Framed),
        "--strict" => Some(Switch::Strict),
        "--existing" => Some(Switch::Existing),
        "--checked" => Some(Switch::Checked),
        _ => None,
    }
}

// The option in the place of the store's path.
fn first_switch(words: &[String]) -> Option<Switch>
    ensures is { result ≡ first_switch (words_of words.now) }
    ensures stands { IsSome result → 2 ≤ length words.now }
{
    match words {
        [_, word, ..] => switch_of(word.as_str()),
        _ => None,
    }
}

impl Options {
    // The same with one more.
    fn with(self, switch: Switch) -> Options
        ensures { result ≡ with_switch self switch }
    {
        let mut options = self;
        match switch {
            Switch::Explain => options.explains = true,
            Switch::Batch => options.batches = true,
            Switch::Framed => options.is_framed = true,
            Switch::Strict => options.is_strict = true,
            Switch::Existing => options.has_to_exist = true,
            Switch::Checked => options.has_to_be_checked = true,
        }
        options
    }
}

// Whether a word begins with `-`.
fn is_hyphened(word: &str) -> bool
    ensures { result ≡ starts_with_minus word.now }
{
    let bytes = word.as_bytes();
    !bytes.is_empty() && bytes[0] == b'-'
}

// Whether the word in the place of the store's path begins with `-`.
fn has_hyphen(words: &[String]) -> bool
    ensures { result ≡ has_hyphen (words_of words.now) }
{
    match words {
        [_, word, ..] => is_hyphened(word.as_str()),
        _ => false,
    }
}

// Takes away all words but the program's name, where another that begins with `-` stands in the place of the store's path.
fn drop_unknown(words: &mut Vec<String>)
    ensures { words_of words.new.items ≡ without_unknown (words_of words.old.items) }
{
    if has_hyphen(words) {
        words.truncate(1);
    }
}

/// Takes the options off the words of the command line, which begin with the program's name. Where another word that
/// begins with `-` stands in the place of the store's path, all words but the program's name go: these are no arguments.
pub fn take_options(words: &mut Vec<String>) -> Options
    ensures options { result ≡ options_of (words_of words.old.items) }
    ensures words { words_of words.new.items ≡ without_options (words_of words.old.items) }
{
    let mut options = no_options();
    while let Some(switch) = first_switch(words) {
        options = options.with(switch);
        words.remove(1);
    }
    drop_unknown(words);
    options
}

// Whether a plain run is asked for by its word.
fn names_run(words: &[String]) -> bool
    ensures { result ≡ names_run (words_of words.now) }
{
    match words {
        [_, _, mode] => mode.as_str() == "run",
        _ => false,
    }
}

// Takes the word `run` off the words, where it stands alone after the store's path.
fn drop_run(words: &mut Vec<String>)
    ensures { words_of words.new.items ≡ without_run (words_of words.old.items) }
{
    if names_run(words) {
        words.truncate(2);
    }
}

// Whether the last of the words behind the store's path is this one.
fn is_last(words: &[String], word: &str) -> bool
    ensures { result ≡ is_last word.now (words_of words.now) }
{
    words.len() > 2 && words[words.len() - 1].as_str() == word
}

// Puts a word at a place behind the store's path, unless it stands in front of that place.
fn put_word(
    alloc: Global,
    words: &mut Vec<String>,
    place: usize,
    word: &str,
) -> Result<(), AllocError>
    requires { place ≤ length words.old.items }
    ensures { OnOk result (words_of words.new.items ≡ with_word place word.now (words_of words.old.items)) }
{
    if words.len() < 2 || is_last(&words[..place], word) {
        return Ok(());
    }
    let text = String::from_str(alloc, word)?;
    Ok(words.insert(place, text)?)
}

// Where `framed` stands: at the end, or before `batch`.
fn place_of_framed(words: &[String]) -> usize
    ensures is { result ≡ place_of_framed (words_of words.now) }
    ensures within { result ≤ length words.now }
{
    if is_last(words, "batch") {
        words.len() - 1
    } else {
        words.len()
    }
}

/// Puts the words that options stand for among those behind the store's path, each once and in place of `run`: `framed` at the end or
/// before `batch`, and `batch` last. After the word of a form they ask for more of that, and where a mode takes no such word it is one
/// too many.
#[tactic(auto, unfolding(crate::specs::Plan::asked_words))]
pub fn put_words(alloc: Global, options: Options, words: &mut Vec<String>) -> Result<(), AllocError>
    ensures { OnOk result (words_of words.new.items ≡ asked_words options (words_of words.old.items)) }
{
    if options.is_framed || options.batches {
        drop_run(words);
    }
    if options.is_framed {
        let place = place_of_framed(words);
        put_word(alloc, words, place, "framed")?;
    }
    if options.batches {
        let place = words.len();
        put_word(alloc, words, place, "batch")?;
    }
    Ok(())
}
