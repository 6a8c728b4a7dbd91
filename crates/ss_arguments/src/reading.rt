// The arguments of the command line as a mode.
ghost use Rattle.std.specs.Prelude.{◌≡◌, ◌-◌, ◌^◌, true, false, codes, option_map, IfOk, Ok, None};
ghost use Rattle.std.specs.List.{list_any};
ghost use Rattle.std.specs.Str.Parse.{starts_with_minus};
ghost use Rattle.clap.specs.Words.{app_of};
ghost use Rattle.ss_arguments.specs.Modes.{alone, are_refused_at_once, batched, count_of, formed, gen_of, generated, mode_asked, mode_of};
ghost use Rattle.ss_arguments.specs.Modes.{plain, sealed, seed_of, with_frames, words_of};
ghost use Rattle.ss_arguments.specs.Places.{by_place, three_words, words_said};

use crate::{Form, MOST_DIGITS, Mode, Sealing};
use clap::error::ErrorKind;
use clap::{Arg, Command};
use ss_fields::read_u64;
use ss_generator::MOST_COUNT;
use std::alloc::{AllocError, Global};

// Each line is a command, and a reply is one line.
const LINES: Form = Form::Lines { framed: false };

// A plain run.
const RUN: Mode = Mode::Serve {
    form: LINES,
    sealing: Sealing::Each,
};

// Reads a seed.
#[tactic(auto, using(std::proofs::lemmas::Bool::Decides::nat_tests), unfolding(crate::specs::Modes::number_between, ss_fields::specs::Words::unsigned_of))]
fn read_seed(word: &str) -> Option<u64>
    ensures { result ≡ seed_of word.now }
{
    if word.len() > MOST_DIGITS {
        return None;
    }
    read_u64(word.as_bytes()).ok()
}

// Reads a count.
#[tactic(auto, using(std::proofs::lemmas::Bool::Decides::nat_tests, crate::proofs::NumberLemmas::count_by_number))]
fn read_count(word: &str) -> Option<u32>
    ensures { result ≡ count_of word.now }
{
    let number = read_seed(word)?;
    if number < 1 || number > u64::from(MOST_COUNT) {
        return None;
    }
    Some(number as u32)
}

// A run over the source that seals each event by itself.
fn plain(form: Form) -> Option<Mode>
    ensures { result ≡ plain form }
{
    Some(Mode::Serve {
        form,
        sealing: Sealing::Each,
    })
}

// One where events that come together share their seals.
fn batched(form: Form) -> Option<Mode>
    ensures { result ≡ batched form }
{
    Some(Mode::Serve {
        form,
        sealing: Sealing::Shared,
    })
}

// The same form with frames behind its replies, where it has replies.
fn with_frames(form: Form) -> Option<Form>
    ensures { result ≡ with_frames form }
{
    match form {
        Form::Lines { .. } => Some(Form::Lines { framed: true }),
        Form::Sessions { .. } => Some(Form::Sessions { framed: true }),
        Form::Frames | Form::Follow => None,
    }
}

// The mode of a form by the words behind it: none, or `batch`.
fn read_sealed(form: Form, words: &[&str]) -> Option<Mode>
    ensures { result ≡ sealed form (words_said words.now) }
{
    match *words {
        [] => plain(form),
        [word] => match word {
            "batch" => batched(form),
            _ => None,
        },
        _ => None,
    }
}

// The mode of a form by the words behind it, of which the first may be `framed`.
fn read_formed(form: Form, words: &[&str]) -> Option<Mode>
    ensures { result ≡ formed form (words_said words.now) }
{
    match *words {
        [word, ..] => match word {
            "framed" => read_sealed(with_frames(form)?, &words[1..]),
            _ => read_sealed(form, words),
        },
        [] => read_sealed(form, words),
    }
}

// A mode whose word stands alone.
fn read_alone(mode: Mode, words: &[&str]) -> Option<Mode>
    ensures { result ≡ alone (Some mode) (words_said words.now) }
{
    if words.is_empty() { Some(mode) } else { None }
}

// The mode of a seed and a count.
fn read_gen(seed: &str, count: &str) -> Option<Mode>
    ensures { result ≡ gen_of (seed_of seed.now) (count_of count.now) }
{
    let seed = read_seed(seed)?;
    let count = read_count(count)?;
    Some(Mode::Gen { seed, count })
}

// The mode of the words after `gen`.
fn read_generated(words: &[&str]) -> Option<Mode>
    ensures { result ≡ generated (words_said words.now) }
{
    match *words {
        [seed, count] => read_gen(seed, count),
        _ => None,
    }
}

// The mode of the words after the path.
fn read_mode(words: &[&str]) -> Option<Mode>
    ensures { result ≡ mode_asked (words_said words.now) }
{
    match *words {
        [] => read_formed(LINES, words),
        [word, ..] => match word {
            "run" => read_alone(RUN, &words[1..]),
            "check" => read_alone(Mode::Check, &words[1..]),
            "gen" => read_generated(&words[1..]),
            "sessions" => read_formed(Form::Sessions { framed: false }, &words[1..]),
            "frames" => read_formed(Form::Frames, &words[1..]),
            "follow" => read_formed(Form::Follow, &words[1..]),
            _ => read_formed(LINES, words),
        },
    }
}

// The mode of the words by their places.
fn read_places(first: Option<&str>, second: Option<&str>, third: Option<&str>) -> Option<Mode>
    ensures { result ≡ by_place (option_map (λ word. word.now) first.entry) (option_map (λ word. word.now) second.entry)
        (option_map (λ word. word.now) third.entry) }
{
    match (first, second, third) {
        (None, None, None) => read_mode(&[]),
        (Some(first), None, None) => read_mode(&[first]),
        (Some(first), Some(second), None) => read_mode(&[first, second]),
        (Some(first), Some(second), Some(third)) => read_mode(&[first, second, third]),
        _ => None,
    }
}

// Whether a word begins with `-`, as an option of a command does.
fn is_option(word: &str) -> bool
    ensures { result ≡ starts_with_minus word.now }
{
    let bytes = word.as_bytes();
    !bytes.is_empty() && bytes[0] == b'-'
}

// Whether one of the words begins with `-`.
fn has_option(words: &[String]) -> bool
    ensures { result ≡ list_any starts_with_minus (words_of words.now) }
{
    words.iter().any(|word| is_option(word.as_str()))
}

// A command of three optional words, each by its place.
fn three_words<'a>(alloc: Global) -> Result<Command<'a>, AllocError>
    ensures { IfOk result (λ command. app_of command ≡ three_words) }
{
    Command::new(alloc, "summarystore")
        .no_binary_name(true)
        .arg(Arg::new(alloc, "mode"))?
        .arg(Arg::new(alloc, "second"))?
        .arg(Arg::new(alloc, "third"))
}

// The mode of the words after the store's path, none of which begins with `-`.
fn read_words(alloc: Global, words: &[String]) -> Result<Option<Mode>, AllocError>
    requires { list_any starts_with_minus (words_of words.now) ≡ false }
    ensures { IfOk result (λ mode. mode ≡ mode_asked (words_of words.now)) }
{
    match three_words(alloc)?.try_get_matches_from(words) {
        Ok(matches) => Ok(read_places(
            matches.get_str("mode"),
            matches.get_str("second"),
            matches.get_str("third"),
        )),
        Err(error) => match error.kind() {
            ErrorKind::OutOfMemory => Err(AllocError),
            // A word too many.
            _ => Ok(None),
        },
    }
}

/// The mode that the words of the command line ask for: the program's name, the store's path, and then `run`, `check` or `gen SEED COUNT`, or a form
/// of the input. A form is no word (lines), `sessions`, `frames` or `follow`; behind the first two may stand `framed`, and last `batch`. `None` at all
/// other words.
pub fn mode_of(alloc: Global, words: &[String]) -> Result<Option<Mode>, AllocError>
    ensures mode { IfOk result (λ mode. mode ≡ mode_of (words_of words.now)) }
    // Words that are refused at a glance want no memory.
    ensures at_once { are_refused_at_once (words_of words.now) ≡ true → result ≡ Ok None }
{
    if words.len() < 2 {
        return Ok(None);
    }
    let arguments = &words[2..];
    if has_option(arguments) {
        return Ok(None);
    }
    read_words(alloc, arguments)
}
