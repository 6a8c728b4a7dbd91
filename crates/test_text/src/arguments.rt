// Lists of words, each with the mode that it asks for.
ghost use Rattle.std.specs.Prelude.{◌<◌};

use crate::tables::pass;
use ss_arguments::{
    Form, Mode, Sealing, mode_of, numbers_of_gen_are_in_range, options_ask_for_no_mode,
};
use std::alloc::{AllocError, Global};
use std::test::Fail;

// Right words, wrong ones, numbers at the ends of their ranges and past them, with signs, and of 20 and 21 digits.
const WORDS: [&'static str; 27] = [
    "run",
    "gen",
    "1",
    "-1",
    "",
    "check",
    "RUN",
    "runs",
    "x",
    "-",
    "--",
    "--help",
    "+1",
    "1 ",
    "0",
    "100000",
    "100001",
    "18446744073709551615",
    "18446744073709551616",
    "00000000000000000001",
    "000000000000000000001",
    "00000000000000000000",
    "batch",
    "sessions",
    "framed",
    "frames",
    "follow",
];

// The number that a word spells in at most 20 digits.
fn number_of(word: &str) -> Option<u64> {
    match word {
        "1" => Some(1),
        "0" => Some(0),
        "100000" => Some(100_000),
        "100001" => Some(100_001),
        "18446744073709551615" => Some(u64::MAX),
        "00000000000000000001" => Some(1),
        "00000000000000000000" => Some(0),
        _ => None,
    }
}

// A run over the source.
fn served(form: Form, sealing: Sealing) -> Option<Mode> {
    Some(Mode::Serve { form, sealing })
}

// Lines without frames behind their replies, and with them, and the same of sessions.
const LINES: Form = Form::Lines { framed: false };

const FRAMED_LINES: Form = Form::Lines { framed: true };

const SESSIONS: Form = Form::Sessions { framed: false };

const FRAMED_SESSIONS: Form = Form::Sessions { framed: true };

// The mode that one word asks for.
fn mode_of_word(word: &str) -> Option<Mode> {
    match word {
        "run" => served(LINES, Sealing::Each),
        "batch" => served(LINES, Sealing::Shared),
        "framed" => served(FRAMED_LINES, Sealing::Each),
        "sessions" => served(SESSIONS, Sealing::Each),
        "frames" => served(Form::Frames, Sealing::Each),
        "follow" => served(Form::Follow, Sealing::Each),
        "check" => Some(Mode::Check),
        _ => None,
    }
}

// The mode that two words ask for.
fn mode_of_two(mode: &str, second: &str) -> Option<Mode> {
    match (mode, second) {
        ("framed", "batch") => served(FRAMED_LINES, Sealing::Shared),
        ("sessions", "framed") => served(FRAMED_SESSIONS, Sealing::Each),
        ("sessions", "batch") => served(SESSIONS, Sealing::Shared),
        ("frames", "batch") => served(Form::Frames, Sealing::Shared),
        ("follow", "batch") => served(Form::Follow, Sealing::Shared),
        _ => None,
    }
}

// The mode that three words ask for.
fn mode_of_three(mode: &str, second: &str, third: &str) -> Option<Mode> {
    match (mode, second, third) {
        ("sessions", "framed", "batch") => served(FRAMED_SESSIONS, Sealing::Shared),
        ("gen", seed, count) => mode_of_numbers(number_of(seed), number_of(count)),
        _ => None,
    }
}

// The mode of a seed and a count: a count is from 1 to 100,000.
fn mode_of_numbers(seed: Option<u64>, count: Option<u64>) -> Option<Mode> {
    match (seed, count) {
        (Some(seed), Some(count)) => {
            if count == 0 || count > 100_000 {
                return None;
            }
            Some(Mode::Gen {
                seed,
                count: count as u32,
            })
        }
        _ => None,
    }
}

// The mode that all the words ask for, by the table of modes.
fn expected(words: &[String]) -> Option<Mode> {
    match words {
        [_, _] => served(LINES, Sealing::Each),
        [_, _, word] => mode_of_word(word.as_str()),
        [_, _, mode, second] => mode_of_two(mode.as_str(), second.as_str()),
        [_, _, mode, second, third] => mode_of_three(
            mode.as_str(),
            second.as_str(),
            third.as_str(),
        ),
        _ => None,
    }
}

fn push(alloc: Global, words: &mut Vec<String>, word: &str) -> Result<(), AllocError> {
    words.push(String::from_str(alloc, word)?)?;
    Ok(())
}

fn push_nth(alloc: Global, words: &mut Vec<String>, place: u32) -> Result<(), AllocError> {
    if place >= 27 {
        return Ok(());
    }
    push(alloc, words, WORDS[place as usize])
}

// Lists of `count` of the first `base` words. The digits of a list's number to this base are the places of its words.
#[derive(Clone, Copy)]
struct Lists {
    base: u32,
    count: u32,
}

// Adds the words of the list with this number.
fn push_all(
    alloc: Global,
    words: &mut Vec<String>,
    lists: Lists,
    number: u32,
) -> Result<(), AllocError>
    requires { 0 < lists.base }
{
    let mut rest = number;
    for _ in 0..lists.count {
        push_nth(alloc, words, rest % lists.base)?;
        rest /= lists.base;
    }
    Ok(())
}

// Whether the words are read as the table says.
fn agrees(alloc: Global, words: &Vec<String>) -> Result<bool, AllocError> {
    Ok(mode_of(alloc, words)? == expected(words))
}

// Whether a list after a path is read as the table says.
fn add_and_read(
    alloc: Global,
    words: &mut Vec<String>,
    lists: Lists,
    number: u32,
) -> Result<bool, AllocError>
    requires { 0 < lists.base }
{
    push(alloc, words, "summarystore")?;
    push(alloc, words, "-s")?;
    push_all(alloc, words, lists, number)?;
    agrees(alloc, words)
}

fn is_right(alloc: Global, lists: Lists, number: u32) -> Result<bool, AllocError>
    requires { 0 < lists.base }
{
    let mut words = Vec::new(alloc);
    add_and_read(alloc, &mut words, lists, number)
}

// The number of the first list, below `end`, that is read otherwise.
fn first_wrong(alloc: Global, lists: Lists, end: u32) -> Result<Option<u32>, AllocError>
    requires { 0 < lists.base }
{
    for number in 0..end {
        if !is_right(alloc, lists, number)? {
            return Ok(Some(number));
        }
    }
    Ok(None)
}

// The same of all lists of up to `most` of the first `base` words.
fn first_wrong_of_all(alloc: Global, base: u32, most: u32) -> Result<Option<u32>, AllocError>
    requires { 0 < base }
{
    let mut end: u32 = 1;
    for count in 0..most {
        let wrong = first_wrong(alloc, Lists { base, count }, end)?;
        if wrong.is_some() {
            return Ok(wrong);
        }
        end = end.wrapping_mul(base);
    }
    first_wrong(alloc, Lists { base, count: most }, end)
}

#[test]
fn up_to_three_words(rt: HostRuntime) -> Result<(), Fail> {
    pass(first_wrong_of_all(rt.alloc(), 27, 3)?)
}

#[test]
fn up_to_five_of_the_first_five_words(rt: HostRuntime) -> Result<(), Fail> {
    pass(first_wrong_of_all(rt.alloc(), 5, 5)?)
}

// Whether no word, and the program's name alone, ask for no mode.
fn ask_for_nothing(alloc: Global, words: &mut Vec<String>) -> Result<bool, AllocError> {
    if !agrees(alloc, words)? {
        return Ok(false);
    }
    push(alloc, words, "summarystore")?;
    agrees(alloc, words)
}

#[test]
fn no_path(rt: HostRuntime) -> Result<(), Fail> {
    let mut words = Vec::new(rt.alloc());
    assert!(rt; ask_for_nothing(rt.alloc(), &mut words)?);
    Ok(())
}

#[test]
fn laws_are_called() {
    numbers_of_gen_are_in_range();
    options_ask_for_no_mode();
}
