// What the words of the command line want of the file of a store.
ghost use Rattle.std.specs.Prelude.{◌≡◌};
ghost use Rattle.ss_arguments.specs.Modes.{words_of};
ghost use Rattle.summarystore.specs.Plan.{demand_of, is_check, missing_for};

use ss_arguments::Mode;
use ss_file::{Demand, Missing};

// Whether the words of the command line ask for a check, the program's name first.
fn is_check(words: &[String]) -> bool
    ensures { result ≡ is_check (words_of words.now) }
{
    match words {
        [_, _, mode] => mode.as_str() == "check",
        _ => false,
    }
}

/// What is done where there is no file, by whether the store has to be there and by the words of the command line, the program's
/// name first.
pub fn missing_for(has_to_exist: bool, words: &[String]) -> Missing
    ensures { result ≡ missing_for has_to_exist (words_of words.now) }
{
    match (is_check(words), has_to_exist) {
        (true, true) => Missing::ReadFail,
        (true, false) => Missing::ReadEmpty,
        (false, true) => Missing::Fail,
        (false, false) => Missing::Make,
    }
}

/// What is asked of the store, by whether it has to be a checked one and by the mode. Words that ask for no mode leave the file alone.
pub fn demand_of(has_to_be_checked: bool, mode: Option<Mode>) -> Demand
    ensures { result ≡ demand_of has_to_be_checked mode }
{
    if !has_to_be_checked {
        return Demand::Nothing;
    }
    match mode {
        Some(Mode::Serve { .. }) => Demand::Make,
        Some(Mode::Gen { .. }) => Demand::Make,
        Some(Mode::Check) => Demand::Look,
        None => Demand::Nothing,
    }
}
