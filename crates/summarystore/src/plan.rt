// What the program does, by the words of the command line.
ghost use Rattle.std.specs.Prelude.{◌≡◌, string_bytes, IfOk, OnOk};
ghost use Rattle.ss_arguments.specs.Modes.{words_of};
ghost use Rattle.ss_arguments.specs.Modes.{mode_of};
ghost use Rattle.summarystore.specs.Plan.{asked_by, form_in, path_of, planned, planned_by, run_of, status_with};

use crate::notice::{Notice, notice_of};
use crate::options::{Options, put_words, take_options};
use crate::wanted::{demand_of, missing_for};
use ss_arguments::{Form, Mode, mode_of};
use ss_file::{Demand, Missing};
use std::alloc::{AllocError, Global};

/// A run over the file of a store.
#[derive(Drop)]
pub struct Run {
    /// The words that it gets, the program's name first.
    pub words: Vec<String>,
    /// The store's path, or the empty path where none is among the words.
    pub path: String,
    pub missing: Missing,
    /// What is asked of the store before the run.
    pub demand: Demand,
    /// Whether standard error says why lines are refused, also where it is no terminal.
    pub explains: bool,
    /// Whether a run that is done ends with status 1 where a line was refused.
    pub is_strict: bool,
    /// The form of the input, where one is read.
    pub form: Form,
}

/// What the program does.
#[derive(Drop)]
pub enum Plan {
    Notice(Notice),
    Run(Run),
}

// The store's path: the second word, or the empty path where there is none.
fn path_of(alloc: Global, words: &[String]) -> Result<String, AllocError>
    ensures { IfOk result (λ path. string_bytes path ≡ path_of (words_of words.now)) }
{
    match words {
        [_, path, ..] => String::from_str(alloc, path.as_str()),
        _ => Ok(String::new(alloc)),
    }
}

// The form of the input of a mode, where it reads one.
fn form_in(mode: Option<Mode>) -> Form
    ensures { result ≡ form_in mode }
{
    match mode {
        Some(Mode::Serve { form, .. }) => form,
        _ => Form::Lines { framed: false },
    }
}

// The run that words without options ask for.
fn run_of(alloc: Global, options: Options, words: Vec<String>) -> Result<Run, AllocError>
    ensures { IfOk result (λ run. asked_by run ≡ run_of options (words_of words.items)) }
{
    let path = path_of(alloc, &words)?;
    let missing = missing_for(options.has_to_exist, &words);
    let mode = mode_of(alloc, &words)?;
    Ok(Run {
        words,
        path,
        missing,
        demand: demand_of(options.has_to_be_checked, mode),
        explains: options.explains || options.is_strict,
        is_strict: options.is_strict,
        form: form_in(mode),
    })
}

/// What the program does by the words of the command line, its name first.
pub fn plan_of(alloc: Global, words: Vec<String>) -> Result<Plan, AllocError>
    ensures { IfOk result (λ plan. planned_by plan ≡ planned (words_of words.items)) }
{
    let mut words = words;
    if let Some(notice) = notice_of(&words) {
        return Ok(Plan::Notice(notice));
    }
    let options = take_options(&mut words);
    put_words(alloc, options, &mut words)?;
    Ok(Plan::Run(run_of(alloc, options, words)?))
}

/// The exit status of a run: 1 in place of 0, where a refused line is to show in it and there was one.
pub fn status_with(is_strict: bool, has_refused: bool, number: u8) -> u8
    ensures { result ≡ status_with is_strict has_refused number }
{
    if number == 0 && is_strict && has_refused {
        1
    } else {
        number
    }
}
