// summarystore STORE < commands
#![tactic(auto)]

mod advice;
mod notice;
mod options;
mod plan;
mod telling;
mod wanted;

use plan::{Plan, Run, plan_of, status_with};
use ss_arguments::Form;
use ss_file::{FileDisk, HostSystem, StdSink, StdSource, meet};
use ss_program::{Status, exit_code};
use ss_watch::{Terminals, Watch, Watched};
use std::cell::RefCell;
use std::fs::{self, File};
use std::io::{ErrorKind, IsTerminal};
use std::process::ExitCode;
use std::rt::{Clock, Env, Files};
use std::{env, io};
use telling::{print_notice, tell, tell_no_text, tell_run, tell_terminal, tell_usage};

// The arguments of the command line, the program's name first.
fn read_words<R: Env + AllocGlobal>(rt: &R) -> io::Result<Vec<String>> {
    env::args(rt)?.collect(rt.alloc()).map_err(io::Error::from)
}

// Whether nothing has this path yet.
fn is_free<R: Files>(rt: &R, path: &str) -> bool {
    match fs::metadata(rt, path) {
        Ok(_) => false,
        Err(error) => error.kind() == ErrorKind::NotFound,
    }
}

// The exit status of a run over the store's file, standard input and standard output, which is told.
fn run_over<R: AllocGlobal + Input + Print + Eprint + Files<File = File>>(rt: &R, run: Run) -> u8 {
    let mut disk = FileDisk::new(HostSystem::new(rt), run.path, run.missing);
    meet(&mut disk, run.demand);
    let mut source = StdSource::new(rt);
    let mut sink = StdSink::new(rt);
    let number = ss_program::run(rt.alloc(), &run.words, &mut disk, &mut source, &mut sink);
    tell_run(rt, number, &disk, source.why().or(sink.why()))
}

// The same, watched.
fn run_watched<R: AllocGlobal + Input + Print + Eprint + Clock + Files<File = File>>(
    rt: &R,
    run: Run,
    watch: Watch<'_, R>,
) -> u8 {
    let watch = RefCell::new(watch);
    let mut disk = FileDisk::new(HostSystem::new(rt), run.path, run.missing);
    meet(&mut disk, run.demand);
    let mut disk = Watched::new(disk, &watch);
    let mut source = Watched::new(StdSource::new(rt), &watch);
    let mut sink = Watched::new(StdSink::new(rt), &watch);
    let number = ss_program::run(rt.alloc(), &run.words, &mut disk, &mut source, &mut sink);
    let has_refused = match watch.try_borrow_mut() {
        Ok(mut watch) => watch.finish(number == Status::Done.number()) > 0,
        Err(_) => false,
    };
    let why = source.device().why().or(sink.device().why());
    let number = tell_run(rt, number, disk.device(), why);
    status_with(run.is_strict, has_refused, number)
}

// The exit status of a run over a store, which is watched where standard error has something to say.
fn run_heard<R: AllocGlobal + Input + Print + Eprint + Clock + Files<File = File>>(
    rt: &R,
    run: Run,
    terminals: Terminals,
) -> u8 {
    let Ok(shown) = String::from_str(rt.alloc(), run.path.as_str()) else {
        return tell(rt, Status::OutOfMemory.number(), None);
    };
    let is_new = (terminals.input || terminals.error) && is_free(rt, shown.as_str());
    let watch = Watch::new(
        rt,
        shown.as_str(),
        is_new,
        run.explains,
        run.form,
        terminals,
    );
    if watch.hears() {
        run_watched(rt, run, watch)
    } else {
        run_over(rt, run)
    }
}

// The same. Where the arguments aren't known, they are read again, to say what is wrong with them.
fn run_asked<R: Env + AllocGlobal + Input + Print + Eprint + Clock + Files<File = File>>(
    rt: &R,
    run: Run,
    terminals: Terminals,
) -> u8 {
    let number = run_heard(rt, run, terminals);
    if number != Status::Usage.number() {
        return number;
    }
    match read_words(rt) {
        Ok(words) => tell_usage(rt, terminals.output, &words, number),
        Err(error) if error.kind() == ErrorKind::OutOfMemory => number,
        Err(_) => tell_no_text(rt, terminals.output, number),
    }
}

// The exit status of a run, or of a notice. Arguments that can't be read as text count as none.
fn run_program<R: Env + AllocGlobal + Input + Print + Eprint + Clock + Files<File = File>>(
    rt: &R,
    terminals: Terminals,
) -> u8 {
    let words = match read_words(rt) {
        Ok(words) => words,
        Err(error) if error.kind() == ErrorKind::OutOfMemory => return tell(
            rt,
            Status::OutOfMemory.number(),
            None,
        ),
        Err(_) => Vec::new(rt.alloc()),
    };
    match plan_of(rt.alloc(), words) {
        Ok(Plan::Notice(notice)) => {
            let mut sink = StdSink::new(rt);
            let number = print_notice(&mut sink, notice.text());
            tell(rt, number, sink.why())
        }
        Ok(Plan::Run(run)) if run.form == Form::Frames && terminals.output => tell_terminal(rt),
        Ok(Plan::Run(run)) => run_asked(rt, run, terminals),
        Err(_) => tell(rt, Status::OutOfMemory.number(), None),
    }
}

fn main(rt: HostRuntime) -> ExitCode {
    let terminals = Terminals {
        input: rt.stdin().is_terminal(),
        output: rt.stdout().is_terminal(),
        error: rt.stderr().is_terminal(),
    };
    exit_code(run_program(&rt, terminals))
}
