// What is said of how a run ended, and notices.
ghost use Rattle.std.specs.Prelude.{◌≡◌, ◌⊎◌};
ghost use Rattle.ss_outside.specs.Verdict.{Rose};
ghost use Rattle.ss_program.specs.Sent.{appended};

use crate::advice::advice;
use crate::notice::HELP;
use ss_file::{FileDisk, Opened, Reason, Stream, System, Trouble};
use ss_outside::Sink;
use ss_program::{Status, complaint, send};
use std::io;

/// Hands a notice to the sink, and answers the exit status.
pub fn print_notice<K: Sink>(sink: &mut K, text: &str) -> u8
    ensures number { ((result ≡ 0) × (K.faults sink.new ≡ K.faults sink.old))
        ⊎ ((result ≡ 6) × Rose (K.faults sink.old) (K.faults sink.new)) }
    ensures whole { result ≡ 0 → K.held sink.new ≡ appended (K.held sink.old) text.now }
{
    match send(sink, text.as_bytes()) {
        Ok(()) => Status::Done.number(),
        Err(_) => Status::SinkFault.number(),
    }
}

// Says what is wrong with the file of a store, in one line. Nothing is said where it would go into that file.
fn tell_reason<R: Eprint>(rt: &R, path: &str, reason: Reason) -> io::Result<()> {
    let words = reason.trouble.words();
    match (reason.trouble, reason.error) {
        (Trouble::Stream(Stream::Error), _) => Ok(()),
        (Trouble::NoName, _) => eprintln!(rt; "summarystore: {words}"),
        (_, None) => eprintln!(rt; "summarystore: {path}: {words}"),
        (_, Some(error)) => eprintln!(rt; "summarystore: {path}: {words} [{error}]"),
    }
}

// Says what an exit status stands for, with what the system said.
fn tell_status<R: Eprint>(rt: &R, text: &str, why: Option<io::Error>) -> io::Result<()> {
    match why {
        None => eprintln!(rt; "{text}"),
        Some(error) => eprintln!(rt; "{text} [{error}]"),
    }
}

/// Says on standard error what an exit status stands for, where it says something, and why the input or the output failed.
/// Answers the status.
pub fn tell<R: Eprint>(rt: &R, number: u8, why: Option<io::Error>) -> u8
    ensures { result ≡ number }
{
    if let Some(text) = complaint(number) {
        let _ = tell_status(rt, text, why);
    }
    number
}

// Says how the program is used, where standard output doesn't show it, and what is wrong with its arguments.
fn tell_advice<R: Eprint>(rt: &R, is_shown: bool, advice: &str) -> io::Result<()> {
    if !is_shown && let Some(usage) = HELP.lines().next() {
        eprintln!(rt; "{usage}")?;
    }
    eprintln!(rt; "summarystore: {advice}")
}

/// Says on standard error what is wrong with these words of the command line, which aren't known. Answers the status.
pub fn tell_usage<R: Eprint + AllocGlobal>(
    rt: &R,
    is_shown: bool,
    words: &[String],
    number: u8,
) -> u8
    ensures { result ≡ number }
{
    if let Ok(advice) = advice(rt.alloc(), words) {
        let _ = tell_advice(rt, is_shown, advice.as_str());
    }
    number
}

/// Says on standard error that the words of the command line can't be read as text. Answers the status.
pub fn tell_no_text<R: Eprint>(rt: &R, is_shown: bool, number: u8) -> u8
    ensures { result ≡ number }
{
    let _ = tell_advice(
        rt,
        is_shown,
        "an argument isn't text in UTF-8, as each has to be",
    );
    number
}

/// Says on standard error that frames aren't written to a terminal, where no file was touched. Answers the status.
pub fn tell_terminal<R: Eprint>(rt: &R) -> u8
    ensures { result ≡ 2 }
{
    let _ = eprintln!(rt;
        "summarystore: frames are bytes, and standard output is a terminal: send them elsewhere, as in summarystore STORE frames > FILE"
    );
    Status::Usage.number()
}

/// Says the same as `tell` after a run over a store, with what is wrong with its file. Where there is none, and none was to be made, this
/// is said too.
pub fn tell_run<R: Eprint, S: System>(
    rt: &R,
    number: u8,
    disk: &FileDisk<S>,
    why: Option<io::Error>,
) -> u8
    ensures { result ≡ number }
{
    if disk.opened() == Some(Opened::Nothing) {
        let _ = tell_reason(rt, disk.path(), Reason::own(Trouble::NoFile));
    }
    match disk.why() {
        Some(reason) if number == Status::DiskFault.number() => {
            let _ = tell_reason(rt, disk.path(), reason);
            number
        }
        _ => tell(rt, number, why),
    }
}
