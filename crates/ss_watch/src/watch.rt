// What standard error says while the program runs: why lines are refused, how far the run is, and which store it is.
use crate::explain::{Counts, Explained, Explainer, MOST_EXPLAINED, Unit};
use crate::progress::{Done, Progress, WIDTH, progress_text};
use crate::terminals::Terminals;
use ss_arguments::Form;
use std::alloc::{AllocError, Global};
use std::rt::Clock;

// What is said to who types commands.
const HINT: &str = "Commands go one a line: summarystore --help lists them, and Ctrl-D ends.\n";

// The same, where frames are read.
const HINT_ON_FRAMES: &str =
    "Frames are read, which are no text: the mode frames writes them. Ctrl-D ends.\n";

/// Watches a run from beside it, and says on standard error what a person wants to know. It is told what the devices
/// did, after they did it, and changes nothing of it.
#[derive(Drop)]
pub struct Watch<'a, R> {
    rt: &'a R,
    store: &'a str,
    terminals: Terminals,
    explains: bool,
    form: Form,
    // Whether the store is made by this run, and that has still to be said.
    is_new: bool,
    // Whether it still has to be said how commands are typed.
    greets: bool,
    // Whether a part of a line of a reply was written, and the rest wasn't.
    is_inside: bool,
    explainer: Explainer,
    progress: Progress,
    // So many refused lines or frames were explained.
    told: u64,
    read: u64,
    syncs: u64,
}

// What is said at the end, where so many refused lines or frames weren't explained.
fn ending(alloc: Global, counts: Counts, more: u64) -> Result<String, AllocError> {
    let (refused, read, many) = (counts.refused, counts.read, counts.unit.many());
    let what = match counts.unit {
        Unit::Line => "refused",
        Unit::Frame => "refused, or too early",
    };
    if more > 0 {
        format!(in alloc; "and {more} more\n{refused} of {read} {many} {what}\n")
    } else {
        format!(in alloc; "{refused} of {read} {many} {what}\n")
    }
}

// The first line of a text, with its end, and the rest.
fn first_line(text: &[u8]) -> (&[u8], &[u8]) {
    let length = match text.iter().position(|byte| *byte == b'\n') {
        Some(end) => end.saturating_add(1),
        None => text.len(),
    };
    (
        text.get(..length).unwrap_or(text),
        text.get(length..).unwrap_or(&[]),
    )
}

impl<'a, R: Eprint + Clock + AllocGlobal> Watch<'a, R> {
    /// The watch of a run over the store of this path. Where it says that the store is new, that is told once the first
    /// bytes are written to it.
    pub fn new(
        rt: &'a R,
        store: &'a str,
        is_new: bool,
        explains: bool,
        form: Form,
        terminals: Terminals,
    ) -> Watch<'a, R> {
        let most = if terminals.input {
            u64::MAX
        } else {
            MOST_EXPLAINED
        };
        Watch {
            rt,
            store,
            terminals,
            explains: explains || terminals.error,
            form,
            is_new,
            greets: terminals.input,
            is_inside: false,
            explainer: Explainer::new(rt.alloc(), most, form),
            progress: Progress::new(),
            told: 0,
            read: 0,
            syncs: 0,
        }
    }

    /// Whether there is anything to say in this run.
    pub fn hears(&self) -> bool {
        self.explains || self.terminals.input
    }

    // Writes a text to standard error. Where memory ran out, or standard error takes nothing, nobody hears it.
    fn print(&self, text: Result<String, AllocError>) {
        if let Ok(text) = text {
            let _ = self.rt.eprint(text.as_str());
        }
    }

    // Takes the line of progress away.
    fn clear(&mut self) {
        if self.progress.is_shown {
            self.progress.is_shown = false;
            self.print(format!(in self.rt.alloc(); "\r{:WIDTH$}\r", ""));
        }
    }

    // Shows how far the run is, where that is due. A person who types sees it by the replies.
    fn renew(&mut self) {
        if !self.terminals.error || self.terminals.input && self.explainer.counts().read > 0 {
            return;
        }
        let Some(time) = self.progress.due(self.rt) else {
            return;
        };
        let done = Done {
            counts: self.explainer.counts(),
            read: self.read,
            syncs: self.syncs,
        };
        self.progress.is_shown = true;
        self.print(progress_text(self.rt.alloc(), &done, time));
    }

    // Says that the store was made.
    fn announce(&mut self) {
        if self.is_new {
            self.is_new = false;
            self.clear();
            let store = self.store;
            self.print(format!(in self.rt.alloc(); "summarystore: made a new store: {store}\n"));
        }
    }

    // Says how commands are typed.
    fn greet(&mut self) {
        let store = self.store;
        let hint = if self.form == Form::Follow {
            HINT_ON_FRAMES
        } else {
            HINT
        };
        self.print(format!(in self.rt.alloc(); "summarystore: the store {store} is open\n{hint}"));
    }

    /// The input is about to be read.
    pub fn begin_read(&mut self) {
        if self.explainer.counts().read == 0 {
            self.progress.restart(self.rt);
        }
        if self.greets {
            self.greets = false;
            self.clear();
            self.greet();
        }
    }

    /// These bytes of the input were read, and none at its end.
    pub fn end_read(&mut self, bytes: &[u8]) {
        self.explainer.read(bytes);
        self.say_misspelt(bytes.len().saturating_add(1));
        self.renew();
    }

    /// A piece of the report is about to be written.
    pub fn begin_put(&mut self) {
        if self.terminals.output {
            self.clear();
        }
    }

    // Says why a line or a frame was refused.
    fn say(&mut self, explained: &Explained) {
        if !self.explains {
            return;
        }
        self.told = self.told.saturating_add(1);
        self.clear();
        let (one, number, word, reason) = (
            explained.unit.one(),
            explained.number,
            explained.word,
            explained.reason.as_str(),
        );
        self.print(format!(in self.rt.alloc(); "{one} {number}: {word}: {reason}\n"));
    }

    // Says why lines are refused by themselves, where nothing is replied to them and there are at most so many.
    fn say_misspelt(&mut self, most: usize) {
        for _ in 0..most {
            match self.explainer.misspelt() {
                Some(explained) => self.say(&explained),
                None => break,
            }
        }
    }

    // So many bytes of a line of a reply were written, or of the rest of one. A line is heard with its first bytes.
    fn end_line(&mut self, line: &[u8], count: usize) {
        let is_first = !self.is_inside;
        self.is_inside = count < line.len();
        if is_first && let Some(explained) = self.explainer.reply(line) {
            self.say(&explained);
        }
    }

    // Takes that so many bytes of the lines of a piece of the report were written.
    fn end_lines(&mut self, piece: &[u8], count: usize) {
        let (mut left, mut written) = (piece, count);
        for _ in 0..piece.len() {
            if written == 0 || left.is_empty() {
                break;
            }
            let (line, rest) = first_line(left);
            self.end_line(line, written);
            written = written.saturating_sub(line.len());
            left = rest;
        }
    }

    /// So many bytes of a piece of the report were written, which has one line or several, or a frame or several.
    pub fn end_put(&mut self, piece: &[u8], count: usize) {
        if self.form == Form::Frames {
            self.explainer.write(count);
        } else {
            self.end_lines(piece, count);
        }
        self.renew();
    }

    /// So many bytes of the store were read.
    pub fn end_disk_read(&mut self, count: usize) {
        self.read = self.read.saturating_add(count as u64);
        self.renew();
    }

    /// Something was written to the store.
    pub fn end_write(&mut self) {
        self.announce();
    }

    /// What was written to the store is durable.
    pub fn end_sync(&mut self) {
        self.syncs = self.syncs.saturating_add(1);
        self.renew();
    }

    /// Says at the end how many lines or frames were refused, and answers it. The run was done, or something ended it before.
    pub fn finish(&mut self, is_done: bool) -> u64 {
        self.clear();
        if is_done {
            self.explainer.finish();
        }
        let counts = self.explainer.counts();
        if counts.refused > 0 && self.explains {
            let more = counts.refused.saturating_sub(self.told);
            self.print(ending(self.rt.alloc(), counts, more));
        }
        counts.refused
    }
}
