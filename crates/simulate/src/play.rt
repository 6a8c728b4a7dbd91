// A script, line by line. What comes of a line stands behind it, on lines that begin with `=`.
mod changing;
mod giving;
mod sweeping;

use crate::images::disk_of;
use crate::noted::Noted;
use crate::report::print_written;
use crate::runs::{Feed, run_on};
use crate::story::new_disk;
use ss_outside::MemDisk;
use std::alloc::{AllocError, Global};
use std::mem;

/// What a script has come to.
#[derive(Drop)]
pub struct Play {
    alloc: Global,
    // The disk, and a second one.
    disk: Noted<MemDisk>,
    other: Noted<MemDisk>,
    checked: bool,
    // What the next run is given, and how.
    input: Vec<u8>,
    asks: Vec<u8>,
    piece: usize,
    syncs: u64,
    reads: Vec<u64>,
    puts: Vec<u64>,
    // The frames that the last run of these wrote.
    sent: Vec<u8>,
    out: String,
    wrong: u64,
}

/// A script that hasn't begun.
pub fn start(alloc: Global) -> Result<Play, AllocError> {
    Ok(Play {
        alloc,
        disk: disk_of(alloc, &[])?,
        other: disk_of(alloc, &[])?,
        checked: false,
        input: Vec::new(alloc),
        asks: Vec::new(alloc),
        piece: 4096,
        syncs: 0,
        reads: Vec::new(alloc),
        puts: Vec::new(alloc),
        sent: Vec::new(alloc),
        out: String::new(alloc),
        wrong: 0,
    })
}

// The first word of a line, and the others.
fn split(line: &str) -> (&str, &str) {
    line.split_once(' ').unwrap_or((line, ""))
}

impl Play {
    /// What is to be printed, and the exit status: 2 where a line isn't known.
    pub fn end(self) -> (String, u8) {
        let status = if self.wrong == 0 { 0 } else { 2 };
        (self.out, status)
    }

    /// Takes a line. One that says what came of another is left out, since it's said anew.
    pub fn take(&mut self, line: &str) -> Result<(), AllocError> {
        if line.starts_with("=") {
            return Ok(());
        }
        self.out.push_str(line)?;
        self.out.push_str("\n")?;
        if line.is_empty() || line.starts_with("#") {
            return Ok(());
        }
        let (word, rest) = split(line);
        self.take_word(word, rest)
    }

    fn take_word(&mut self, word: &str, rest: &str) -> Result<(), AllocError> {
        match word {
            ">" => self.give(rest),
            "?" => self.ask(rest),
            "bytes" => self.give_bytes(rest),
            "each" => self.give_each(rest),
            "frames" => self.give_frames(rest),
            "piece" => self.set_piece(rest),
            "fail" | "stop" | "reads" | "puts" => self.set_fault(word, rest),
            "run" => self.run(rest),
            "alike" => self.run_alike(rest),
            "behind" => self.set_syncs(rest),
            "sweep" => self.sweep(rest),
            _ => self.take_disk_word(word, rest),
        }
    }

    fn take_disk_word(&mut self, word: &str, rest: &str) -> Result<(), AllocError> {
        match word {
            "new" => self.make(rest),
            "other" => {
                mem::swap(&mut self.disk, &mut self.other);
                Ok(())
            }
            "crash" => self.crash(rest),
            "put" => self.put(rest),
            "cut" => self.cut(rest),
            "copy" => self.copy(rest),
            "look" => self.look(rest),
            "openings" => self.sweep_disk(),
            "cuts" => self.sweep_cuts(),
            "slots" => self.say_slots(),
            "syncs" => self.say_syncs(),
            "image" => self.say_image(),
            _ => self.refuse(),
        }
    }

    fn refuse(&mut self) -> Result<(), AllocError> {
        self.wrong = self.wrong.saturating_add(1);
        self.out.push_str("= unknown\n")
    }

    fn fed(&self) -> Feed<'_> {
        Feed {
            input: &self.input,
            piece: self.piece,
            reads: &self.reads,
            puts: &self.puts,
        }
    }

    // `run [WORDS]`: the program with these words behind the store.
    fn run(&mut self, mode: &str) -> Result<(), AllocError> {
        let fed = Feed {
            input: &self.input,
            piece: self.piece,
            reads: &self.reads,
            puts: &self.puts,
        };
        let ended = run_on(self.alloc, mode, &mut self.disk, fed)?;
        print_written(&mut self.out, mode, &ended.written)?;
        let status = ended.status;
        if mode.starts_with("frames") {
            self.sent = ended.written;
        }
        self.forget();
        write!(self.out, "= status {status}\n")
    }

    // Nothing is given to the next run yet, and nothing fails of it.
    fn forget(&mut self) {
        self.input.clear();
        self.reads.clear();
        self.puts.clear();
        self.disk.device_mut().fail_at(Vec::new(self.alloc));
    }

    // `alike [WORDS]`: the same on a new store, in whatever pieces it's read, and also with `batch` behind the words. The store is that
    // of the first.
    fn run_alike(&mut self, mode: &str) -> Result<(), AllocError> {
        let batch = format!(in self.alloc; "{mode} batch")?;
        let mut kept = new_disk(self.alloc, self.checked)?;
        let first = run_on(self.alloc, mode, &mut kept, self.fed())?;
        let mut alike = true;
        for piece in [1, 3, 64, 4096] {
            for words in [mode, batch.as_str()] {
                let mut disk = new_disk(self.alloc, self.checked)?;
                let fed = Feed {
                    piece,
                    ..self.fed()
                };
                let ended = run_on(self.alloc, words, &mut disk, fed)?;
                alike = alike
                    && ended.status == first.status
                    && ended.written.as_slice() == first.written.as_slice();
            }
        }
        self.disk = kept;
        print_written(&mut self.out, mode, &first.written)?;
        self.forget();
        let status = first.status;
        let word = if alike { "alike" } else { "otherwise" };
        write!(self.out, "= status {status} {word}\n")
    }
}
