// The program on devices in memory, and the inputs that several tests run.
ghost use Rattle.std.specs.Prelude.{◌<◌};

use ss_outside::{MemDisk, MemSource, Sink, Source};
use ss_program::run;
use std::alloc::{AllocError, Global};

// The worked row, 118 bytes: a stream and seven readings, each reply 7 bytes long.
pub const READINGS: &str =
    "create a exp 2 1 1\nappend a 10 5\nappend a 20 -3\nappend a 30 8\nappend a 40 1\n\
    append a 50 9\nappend a 60 2\nappend a 70 7\n";

pub const REPORT: &str = "ok 0 0\nok 1 1\nok 2 2\nok 3 2\nok 4 3\nok 5 3\nok 6 4\nok 7 3\n";

pub const RUN: &[&str] = &["summarystore", "readings.store"];

pub fn words_of(alloc: Global, words: &[&str]) -> Result<Vec<String>, AllocError> {
    let mut owned = Vec::new(alloc);
    for word in words {
        owned.push(String::from_str(alloc, word)?)?;
    }
    Ok(owned)
}

// A disk that holds these bytes.
pub fn disk_of(alloc: Global, content: &[u8]) -> Result<MemDisk, AllocError> {
    MemDisk::new(alloc, content.to_vec(alloc)?)
}

// A source that gives an input in pieces.
pub fn source_of(alloc: Global, input: &str, piece: usize) -> Result<MemSource, AllocError>
    requires { 0 < piece }
{
    Ok(MemSource::new(alloc, input.as_bytes().to_vec(alloc)?, piece))
}

// The program over these devices. Nothing is promised of it, and it's called here alone: what `run` promises is read once.
pub fn run_on<S: Source, K: Sink>(
    alloc: Global,
    words: &[&str],
    disk: &mut MemDisk,
    source: &mut S,
    sink: &mut K,
) -> Result<u8, AllocError> {
    let words = words_of(alloc, words)?;
    Ok(run(alloc, &words, disk, source, sink))
}

// The program on a disk that holds nothing.
pub fn run_anew<K: Sink>(
    alloc: Global,
    words: &[&str],
    source: &mut MemSource,
    sink: &mut K,
) -> Result<u8, AllocError> {
    let mut disk = disk_of(alloc, &[])?;
    run_on(alloc, words, &mut disk, source, sink)
}
