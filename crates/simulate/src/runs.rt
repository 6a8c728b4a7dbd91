// The program over devices in memory.
use crate::noted::Noted;
use ss_outside::{MemDisk, MemSink, MemSource};
use ss_program::run;
use std::alloc::{AllocError, Global};

/// How a run ended, and what it wrote.
#[derive(Drop)]
pub struct Ended {
    pub status: u8,
    pub written: Vec<u8>,
}

/// What fails of a run's input and output, by the numbers of reads and puts, and how many bytes a read gives.
#[derive(Clone, Copy)]
pub struct Feed<'a> {
    pub input: &'a [u8],
    pub piece: usize,
    pub reads: &'a [u64],
    pub puts: &'a [u64],
}

/// An input that is read without a failure, in pieces.
pub fn whole(input: &[u8], piece: usize) -> Feed<'_> {
    Feed {
        input,
        piece,
        reads: &[],
        puts: &[],
    }
}

// The arguments of the command line by the words behind the store.
fn words_of(alloc: Global, mode: &str) -> Result<Vec<String>, AllocError> {
    let mut words = Vec::new(alloc);
    words.push(String::from_str(alloc, "summarystore")?)?;
    words.push(String::from_str(alloc, "memory.store")?)?;
    for word in mode.split_whitespace() {
        words.push(String::from_str(alloc, word)?)?;
    }
    Ok(words)
}

fn source_of(alloc: Global, feed: Feed<'_>) -> Result<MemSource, AllocError> {
    let mut source = MemSource::new(alloc, feed.input.to_vec(alloc)?, feed.piece.max(1));
    source.fail_at(feed.reads.to_vec(alloc)?);
    Ok(source)
}

// The program, called here alone.
fn run_over(
    alloc: Global,
    mode: &str,
    disk: &mut Noted<MemDisk>,
    source: &mut MemSource,
    sink: &mut MemSink,
) -> Result<u8, AllocError> {
    let words = words_of(alloc, mode)?;
    Ok(run(alloc, &words, disk, source, sink))
}

/// A run in a mode over an input.
pub fn run_on(
    alloc: Global,
    mode: &str,
    disk: &mut Noted<MemDisk>,
    feed: Feed<'_>,
) -> Result<Ended, AllocError> {
    let mut source = source_of(alloc, feed)?;
    let mut sink = MemSink::new(alloc);
    sink.fail_at(feed.puts.to_vec(alloc)?);
    let status = run_over(alloc, mode, disk, &mut source, &mut sink)?;
    let written = sink.held().to_vec(alloc)?;
    Ok(Ended { status, written })
}
