// The disk: an image of the file in memory, and what is still to be done to the file.
ghost use Rattle.std.specs.Prelude.{◌≡◌, ◌≤◌, length};
ghost use Rattle.ss_outside.specs.Disk.{IsReadFrom};

use crate::fill::fill;
use ss_outside::{Disk, Failed};
use std::alloc::{AllocError, Global};

/// A call of the file that C is to make.
#[derive(Drop)]
pub enum Operation {
    Write { at: u64, bytes: Vec<u8> },
    Sync,
}

/// What C is to do next.
#[derive(Clone, Copy, Debug)]
pub enum Next {
    /// All is done.
    Nothing,
    /// To sync the file.
    Sync,
    /// To write so many bytes, which are in the room, from a place on.
    Write { at: u64, count: usize },
    /// To hand in a room of so many bytes.
    Room(usize),
}

/// The file as it is once all that is noted is done to it, and what is noted. A call that finds no memory for its note fails, and after
/// it each call does.
#[derive(Drop)]
pub struct Image {
    alloc: Global,
    bytes: Vec<u8>,
    operations: Vec<Operation>,
    // How many of the operations were taken.
    taken: usize,
    // Whether what is done to the image is to be done to the file.
    is_noted: bool,
    faults: u64,
}

// Fills the buffer with the content from `at` on, and with 0 past its end.
fn read_from(content: &[u8], at: u64, into: &mut [u8])
    ensures { IsReadFrom content.now at into.new }
{
    into.fill(0);
    let start = at.min(content.len() as u64) as usize;
    let count = into.len().min(content.len() - start);
    into[..count].copy_from_slice(&content[start..start + count]);
}

// Puts the bytes at the place, over what is there and past the end. A place past the end stands for the end.
fn overwrite_at(content: &mut Vec<u8>, at: usize, bytes: &[u8]) -> Result<(), AllocError> {
    let at = at.min(content.len());
    let over = bytes.len().min(content.len() - at);
    content.extend_from_slice(&bytes[over..])?;
    content[at..at + over].copy_from_slice(&bytes[..over]);
    Ok(())
}

impl Image {
    /// The image of a file that holds these bytes, to which nothing is to be done. What is done to it later is noted, or isn't.
    pub fn of(alloc: Global, content: &[u8], is_noted: bool) -> Result<Image, AllocError> {
        Ok(Image {
            alloc,
            bytes: content.to_vec(alloc)?,
            operations: Vec::new(alloc),
            taken: 0,
            is_noted,
            faults: 0,
        })
    }

    /// The bytes.
    pub fn content(&self) -> &[u8] {
        self.bytes.as_slice()
    }

    /// Whether a call has failed.
    pub fn has_failed(&self) -> bool {
        self.faults > 0
    }

    // Notes an operation, where any is noted.
    fn note(&mut self, operation: Operation) -> Result<(), AllocError>
        ensures { self.new.faults ≡ self.old.faults }
    {
        if self.is_noted {
            self.operations.push(operation)?;
        }
        Ok(())
    }

    fn try_write(&mut self, at: u64, bytes: &[u8]) -> Result<(), AllocError>
        ensures { self.new.faults ≡ self.old.faults }
    {
        if self.faults > 0 {
            return Err(AllocError);
        }
        let noted = bytes.to_vec(self.alloc)?;
        overwrite_at(&mut self.bytes, at as usize, bytes)?;
        self.note(Operation::Write { at, bytes: noted })
    }

    fn try_sync(&mut self) -> Result<(), AllocError>
        ensures { self.new.faults ≡ self.old.faults }
    {
        if self.faults > 0 {
            return Err(AllocError);
        }
        self.note(Operation::Sync)
    }

    /// Takes the operation that is next, and puts what it writes into the room.
    pub fn take(&mut self, room: &mut [u8]) -> Next
        ensures { self.new.faults ≡ self.old.faults }
    {
        let next = match self.operations.get(self.taken) {
            None => Next::Nothing,
            Some(Operation::Sync) => Next::Sync,
            Some(Operation::Write { at, bytes }) => {
                if bytes.len() > room.len() {
                    return Next::Room(bytes.len());
                }
                Next::Write {
                    at: *at,
                    count: fill(bytes.as_slice(), room),
                }
            }
        };
        match next {
            Next::Nothing => {
                self.operations.clear();
                self.taken = 0;
            }
            _ => self.taken += 1,
        }
        next
    }
}

impl Disk for Image {
    ghost use Rattle.ss_outside.specs.Step.{Measures, ReadsAt, Step, Syncs, WritesAt};
    ghost use Rattle.ss_outside.specs.Verdict.{verdict};
    ghost use Rattle.libsummarystore.specs.Image.{untold};
    ghost use Rattle.std.proofs.lemmas.Bool.{false≢true};

    ghost seen = { λ s. untold s.faults };

    ghost knows_now = { λ _ told. absurd (false≢true told) };

    fn len(&mut self) -> Result<u64, Failed>
        ensures { Step (verdict result) (untold self.old.faults) (untold self.new.faults) (Measures result) }
    {
        Ok(self.bytes.len() as u64)
    }

    fn read_at(&mut self, at: u64, into: &mut [u8]) -> Result<(), Failed>
        ensures { Step (verdict result) (untold self.old.faults) (untold self.new.faults) (ReadsAt at into.new result) }
    {
        read_from(self.bytes.as_slice(), at, into);
        Ok(())
    }

    fn write_at(&mut self, at: u64, bytes: &[u8]) -> Result<(), Failed>
        ensures { Step (verdict result) (untold self.old.faults) (untold self.new.faults) (WritesAt at bytes.now result) }
    {
        if self.try_write(at, bytes).is_err() {
            self.faults = self.faults.saturating_add(1);
            return Err(Failed);
        }
        Ok(())
    }

    fn sync(&mut self) -> Result<(), Failed>
        ensures { Step (verdict result) (untold self.old.faults) (untold self.new.faults) (Syncs result) }
    {
        if self.try_sync().is_err() {
            self.faults = self.faults.saturating_add(1);
            return Err(Failed);
        }
        Ok(())
    }
}
