// How the store of a file is opened, as the program opens it before a run.
ghost use Rattle.std.specs.Prelude.{IfOk, IfSome, IfErr};
ghost use Rattle.libsummarystore.specs.Kept.{IsFit};
ghost use Rattle.ss_connection.specs.Holds.{IsUsable};
ghost use Rattle.libsummarystore.specs.Image.{untold};

use crate::answer::Why;
use crate::held::Held;
use crate::image::Image;
use crate::kept::Kept;
use crate::shut::Shut;
use ss_connection::Connection;
use ss_journal::{FIRST_SLOT, Head, make_checked};
use ss_program::Status;
use ss_store::OpenError;
use std::alloc::Global;

/// How a store is opened.
#[derive(Clone, Copy, Debug)]
pub struct Flags {
    pub has_to_be_checked: bool,
    pub is_batch: bool,
    pub only_looks: bool,
}

impl Flags {
    /// The flags that these bits stand for. Whether the file has to be there is C's to see to, and to look goes with nothing else.
    pub fn of(bits: u32) -> Option<Flags> {
        let only_looks = bits & 8 != 0;
        if bits >= 16 || (only_looks && bits & 6 != 0) {
            return None;
        }
        Some(Flags {
            has_to_be_checked: bits & 2 != 0,
            is_batch: bits & 4 != 0,
            only_looks,
        })
    }
}

// The bytes of a head, and zeros past the end of the file.
fn head_of(content: &[u8]) -> Head {
    let mut bytes = [0; 9];
    let count = content.len().min(9);
    bytes[..count].copy_from_slice(&content[..count]);
    Head {
        length: content.len() as u64,
        bytes,
    }
}

// Whether a file isn't formatted, but holds something where slots lie. A birth that a crash broke off leaves no such file.
fn is_foreign(content: &[u8]) -> bool {
    let first = (FIRST_SLOT as usize).min(content.len());
    head_of(content).is_unborn() && content[first..].iter().any(|byte| *byte != 0)
}

// Sees to it that a store that isn't formatted becomes a checked one. Why it can't be so, where it can't.
fn make_kind(image: &mut Image, flags: Flags) -> Option<Shut> {
    if !flags.has_to_be_checked {
        return None;
    }
    match make_checked(image) {
        Ok(true) => None,
        Ok(false) => Some(Shut::Plain),
        Err(_) => Some(Shut::Store(OpenError::Disk)),
    }
}

// Opens the store of an image, where its file may be one.
fn open_image(alloc: Global, mut image: Image, flags: Flags) -> Kept
    ensures { IsFit result }
{
    if is_foreign(image.content()) {
        return Kept::Shut(Shut::Foreign);
    }
    if let Some(shut) = make_kind(&mut image, flags) {
        return Kept::Shut(shut);
    }
    match Connection::open(alloc, &mut image) {
        Ok(connection) => Kept::Open(Held {
            disk: image,
            connection,
            is_batch: flags.is_batch,
            only_looks: flags.only_looks,
            shown: None,
        }),
        Err(error) => Kept::Shut(Shut::Store(error)),
    }
}

// Opens the store of a file that holds these bytes.
fn open_content(alloc: Global, content: &[u8], flags: Flags) -> Kept
    ensures { IsFit result }
{
    match Image::of(alloc, content, !flags.only_looks) {
        Ok(image) => open_image(alloc, image, flags),
        Err(_) => Kept::Shut(Shut::Store(OpenError::OutOfMemory)),
    }
}

/// Opens the store of a file that holds these bytes, by the bits of the flags. It fails where the call can't be meant, or there is no memory
/// for a box.
pub fn open(alloc: Global, content: &[u8], bits: u32) -> Result<Box<Kept>, Why>
    ensures { IfOk result (λ kept. IsFit kept.value) }
{
    let Some(flags) = Flags::of(bits) else {
        return Err(Why::Misuse);
    };
    match Box::new(alloc, open_content(alloc, content, flags)) {
        Ok(kept) => Ok(kept),
        Err(_) => Err(Why::Stopped(Status::OutOfMemory)),
    }
}
