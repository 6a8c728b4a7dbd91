// What lies on the disk: crashes, changes and what is said of it.
use super::{Play, split};
use crate::bytes::{number_of, numbers_of, part, push_hex, put_over};
use crate::images::{Left, disk_of, image_of};
use crate::noted::Noted;
use crate::prefixes::count_slots;
use crate::story::new_disk;
use ss_checksum::checksum;
use ss_outside::{Choice, MemDisk};
use std::alloc::{AllocError, Global};

impl Play {
    // `new [checked]`: a new disk, on which nothing lies, or which becomes a checked store.
    pub(super) fn make(&mut self, word: &str) -> Result<(), AllocError> {
        self.checked = word == "checked";
        self.disk = new_disk(self.alloc, self.checked)?;
        Ok(())
    }

    // `crash lost`, `crash kept`, `crash fill BYTE`, `crash writes [NUMBER..]`, `crash torn SEED`: what a crash leaves becomes the disk.
    pub(super) fn crash(&mut self, rest: &str) -> Result<(), AllocError> {
        let (word, rest) = split(rest);
        match image_by(self.alloc, &self.disk, word, rest)? {
            Some(image) => {
                self.disk = disk_of(self.alloc, &image)?;
                Ok(())
            }
            None => self.refuse(),
        }
    }

    // `put AT DIGITS`: bytes lie at a place of the disk.
    pub(super) fn put(&mut self, rest: &str) -> Result<(), AllocError> {
        let (at, digits) = split(rest);
        let mut bytes = Vec::new(self.alloc);
        let is_hex = push_hex(&mut bytes, digits)?;
        match number_of(at) {
            Some(at) if is_hex && at < 1 << 24 => {
                let mut image = self.disk.device().content().to_vec(self.alloc)?;
                put_over(&mut image, at as usize, &bytes)?;
                self.disk = disk_of(self.alloc, &image)?;
                Ok(())
            }
            _ => self.refuse(),
        }
    }

    // `cut LENGTH`: the disk has no more bytes than this.
    pub(super) fn cut(&mut self, word: &str) -> Result<(), AllocError> {
        match number_of(word) {
            Some(length) => {
                let image = part(self.disk.device().content(), 0, length as usize).to_vec(
                    self.alloc,
                )?;
                self.disk = disk_of(self.alloc, &image)?;
                Ok(())
            }
            None => self.refuse(),
        }
    }

    // `copy FROM TO COUNT`: so many bytes lie also at another place.
    pub(super) fn copy(&mut self, rest: &str) -> Result<(), AllocError> {
        let numbers = numbers_of(self.alloc, rest)?;
        match *numbers.as_slice() {
            [from, to, count] if to < 1 << 24 => {
                let end = from.saturating_add(count) as usize;
                let mut image = self.disk.device().content().to_vec(self.alloc)?;
                let bytes = part(self.disk.device().content(), from as usize, end);
                put_over(&mut image, to as usize, bytes)?;
                self.disk = disk_of(self.alloc, &image)?;
                Ok(())
            }
            _ => self.refuse(),
        }
    }

    // `look AT COUNT`: so many bytes from a place on.
    pub(super) fn look(&mut self, rest: &str) -> Result<(), AllocError> {
        let numbers = numbers_of(self.alloc, rest)?;
        match *numbers.as_slice() {
            [at, count] => {
                let end = at.saturating_add(count) as usize;
                self.out.push_str("= ")?;
                for byte in part(self.disk.device().content(), at as usize, end) {
                    write!(self.out, "{byte:02x}")?;
                }
                self.out.push_str("\n")
            }
            _ => self.refuse(),
        }
    }

    // `slots`: how many slots aren't free.
    pub(super) fn say_slots(&mut self) -> Result<(), AllocError> {
        let slots = count_slots(self.disk.device().content());
        write!(self.out, "= slots {slots}\n")
    }

    // `syncs`: how many good syncs there were since the disk was made.
    pub(super) fn say_syncs(&mut self) -> Result<(), AllocError> {
        let syncs = self.disk.syncs().len();
        write!(self.out, "= syncs {syncs}\n")
    }

    // `image`: how long the disk is, and its checksum.
    pub(super) fn say_image(&mut self) -> Result<(), AllocError> {
        let content = self.disk.device().content();
        let length = content.len();
        let sum = checksum(&[], content);
        write!(self.out, "= image {length} {sum:08x}\n")
    }
}

// What a crash leaves, by a word and the numbers behind it.
fn left_by<'a>(word: &str, numbers: &'a [u64]) -> Option<Left<'a>> {
    let first = numbers.first().copied().unwrap_or(0);
    match word {
        "lost" => Some(Left::Of(Choice::Lost)),
        "kept" => Some(Left::Of(Choice::Kept)),
        "fill" => Some(Left::Of(Choice::Fill((first % 256) as u8))),
        "writes" => Some(Left::Writes(numbers)),
        "torn" => Some(Left::Torn(first)),
        _ => None,
    }
}

// The image that it leaves.
fn image_by(
    alloc: Global,
    disk: &Noted<MemDisk>,
    word: &str,
    rest: &str,
) -> Result<Option<Vec<u8>>, AllocError> {
    let numbers = numbers_of(alloc, rest)?;
    match left_by(word, &numbers) {
        Some(left) => Ok(Some(image_of(alloc, disk, left)?)),
        None => Ok(None),
    }
}
