// What a crash leaves of a disk.
use crate::bytes::{part, put_over};
use crate::noted::{Noted, Piece};
use crate::random::Random;
use ss_outside::{Choice, MemDisk};
use std::alloc::{AllocError, Global};

/// What a crash leaves of the writes that are pending.
#[derive(Clone, Copy)]
pub enum Left<'a> {
    /// None, all, or a byte in each free place.
    Of(Choice),
    /// Those with these numbers, and nothing of the others.
    Writes(&'a [u64]),
    /// What a seed makes of each: nothing, all of it, a front of it, or of each few bytes the old ones, the new ones or others.
    Torn(u64),
}

/// A disk that holds these bytes.
pub fn disk_of(alloc: Global, content: &[u8]) -> Result<Noted<MemDisk>, AllocError> {
    Ok(Noted::new(alloc, MemDisk::new(alloc, content.to_vec(alloc)?)?))
}

// How many bytes a crash leaves or loses together, at most.
const GRAIN: usize = 32;

// Puts over the image what a seed leaves of a grain: nothing, other bytes, or these.
fn put_grain(
    image: &mut Vec<u8>,
    at: usize,
    grain: &[u8],
    random: &mut Random,
) -> Result<(), AllocError> {
    match random.below(4) {
        0 => Ok(()),
        1 => {
            let other = [(random.next() % 256) as u8; GRAIN];
            put_over(image, at, part(&other, 0, grain.len()))
        }
        _ => put_over(image, at, grain),
    }
}

// Puts some grains of a write over the image.
fn put_grains(image: &mut Vec<u8>, piece: &Piece, random: &mut Random) -> Result<(), AllocError> {
    let bytes = piece.bytes.as_slice();
    for k in 0..bytes.len() / GRAIN + 1 {
        let from = k.saturating_mul(GRAIN);
        let at = (piece.at as usize).saturating_add(from);
        let grain = part(bytes, from, from.saturating_add(GRAIN));
        put_grain(image, at, grain, random)?;
    }
    Ok(())
}

// Puts of a write over the image what a seed leaves of it.
fn put_torn(image: &mut Vec<u8>, piece: &Piece, random: &mut Random) -> Result<(), AllocError> {
    let bytes = piece.bytes.as_slice();
    match random.below(4) {
        0 => Ok(()),
        1 => put_over(image, piece.at as usize, bytes),
        2 => {
            let end = random.below(bytes.len() as u64) as usize;
            put_over(image, piece.at as usize, part(bytes, 0, end))
        }
        _ => put_grains(image, piece, random),
    }
}

// The image with some of the writes.
fn with_writes(image: &mut Vec<u8>, pending: &[Piece], numbers: &[u64]) -> Result<(), AllocError> {
    for (k, piece) in pending.iter().enumerate() {
        if numbers.contains(&(k as u64)) {
            put_over(image, piece.at as usize, piece.bytes.as_slice())?;
        }
    }
    Ok(())
}

// The image with what a seed leaves of each write.
fn with_torn(image: &mut Vec<u8>, pending: &[Piece], seed: u64) -> Result<(), AllocError> {
    let mut random = Random::new(seed);
    for piece in pending {
        put_torn(image, piece, &mut random)?;
    }
    Ok(())
}

/// The bytes that a crash leaves.
pub fn image_of(
    alloc: Global,
    disk: &Noted<MemDisk>,
    left: Left<'_>,
) -> Result<Vec<u8>, AllocError> {
    let choice = match left {
        Left::Of(choice) => choice,
        _ => Choice::Lost,
    };
    let mut image = disk.device().crash(choice)?.content().to_vec(alloc)?;
    match left {
        Left::Of(_) => {}
        Left::Writes(numbers) => with_writes(&mut image, disk.pending(), numbers)?,
        Left::Torn(seed) => with_torn(&mut image, disk.pending(), seed)?,
    }
    Ok(image)
}

/// The crashes that are looked at everywhere.
pub const CRASHES: [Choice; 5] = [
    Choice::Lost,
    Choice::Kept,
    Choice::Fill(0),
    Choice::Fill(0xA5),
    Choice::Fill(0xFF),
];
