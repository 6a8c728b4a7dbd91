// Bytes at places of a content.
ghost use Rattle.std.specs.Prelude.{◌≡◌, ◌⊎◌, ◌+◌, ◌<◌, ◌≤◌, max, length, slice_index, EachIndex, IsOk, OnOk, OnErr, vec_capacity};
ghost use Rattle.ss_outside.specs.Disk.{overwrite, IsOutside, IsReadFrom};

use crate::LONGEST_DISK;
use std::alloc::AllocError;

// Fills the buffer with the content from `at` on, and with 0 past its end.
pub(crate) fn read_from(content: &[u8], at: u64, into: &mut [u8])
    ensures { IsReadFrom content.now at into.new }
{
    into.fill(0);
    let start = at.min(content.len() as u64) as usize;
    let count = into.len().min(content.len() - start);
    into[..count].copy_from_slice(&content[start..start + count]);
}

// Puts the bytes at the place, over what is there and past the end. A place past the end stands for the end.
pub(crate) fn overwrite_at(content: &mut Vec<u8>, at: usize, bytes: &[u8]) -> Result<(), AllocError>
    ensures done { OnOk result (content.new.items ≡ overwrite content.old.items at bytes.now) }
    ensures kept { OnErr result (content.new.items ≡ content.old.items) }
    ensures capacity { vec_capacity content.old ≤ vec_capacity content.new }
    ensures room { length content.old.items + length bytes.now ≤ vec_capacity content.old → IsOk result }
{
    let at = at.min(content.len());
    let over = bytes.len().min(content.len() - at);
    content.extend_from_slice(&bytes[over..])?;
    content[at..at + over].copy_from_slice(&bytes[..over]);
    Ok(())
}

// Puts the byte at each place of the range, and at each place between the end and the range.
pub(crate) fn fill_at(
    image: &mut Vec<u8>,
    at: usize,
    count: usize,
    byte: u8,
) -> Result<(), AllocError>
    requires { at + count ≤ LONGEST_DISK }
    ensures length { OnOk result (length image.new.items ≡ max (length image.old.items) (at + count)) }
    ensures kept { OnOk result (EachIndex image.old.items (λ place. IsOutside at count place
        → slice_index image.new.items place ≡ slice_index image.old.items place)) }
    ensures filled { OnOk result (EachIndex image.new.items (λ place.
        (length image.old.items ≤ place) ⊎ ((at ≤ place) × (place < at + count)) → slice_index image.new.items place ≡ byte)) }
{
    let end = at + count;
    if image.len() < end {
        image.resize(end, byte)?;
    }
    image[at..end].fill(byte);
    Ok(())
}
