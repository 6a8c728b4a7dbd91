// What a row says.
use ss_base::SLOT_SIZE;

/// A slot, and the bytes of the record in it, as a plain store has them.
#[derive(Clone, Copy, Debug, PartialEq, Eq)]
pub struct Row {
    pub slot: u32,
    pub bytes: [u8; SLOT_SIZE],
}
