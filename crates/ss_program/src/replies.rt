// Replies that wait until what they speak of is on the disk.
use std::alloc::{AllocError, Global};
use std::marker::Model;

/// The longest text that is said at once, in bytes: two lines of a reply, each with the session that it is said to and its line end.
pub const LONGEST_REPLY: usize = 520;

/// So many bytes of replies may wait.
pub const MOST_WAITING_BYTES: usize = 65_536;

/// The text of the replies that wait, in order. It takes its memory once, and never grows.
#[derive(Drop)]
pub struct Replies {
    bytes: Vec<u8>,
}

impl Model for Replies {
    ghost use Rattle.std.specs.Prelude.{◌≤◌, ℕ, List};
    ghost use Rattle.std.specs.Vec.{vec_capacity};
    ghost use Rattle.ss_program.specs.declared.replies.TheConstants.{MOST_WAITING_BYTES};

    ghost Value = { List ℕ };

    ghost view = { λ s. s.bytes.items };

    ghost invariant = { λ s. MOST_WAITING_BYTES ≤ vec_capacity s.bytes };
}

impl Replies {
    ghost use Rattle.std.specs.Prelude.{◌≡◌, ◌+◌, ◌≤◌, ◌↔◌, [], ◌++◌, length, IfOk, IsTrue};

    /// None, with room for all that may wait. It takes memory.
    pub fn new(alloc: Global) -> Result<Replies, AllocError>
        ensures { IfOk result (λ replies. replies ≡ []) }
    {
        let bytes = Vec::with_capacity(alloc, MOST_WAITING_BYTES)?;
        Ok(Replies { bytes })
    }

    /// Whether one more reply fits, however long it is.
    pub fn has_room(&self) -> bool
        ensures { IsTrue result ↔ (length self.now + LONGEST_REPLY ≤ MOST_WAITING_BYTES) }
    {
        self.bytes.len() <= MOST_WAITING_BYTES - LONGEST_REPLY
    }

    /// Adds a text after those that wait. It takes no memory.
    pub fn hold(&mut self, text: &[u8])
        requires short { length text.now ≤ LONGEST_REPLY }
        requires room { length self.old + LONGEST_REPLY ≤ MOST_WAITING_BYTES }
        ensures { self.new ≡ self.old ++ text.now }
    {
        let _ = self.bytes.extend_from_slice(text);
    }

    /// The text of those that wait.
    pub fn as_slice(&self) -> &[u8]
        ensures { result.now ≡ self.now }
    {
        self.bytes.as_slice()
    }

    /// Forgets them all, and keeps the room.
    pub fn clear(&mut self)
        ensures { self.new ≡ [] }
    {
        self.bytes.clear();
    }
}

/// How events come to the disk: each by itself, or some together, whose replies wait for that.
#[derive(Drop)]
pub enum Seals {
    Each,
    Shared(Replies),
}
