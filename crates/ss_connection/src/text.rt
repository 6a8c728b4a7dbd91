// The text of what was said last.
use arrayvec::ArrayString;
use ss_report::{Reply, reply_text};
use std::alloc::{AllocError, Global};
use std::marker::Model;

/// At most so many bytes are said at once.
pub const MOST_SAID: usize = 16_384;

/// A reply has at most so many, with its line end.
pub const LONGEST_REPLY: usize = 256;

/// The text of what was said last. It takes its memory once, and never grows.
#[derive(Drop)]
pub struct Text {
    bytes: Vec<u8>,
}

impl Model for Text {
    ghost use Rattle.std.specs.Prelude.{◌≤◌, ℕ, List};
    ghost use Rattle.std.specs.Vec.{vec_capacity};
    ghost use Rattle.ss_connection.specs.declared.text.TheConstants.{MOST_SAID};

    ghost Value = { List ℕ };

    ghost view = { λ s. s.bytes.items };

    ghost invariant = { λ s. MOST_SAID ≤ vec_capacity s.bytes };
}

impl Text {
    ghost use Rattle.std.specs.Prelude.{◌≡◌, ◌↔◌, ◌+◌, ◌≤◌, ◌++◌, [], length, IfOk, IsTrue};
    ghost use Rattle.ss_report.specs.Text.{reply_line};

    /// No text, with room for all that may be said at once. It takes memory.
    pub fn new(alloc: Global) -> Result<Text, AllocError>
        ensures { IfOk result (λ text. text ≡ []) }
    {
        let bytes = Vec::with_capacity(alloc, MOST_SAID)?;
        Ok(Text { bytes })
    }

    /// The bytes.
    pub fn as_slice(&self) -> &[u8]
        ensures { result.now ≡ self.now }
    {
        self.bytes.as_slice()
    }

    /// Forgets them, and keeps the room.
    pub fn clear(&mut self)
        ensures { self.new ≡ [] }
    {
        self.bytes.clear();
    }

    /// Whether one more reply fits, however long it is.
    pub fn has_room(&self) -> bool
        ensures { IsTrue result ↔ (length self.now + LONGEST_REPLY ≤ MOST_SAID) }
    {
        self.bytes.len() <= MOST_SAID - LONGEST_REPLY
    }

    /// Adds the line of a reply. It takes no memory.
    pub fn add(&mut self, reply: &Reply)
        requires { length self.old + LONGEST_REPLY ≤ MOST_SAID }
        ensures text { self.new ≡ self.old ++ reply_line reply.now }
        ensures fits { length self.new ≤ MOST_SAID }
    {
        let mut line = ArrayString::new();
        reply_text(reply, &mut line);
        let _ = self.bytes.extend_from_slice(line.as_str().as_bytes());
    }

    /// Says a reply in place of what was said before.
    pub fn say(&mut self, reply: &Reply)
        ensures text { self.new ≡ reply_line reply.now }
        ensures fits { length self.new ≤ MOST_SAID }
    {
        self.clear();
        self.add(reply);
    }
}
