// Names of streams.
ghost use Rattle.std.specs.Prelude.{◌≡◌, ◌≤◌, ◌&&◌, length, nat_le};
ghost use Rattle.std.specs.List.{list_all};
ghost use Rattle.std.specs.Hash as fed;
ghost use Rattle.std.specs.Cmp.Rules.{comparing, hashing};
ghost use Rattle.std.proofs.Common.{rules};
ghost use Rattle.ss_catalog.specs.Names.{is_name_byte, padded, same_name};

use std::hash::{Hash, Hasher};
use std::marker::Model;
use std::str;

/// A name has at most this many bytes.
pub const LONGEST_NAME: usize = 32;

/// The name of a stream: 1 to 32 bytes, each a letter, a digit, `_`, `-` or `.`. It is seen as the list of its bytes.
#[derive(Clone, Copy, Debug)]
pub struct Name {
    bytes: [u8; LONGEST_NAME],
    len: u8,
}

impl Model for Name {
    ghost use Rattle.std.specs.Prelude.{List, ℕ, take, length};
    ghost use Rattle.ss_catalog.specs.Names.{padded, IsPaddedName};
    ghost use Rattle.ss_catalog.specs.NameLaws.{held-again};

    ghost Value = { List ℕ };

    ghost view = { λ n. take n.len n.bytes };

    ghost invariant = { λ n. IsPaddedName n.bytes n.len };

    ghost inverse = { λ word. record {
      bytes = padded word;
      len = length word;
    } };

    ghost inverse_ok = { held-again };
}

impl PartialEq for Name {
    ghost eq = { same_name };

    ghost laws = { Prim.search (comparing, rules) };

    fn eq(&self, other: &Name) -> bool {
        self.as_bytes() == other.as_bytes()
    }
}

impl Eq for Name {
    ghost laws = { Prim.search (comparing, rules) };
}

impl Hash for Name {
    ghost hash_input = { fed.slice fed.u8 };

    ghost respects_eq = { Prim.search (hashing, rules) };

    fn hash<H: Hasher>(&self, state: &mut H) {
        self.as_bytes().hash(state);
    }
}

impl Name {
    ghost use Rattle.std.specs.Prelude.{◌≡◌, Some, None, true, if◌then◌else◌};
    ghost use Rattle.ss_catalog.specs.Names.{is_name};

    /// The name that a word spells, if it spells one.
    #[tactic(auto, unfolding(crate::specs::Names::is_name))]
    pub fn of(word: &[u8]) -> Option<Name>
        ensures { result ≡ (if is_name word.now then Some word.now else None) }
    {
        if has_name_length(word) && are_name_bytes(word) {
            Some(Name {
                bytes: padded(word),
                len: word.len() as u8,
            })
        } else {
            None
        }
    }

    /// Its bytes.
    pub fn as_bytes(&self) -> &[u8]
        ensures value { result.now ≡ self.now }
        ensures name { is_name result.now ≡ true }
    {
        &self.bytes[..usize::from(self.len)]
    }

    /// Its text.
    pub fn as_str(&self) -> &str
        ensures value { result.now ≡ self.now }
        ensures name { is_name result.now ≡ true }
    {
        match str::from_utf8(self.as_bytes()) {
            Ok(text) => text,
            Err(_) => unreachable!(),
        }
    }
}

// Whether a word is as long as a name can be.
fn has_name_length(word: &[u8]) -> bool
    ensures { result ≡ nat_le 1 (length word.now) && nat_le (length word.now) LONGEST_NAME }
{
    1 <= word.len() && word.len() <= LONGEST_NAME
}

// Whether a name may have all bytes of a word.
fn are_name_bytes(word: &[u8]) -> bool
    ensures { result ≡ list_all is_name_byte word.now }
{
    word.iter().all(|byte| is_name_byte(*byte))
}

// Whether a byte may stand in a name.
fn is_name_byte(byte: u8) -> bool
    ensures { result ≡ is_name_byte byte }
{
    byte.is_ascii_alphanumeric() || byte == b'_' || byte == b'-' || byte == b'.'
}

// The bytes of a name, with zeros after them.
fn padded(word: &[u8]) -> [u8; LONGEST_NAME]
    requires { length word.now ≤ LONGEST_NAME }
    ensures { result ≡ padded word.now }
{
    let mut bytes = [0; LONGEST_NAME];
    for (place, byte) in word.iter().enumerate() {
        bytes[place] = *byte;
    }
    bytes
}
