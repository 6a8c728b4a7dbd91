// The keys of all places.
use crate::sifting::{NEVER, restore};
use ss_line::{At, MOST_PLACES};
use std::alloc::{AllocError, Global};
use std::marker::Model;

/// A key for some places, and room for more: which place its pair has on the left, and when the pair first fits. All
/// places stand in a heap, those without a key last, so the least key is found in one step, and one is changed in a
/// number of steps that grows as the logarithm of the room.
#[derive(Drop)]
pub struct Keys {
    // The key of each place.
    keys: Vec<Option<(At, u64)>>,
    // All places, as a binary heap by when their pairs first fit.
    heap: Vec<u32>,
    // Where in the heap each place stands.
    positions: Vec<u32>,
}

impl Model for Keys {
    ghost use Rattle.std.specs.Prelude.{ℕ, ◌≤◌, List, Option, vec_len};
    ghost use Rattle.ss_line.specs.declared.entry.At.{At};
    ghost use Rattle.ss_line.specs.declared.line.TheConstants.{MOST_PLACES};
    ghost use Rattle.ss_schedule.specs.Held.{AreHeldKeys};

    ghost Value = { List (Option (At × ℕ)) };

    ghost view = { λ s. s.keys.items };

    ghost invariant = { λ s. AreHeldKeys s.keys.items s.heap.items s.positions.items × (vec_len s.keys ≤ MOST_PLACES) };
}

impl Keys {
    ghost use Rattle.std.specs.Prelude.{◌≡◌, ◌+◌, ◌<◌, ◌≤◌, ℕ, max, [], ◌∷◌, ◌++◌, length, slice_set, Some, None, IfSome};
    ghost use Rattle.std.specs.Prelude.{IfNone, IsOk, OnOk, OnErr};
    ghost use Rattle.ss_line.specs.declared.entry.At.{At};
    ghost use Rattle.ss_schedule.specs.Held.{fit_of};
    ghost use Rattle.ss_schedule.specs.Keyed.{key_at};

    /// No keys, and no room.
    pub fn new(alloc: Global) -> Keys
        ensures { result ≡ [] }
    {
        Keys {
            keys: Vec::new(alloc),
            heap: Vec::new(alloc),
            positions: Vec::new(alloc),
        }
    }

    // Room for one place more, which has no key.
    fn add_place(&mut self) -> Result<(), AllocError>
        requires { length self.old < MOST_PLACES }
        ensures ok { OnOk result (self.new ≡ self.old ++ None ∷ []) }
        ensures err { OnErr result (self.new ≡ self.old) }
    {
        self.keys.reserve(1)?;
        self.heap.reserve(1)?;
        self.positions.reserve(1)?;
        let place = self.keys.len() as u32;
        self.keys.push(None).unwrap();
        self.heap.push(place).unwrap();
        self.positions.push(place).unwrap();
        Ok(())
    }

    /// Makes room for that many places, if there is less, and for no more. An error leaves the keys, and the room never
    /// falls.
    pub fn reserve(&mut self, places: u32) -> Result<(), AllocError>
        requires { places ≤ MOST_PLACES }
        ensures ok { OnOk result (places ≤ length self.new) }
        ensures enough { places ≤ length self.old → IsOk result }
        ensures grows { length self.old ≤ length self.new }
        ensures least { length self.new ≤ max (length self.old) places }
        ensures keys { (at : At) → key_at self.new at ≡ key_at self.old at }
    {
        while self.keys.len() < places as usize {
            self.add_place()?;
        }
        Ok(())
    }

    /// Puts a key at a place, or takes it away.
    pub fn set(&mut self, at: At, key: Option<(At, u64)>)
        requires room { at.0 < length self.old }
        requires early { fit_of key ≤ NEVER }
        ensures { self.new ≡ slice_set self.old at.0 key }
    {
        let place = at.0 as usize;
        self.keys[place] = key;
        let start = self.positions[place] as usize;
        restore(&self.keys, &mut self.heap, &mut self.positions, start);
    }

    /// A place with a key that is at most n, and the place that the key names. None says that no key is.
    pub fn least_by(&self, n: u64) -> Option<(At, At)>
        requires { n < NEVER }
        ensures some { IfSome result (λ found. (fit : ℕ) × (fit ≤ n) × (key_at self.now found.0 ≡ Some (found.1, fit))) }
        ensures none { IfNone result ((at : At) → n < fit_of (key_at self.now at)) }
    {
        if self.heap.is_empty() {
            return None;
        }
        let place = self.heap[0];
        match self.keys[place as usize] {
            Some((left, fit)) if fit <= n => Some((At(place), left)),
            _ => None,
        }
    }
}
