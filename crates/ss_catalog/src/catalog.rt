// The names of streams with their numbers.
ghost use Rattle.std.specs.Prelude.{◌≡◌, ◌↔◌, ◌≤◌, ◌++◌, [], ◌∷◌, length, None, IsSome, OnOk, OnErr, Err};
ghost use Rattle.ss_catalog.specs.Catalog.{HasDistinctNames, id_of, without_name};

use crate::{MOST_STREAMS, Name, StreamId};
use indexmap::IndexMap;
use std::alloc::Global;
use std::marker::Model;
use thiserror::Error;

/// Why a name was not added. The catalog is then as it was.
#[derive(Clone, Copy, Debug, PartialEq, Eq, Error)]
pub enum CatalogError {
    /// The name is there.
    #[error("the name is there")]
    Exists,
    /// As many other names are there as can be.
    #[error("too many names")]
    Limit,
    /// There was no memory for one more name.
    #[error("out of memory")]
    OutOfMemory,
}

/// The names of streams with their numbers. It is seen as the list of both, in order of creation. No name is there twice,
/// and at most `MOST_STREAMS` are. A look-up takes the same time whatever is there.
#[derive(Drop)]
pub struct Catalog {
    ids: IndexMap<Name, StreamId>,
}

impl Model for Catalog {
    ghost use Rattle.std.specs.Prelude.{List, ℕ};
    ghost use Rattle.ss_catalog.specs.declared.stream_id.StreamId.{StreamId};

    ghost Value = { List (List ℕ × StreamId) };

    ghost use Rattle.ss_catalog.specs.Catalog.{IsCatalog};

    ghost view = { λ c. c.ids.entries };

    ghost invariant = { λ c. IsCatalog c.ids.entries };
}

impl Catalog {
    /// A catalog without names. It takes no memory.
    pub fn new(alloc: Global) -> Catalog
        ensures { result ≡ [] }
    {
        Catalog {
            ids: IndexMap::new(alloc),
        }
    }

    /// How many names are there.
    pub fn len(&self) -> u32
        ensures value { result ≡ length self.now }
        ensures most { length self.now ≤ MOST_STREAMS }
        ensures distinct { HasDistinctNames self.now }
    {
        self.ids.len() as u32
    }

    /// The number of a name, if it is there.
    pub fn find(&self, name: &Name) -> Option<StreamId>
        ensures { result ≡ id_of name.now self.now }
    {
        self.ids.get(name).copied()
    }

    /// Puts a name last. At an error the catalog is as it was.
    pub fn add(&mut self, name: Name, id: StreamId) -> Result<(), CatalogError>
        ensures exists { result ≡ Err CatalogError.Exists ↔ IsSome (id_of name self.old) }
        ensures limit { result ≡ Err CatalogError.Limit
            ↔ (id_of name self.old ≡ None) × (length self.old ≡ MOST_STREAMS) }
        ensures ok { OnOk result (self.new ≡ self.old ++ (name, id) ∷ []) }
        ensures err { OnErr result (self.new ≡ self.old) }
    {
        if self.ids.contains_key(&name) {
            return Err(CatalogError::Exists);
        }
        if self.ids.len() >= MOST_STREAMS as usize {
            return Err(CatalogError::Limit);
        }
        match self.ids.insert(name, id) {
            Ok(_) => Ok(()),
            Err(_) => Err(CatalogError::OutOfMemory),
        }
    }

    /// Takes a name out, and answers its number, or `None` where the name isn't there. The others stay in their order. It takes
    /// no memory.
    pub fn remove(&mut self, name: &Name) -> Option<StreamId>
        ensures number { result ≡ id_of name.now self.old }
        ensures others { self.new ≡ without_name name.now self.old }
    {
        self.ids.shift_remove(name)
    }
}
