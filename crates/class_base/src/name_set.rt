//! Names that differ, found through an index.

ghost use Rattle.std.specs.Prelude.{◌≡◌, ◌++◌, [], ◌∷◌, position, IfOk, true, false, if◌then◌else◌};
ghost use Rattle.std.specs.List.{list_any};
ghost use Rattle.std.specs.Str.{bytes_eq};

use indexmap::IndexSet;
use std::alloc::{AllocError, AllocFailed, Global};
use std::marker::Model;

/// Names that differ, numbered in the order in which they came. It is seen as the list of the names.
#[derive(Drop)]
pub struct NameSet<'a> {
    names: IndexSet<&'a [u8]>,
}

impl<'a> Model for NameSet<'a> {
    ghost use Rattle.std.specs.Prelude.{List, ℕ, map};

    ghost Value = { List (List ℕ) };

    ghost view = { λ s. map (λ k. k.now) s.names.keys };
}

impl<'a> NameSet<'a> {
    /// No names.
    pub fn new(alloc: Global) -> NameSet<'a>
        ensures { result ≡ [] }
    {
        NameSet {
            names: IndexSet::new(alloc),
        }
    }

    /// Puts the name at the end, or answers false where it is there already.
    ///
    /// # Errors
    ///
    /// Want of memory.
    pub fn add(&mut self, name: &'a [u8]) -> Result<bool, AllocError>
        ensures names { IfOk result (λ added. self.new ≡ (if added then self.old ++ name.now ∷ [] else self.old)) }
        ensures was_there { IfOk result (λ added. list_any (bytes_eq name.now) self.old ≡ (if added then false else true)) }
    {
        let (_, added) = self.names.insert_full(name)?;
        Ok(added)
    }

    /// The number of the name.
    pub fn find(&self, name: &[u8]) -> Option<usize>
        ensures { result ≡ position (bytes_eq name.now) self.now }
    {
        self.names.get_index_of(name)
    }
}
