//! Members that differ in name or descriptor, found through an index.

ghost use Rattle.std.specs.Prelude.{◌≡◌, ◌++◌, [], ◌∷◌, position, IfOk, true, false, if◌then◌else◌};
ghost use Rattle.std.specs.List.{list_any};
ghost use Rattle.class_base.specs.Members.{same_key};

use indexmap::IndexSet;
use std::alloc::{AllocError, AllocFailed, Global};
use std::marker::Model;

/// Names with descriptors that differ, numbered in the order in which they came. It is seen as the list of these pairs.
#[derive(Drop)]
pub struct KeySet<'a> {
    keys: IndexSet<(&'a [u8], &'a [u8])>,
}

impl<'a> Model for KeySet<'a> {
    ghost use Rattle.std.specs.Prelude.{List, ℕ, map};

    ghost Value = { List (List ℕ × List ℕ) };

    ghost view = { λ s. map (λ k. (k.0.now, k.1.now)) s.keys.keys };
}

impl<'a> KeySet<'a> {
    /// No members.
    pub fn new(alloc: Global) -> KeySet<'a>
        ensures { result ≡ [] }
    {
        KeySet {
            keys: IndexSet::new(alloc),
        }
    }

    /// Puts a member at the end, or answers false where one of its name and descriptor is there already.
    ///
    /// # Errors
    ///
    /// Want of memory.
    pub fn add(&mut self, name: &'a [u8], desc: &'a [u8]) -> Result<bool, AllocError>
        ensures keys { IfOk result (λ added. self.new ≡ (if added then self.old ++ (name.now, desc.now) ∷ [] else self.old)) }
        ensures was_there { IfOk result (λ added. list_any (same_key (name.now, desc.now)) self.old ≡ (if added then false else true)) }
    {
        let (_, added) = self.keys.insert_full((name, desc))?;
        Ok(added)
    }

    /// The number of the member with that name and descriptor.
    pub fn find(&self, name: &[u8], desc: &[u8]) -> Option<usize>
        ensures { result ≡ position (same_key (name.now, desc.now)) self.now }
    {
        self.keys.get_index_of(&(name, desc))
    }
}
