//! Ids, and short lists of them.
ghost use Rattle.std.specs.Prelude.{◌≡◌, ◌<◌, [], ◌∷◌, ◌++◌, length, IfOk, OnOk, OnErr};

use smallvec::SmallVec;
use std::alloc::{AllocError, AllocFailed, Global};
use std::marker::Model;

/// A number that stands for a value in an abstract state.
pub type Id = u16;

/// A list of ids, most of which are short: the ids of an instance's fields. It takes no memory up to four ids.
#[derive(Drop)]
pub struct Ids {
    ids: SmallVec<Id, 4>,
}

impl Model for Ids {
    ghost use Rattle.std.specs.Prelude.{List, ℕ};

    ghost Value = { List ℕ };

    ghost view = { λ s. s.ids.items };
}

impl Ids {
    /// The empty list.
    pub fn new(alloc: Global) -> Ids
        ensures { result ≡ [] }
    {
        Ids {
            ids: SmallVec::new(alloc),
        }
    }

    /// The list of these ids, copied.
    ///
    /// # Errors
    ///
    /// Want of memory.
    pub fn from_slice(alloc: Global, ids: &[Id]) -> Result<Ids, AllocError>
        ensures { IfOk result (λ list. list ≡ ids.now) }
    {
        Ok(Ids {
            ids: SmallVec::from_slice(alloc, ids)?,
        })
    }

    /// The ids as a slice.
    pub fn as_slice(&self) -> &[Id]
        ensures { result.now ≡ self.now }
    {
        self.ids.as_slice()
    }

    /// The number of ids.
    pub fn len(&self) -> usize
        ensures { result ≡ length self.now }
    {
        self.ids.len()
    }

    /// Adds an id at the end.
    ///
    /// # Errors
    ///
    /// Want of memory; then the list is as before.
    pub fn push(&mut self, id: Id) -> Result<(), AllocError>
        ensures ok { OnOk result (self.new ≡ self.old ++ id ∷ []) }
        ensures err { OnErr result (self.new ≡ self.old) }
    {
        self.ids.push(id)?;
        Ok(())
    }
}
