//! Names by number, found through an index.
ghost use Rattle.std.specs.Prelude.{◌≡◌, ◌++◌, [], ◌∷◌, ◌≤◌, length, position, IfOk, IfSome, ◌<◌, true, false, if◌then◌else◌};
ghost use Rattle.std.specs.List.{list_any};
ghost use Rattle.std.specs.Str.{bytes_eq};
ghost use Rattle.its_front.specs.Names.{with_name, number_of};

use indexmap::IndexSet;
use list_views::Seq;
use std::alloc::{AllocError, AllocFailed, Global};
use std::marker::Model;

/// The most names that are numbered.
const MOST: usize = 0xffff_fff0;

/// Names that differ, numbered in the order in which they came. It is seen as the list of the names.
#[derive(Drop)]
pub(crate) struct Names<'a> {
    names: IndexSet<&'a [u8]>,
    ghost few: { length names.keys ≤ 4294967280 },
}

impl<'a> Model for Names<'a> {
    ghost use Rattle.std.specs.Prelude.{List, ℕ, map};

    ghost Value = { List (List ℕ) };

    ghost view = { λ s. map (λ k. k.now) s.names.keys };
}

impl<'a> Names<'a> {
    /// No names.
    pub(crate) fn new(alloc: Global) -> Names<'a>
        ensures { result ≡ [] }
    {
        Names {
            names: IndexSet::new(alloc),
        }
    }

    /// The number of names.
    pub(crate) fn len(&self) -> usize
        ensures count { result ≡ length self.now }
        ensures few { result ≤ 4294967280 }
    {
        self.names.len()
    }

    /// Puts the name at the end, or answers false where it is there already.
    ///
    /// # Errors
    ///
    /// Want of memory, also where it would be the name behind number 4,294,967,279.
    pub(crate) fn add(&mut self, name: &'a [u8]) -> Result<bool, AllocError>
        ensures names { IfOk result (λ added. self.new ≡ (if added then self.old ++ name.now ∷ [] else self.old)) }
        ensures was_there { IfOk result (λ added. list_any (bytes_eq name.now) self.old ≡ (if added then false else true)) }
    {
        if self.names.len() >= MOST {
            return Err(AllocError);
        }
        let (_, added) = self.names.insert_full(name)?;
        Ok(added)
    }

    /// The place of the name.
    fn place_of(&self, name: &[u8]) -> Option<usize>
        ensures few { IfSome result (λ place. place < 4294967280) }
        ensures place { result ≡ position (bytes_eq name.now) self.now }
    {
        self.names.get_index_of(name)
    }

    /// The number of the name.
    #[tactic(auto, using(crate::proofs::Placing::place_within))]
    pub(crate) fn find(&self, name: &[u8]) -> Option<u32>
        ensures { result ≡ position (bytes_eq name.now) self.now }
    {
        let number = self.place_of(name)?;
        Some(number as u32)
    }

    /// The number that the name has where it is put at the end if it is new.
    #[tactic(auto, using(crate::proofs::Placing::found_number, crate::proofs::Placing::new_number))]
    fn number_of(&self, name: &[u8]) -> u32
        ensures { result ≡ number_of self.now name.now }
    {
        match self.find(name) {
            Some(number) => number,
            None => self.len() as u32,
        }
    }

    /// The number of the name, which is put at the end where it is new.
    ///
    /// # Errors
    ///
    /// Want of memory, also where it would be the name behind number 4,294,967,279.
    pub(crate) fn enter(&mut self, name: &'a [u8]) -> Result<u32, AllocError>
        ensures number { IfOk result (λ number. number ≡ number_of self.old name.now) }
        ensures names { IfOk result (λ number. self.new ≡ with_name self.old name.now) }
    {
        let number = self.number_of(name);
        self.add(name)?;
        Ok(number)
    }

    /// The names themselves.
    ///
    /// # Errors
    ///
    /// Want of memory.
    pub(crate) fn copied(&self, alloc: Global) -> Result<Seq<Seq<u8>>, AllocError>
        ensures { IfOk result (λ names. names ≡ self.now) }
    {
        let mut names = Seq::with_capacity(alloc, self.names.len())?;
        for name in self.names.as_slice() {
            names.push(Seq::from_slice(alloc, name)?)?;
        }
        Ok(names)
    }
}
