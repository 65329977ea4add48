//! A vector that contracts see as the list of its items.
ghost use Rattle.std.specs.Prelude.{◌≡◌, ◌+◌, ◌-◌, ◌<◌, ◌≤◌, ◌==◌, List, [], ◌∷◌, ◌++◌, length, take, IfOk, IfErr, MatchOption};
ghost use Rattle.std.specs.Prelude.{is_ok, if◌then◌else◌, slice_index_or, slice_set};
ghost use Rattle.std.specs.Borrow.{Lends, sem};
ghost use Rattle.std.specs.Cmp.Lexicographic.{pointwise, lists_per};
ghost use Rattle.list_views.specs.contracts.seq.Seq.{the_row};

use std::alloc::{AllocError, AllocFailed, Allocator, Global};
use std::marker::Model;

/// A growable list of items.
#[derive(Drop)]
pub struct Seq<T> {
    items: Vec<T>,
}

impl<T> Model for Seq<T> {
    ghost use Rattle.std.specs.Prelude.{List};

    ghost Value = { List T };

    ghost view = { λ s. s.items.items };
}

impl<T> Seq<T> {
    /// The empty list. It takes no memory until the first item comes.
    pub fn new(alloc: Global) -> Seq<T>
        ensures { result ≡ [] }
    {
        Seq {
            items: Vec::new(alloc),
        }
    }

    /// The empty list, with room for `capacity` items.
    ///
    /// # Errors
    ///
    /// Want of memory.
    pub fn with_capacity(alloc: Global, capacity: usize) -> Result<Seq<T>, AllocError>
        ensures { IfOk result (λ s. s ≡ []) }
    {
        Ok(Seq {
            items: Vec::with_capacity(alloc, capacity)?,
        })
    }

    /// The list of the items of `items`.
    pub fn from_vec(items: Vec<T>) -> Seq<T>
        ensures { result ≡ items.items }
    {
        Seq { items }
    }

    /// The items as the library's vector.
    pub fn into_vec(self) -> Vec<T>
        ensures { result.items ≡ self }
    {
        self.items
    }

    /// The number of items.
    pub fn len(&self) -> usize
        ensures { result ≡ length self.now }
    {
        self.items.len()
    }

    /// Whether there is no item.
    pub fn is_empty(&self) -> bool
        ensures { result ≡ (length self.now == 0) }
    {
        self.items.is_empty()
    }

    /// The items as a slice.
    pub fn as_slice(&self) -> &[T]
        ensures { result.now ≡ self.now }
    {
        self.items.as_slice()
    }

    /// The item at `index`, counted from 0.
    pub fn at(&self, index: usize) -> &T
        requires { index < length self.now }
        ensures { result.now ≡ slice_index_or self.now index result.now }
    {
        &self.items[index]
    }

    /// The item at `index`, or None past the end.
    pub fn get(&self, index: usize) -> Option<&T>
        ensures { MatchOption result (length self.now ≤ index) (λ x. (index < length self.now)
            × (x.now ≡ slice_index_or self.now index x.now)) }
    {
        if index < self.items.len() {
            Some(&self.items[index])
        } else {
            None
        }
    }

    /// Adds `item` at the end.
    ///
    /// # Errors
    ///
    /// Want of memory; then the list is as before, and the item comes back.
    pub fn push(&mut self, item: T) -> Result<(), AllocFailed<T>>
        ensures items { self.new ≡ (if is_ok result then self.old ++ item ∷ [] else self.old) }
        ensures returned { IfErr result (λ y. y.value ≡ item) }
    {
        self.items.push(item)
    }

    /// Takes the last item away, or answers None where the list is empty.
    pub fn pop(&mut self) -> Option<T>
        ensures { MatchOption result ((self.old ≡ []) × (self.new ≡ [])) (λ x. self.old ≡ self.new ++ x ∷ []) }
    {
        self.items.pop()
    }

    /// A loan of the item at `index`.
    pub fn at_mut(&mut self, index: usize) -> &mut T
        requires { index < length self.old }
        ensures item { result.now ≡ slice_index_or self.old index result.now }
        ensures* lends { sem 𝓛 (Lends (the_row T.row) T.row self.entry result (slice_set self.old index)) }
    {
        &mut self.items[index]
    }

    /// Takes all items away and keeps the room.
    pub fn clear(&mut self)
    where
        T: Drop,
        ensures { self.new ≡ [] }
    {
        self.items.clear();
    }

    /// Keeps the first `count` items.
    pub fn truncate(&mut self, count: usize)
    where
        T: Drop,
        ensures { self.new ≡ take count self.old }
    {
        self.items.truncate(count);
    }
}

impl<T: Copy> Seq<T> {
    /// The list of the items of `items`, copied.
    ///
    /// # Errors
    ///
    /// Want of memory.
    pub fn from_slice(alloc: Global, items: &[T]) -> Result<Seq<T>, AllocError>
        ensures { IfOk result (λ s. s ≡ items.now) }
    {
        Ok(Seq {
            items: Vec::from_slice(alloc, items)?,
        })
    }

    /// Adds the items of `more` at the end.
    ///
    /// # Errors
    ///
    /// Want of memory; then the list is as before.
    pub fn extend_from_slice(&mut self, more: &[T]) -> Result<(), AllocError>
        ensures { self.new ≡ (if is_ok result then self.old ++ more.now else self.old) }
    {
        self.items.extend_from_slice(more)
    }
}

impl<T: PartialEq> PartialEq for Seq<T> {
    ghost eq = { λ x y. pointwise T.eq x y };

    ghost laws = { lists_per T.laws };

    fn eq(&self, other: &Self) -> bool {
        self.items == other.items
    }
}
