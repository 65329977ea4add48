//! A stack that contracts see as the list of its items from the top down, beside the room that it holds.
ghost use Rattle.std.specs.Prelude.{◌≡◌, ◌-◌, ◌<◌, ◌≤◌, ◌==◌, List, ℕ, [], ◌∷◌, length, drop, reverse, IfOk, IfErr, OnErr};
ghost use Rattle.std.specs.Prelude.{MatchOption, MatchResult, slice_index_or, slice_set};
ghost use Rattle.std.specs.Borrow.{Lends, sem};
ghost use Rattle.list_views.specs.contracts.stack.Stack.{the_row};

use std::alloc::{AllocError, AllocFailed, Allocator, Global};
use std::marker::Model;

/// A stack of items. Its value is a pair: the items, the top first, and the number of items for which it has room.
#[derive(Drop)]
pub struct Stack<T> {
    items: Vec<T>,
}

impl<T> Model for Stack<T> {
    ghost use Rattle.std.specs.Prelude.{List, ℕ, reverse};
    ghost use Rattle.std.specs.Vec.{vec_capacity};

    ghost Value = { List T × ℕ };

    ghost view = { λ s. (reverse s.items.items, vec_capacity s.items) };
}

impl<T> Stack<T> {
    /// The empty stack. It takes no memory until the first item comes.
    pub fn new(alloc: Global) -> Stack<T>
        ensures { result.0 ≡ [] }
    {
        Stack {
            items: Vec::new(alloc),
        }
    }

    /// The empty stack, with room for `room` items.
    ///
    /// # Errors
    ///
    /// Want of memory.
    pub fn with_room(alloc: Global, room: usize) -> Result<Stack<T>, AllocError>
        ensures { IfOk result (λ s. s ≡ ([], room)) }
    {
        Ok(Stack {
            items: Vec::with_capacity(alloc, room)?,
        })
    }

    /// The number of items.
    pub fn len(&self) -> usize
        ensures { result ≡ length self.now.0 }
    {
        self.items.len()
    }

    /// Whether there is no item.
    pub fn is_empty(&self) -> bool
        ensures { result ≡ (length self.now.0 == 0) }
    {
        self.items.is_empty()
    }

    /// The items as a slice, the top last.
    pub fn as_slice(&self) -> &[T]
        ensures { result.now ≡ reverse self.now.0 }
    {
        self.items.as_slice()
    }

    /// The item under `depth` others; the top is at 0.
    pub fn at(&self, depth: usize) -> &T
        requires { depth < length self.now.0 }
        ensures { result.now ≡ slice_index_or self.now.0 depth result.now }
    {
        &self.items[self.items.len() - 1 - depth]
    }

    /// A loan of the item under `depth` others; the top is at 0. The room stays.
    pub fn at_mut(&mut self, depth: usize) -> &mut T
        requires { depth < length self.old.0 }
        ensures item { result.now ≡ slice_index_or self.old.0 depth result.now }
        ensures* lends { sem 𝓛 (Lends (the_row T.row) T.row self.entry result (λ item. (slice_set self.old.0 depth item, self.old.1))) }
    {
        let place = self.items.len() - 1 - depth;
        &mut self.items[place]
    }

    /// Puts `item` on the top. Where the stack has room it takes no memory.
    ///
    /// # Errors
    ///
    /// Want of memory; then the stack is as before, it had no room, and the item comes back.
    pub fn push(&mut self, item: T) -> Result<(), AllocFailed<T>>
        ensures items { MatchResult result (λ _. self.new.0 ≡ item ∷ self.old.0) (λ y. self.new.0 ≡ self.old.0) }
        ensures returned { IfErr result (λ y. y.value ≡ item) }
        ensures full { OnErr result (self.old.1 ≤ length self.old.0) }
        ensures room { self.old.1 ≤ self.new.1 }
    {
        self.items.push(item)
    }

    /// Takes the top item away, or answers None where the stack is empty. The room stays.
    pub fn pop(&mut self) -> Option<T>
        ensures items { MatchOption result ((self.old.0 ≡ []) × (self.new.0 ≡ [])) (λ x. self.old.0 ≡ x ∷ self.new.0) }
        ensures room { self.new.1 ≡ self.old.1 }
    {
        self.items.pop()
    }

    /// Keeps the lowest `count` items. The room stays.
    pub fn truncate(&mut self, count: usize)
    where
        T: Drop,
        ensures items { self.new.0 ≡ drop (length self.old.0 - count) self.old.0 }
        ensures room { self.new.1 ≡ self.old.1 }
    {
        self.items.truncate(count);
    }

    /// Takes all items away. The room stays.
    pub fn clear(&mut self)
    where
        T: Drop,
        ensures items { self.new.0 ≡ [] }
        ensures room { self.new.1 ≡ self.old.1 }
    {
        self.items.clear();
    }
}

impl<T: Copy> Stack<T> {
    /// The two top items, the top first, where there are two.
    pub fn top_two(&self) -> Option<(T, T)>
        ensures { MatchOption result (length self.now.0 < 2) (λ x. self.now.0 ≡ x.0 ∷ x.1 ∷ drop 2 self.now.0) }
    {
        if self.len() < 2 {
            return None;
        }
        Some((*self.at(0), *self.at(1)))
    }

    /// The three top items, the top first, where there are three.
    pub fn top_three(&self) -> Option<(T, T, T)>
        ensures { MatchOption result (length self.now.0 < 3) (λ x. self.now.0 ≡ x.0 ∷ x.1 ∷ x.2 ∷ drop 3 self.now.0) }
    {
        if self.len() < 3 {
            return None;
        }
        Some((*self.at(0), *self.at(1), *self.at(2)))
    }

    /// The four top items, the top first, where there are four.
    pub fn top_four(&self) -> Option<(T, T, T, T)>
        ensures { MatchOption result (length self.now.0 < 4) (λ x. self.now.0 ≡ x.0 ∷ x.1 ∷ x.2 ∷ x.3 ∷ drop 4 self.now.0) }
    {
        if self.len() < 4 {
            return None;
        }
        Some((*self.at(0), *self.at(1), *self.at(2), *self.at(3)))
    }
}
