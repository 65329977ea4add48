//! Sets of ids.
ghost use Rattle.std.specs.Prelude.{◌≡◌, ℕ, ◌<◌, ◌==◌, ◌||◌, false, slice_index};
ghost use Rattle.std.specs.Int.{bit_at};
ghost use Rattle.abs_cells.specs.IdSets.{has_id};

use crate::ids::Id;
use std::marker::Model;

/// A set of numbers below 2,048, of which each has a bit. It takes no memory. Contracts ask with
/// `has_id` what is in it.
#[derive(Drop)]
pub struct IdSet {
    words: [u64; 32],
}

impl Model for IdSet {
    ghost use Rattle.std.specs.Prelude.{List, ℕ};

    ghost Value = { List ℕ };

    ghost view = { λ s. s.words };
}

/// A word with one more bit set.
pub(crate) fn with_bit(word: u64, bit: usize) -> u64
    requires { bit < 64 }
    ensures { (n : ℕ) → (bit_at result n == 1) ≡ ((n == bit) || (bit_at word n == 1)) }
{
    word | 1 << bit
}

/// Whether a bit of a word is set.
pub(crate) fn has_bit(word: u64, bit: usize) -> bool
    requires { bit < 64 }
    ensures { result ≡ (bit_at word bit == 1) }
{
    word >> bit & 1 == 1
}

impl IdSet {
    /// The empty set.
    pub fn new() -> IdSet
        ensures { (n : ℕ) → has_id result n ≡ false }
    {
        IdSet { words: [0; 32] }
    }

    /// The set of one number.
    pub fn only(a: Id) -> IdSet
        requires { a < 2048 }
        ensures { (n : ℕ) → has_id result n ≡ (n == a) }
    {
        let mut ids = IdSet::new();
        ids.put(a);
        ids
    }

    /// Puts a number in.
    pub fn put(&mut self, a: Id)
        requires { a < 2048 }
        ensures { (n : ℕ) → has_id self.new n ≡ ((n == a) || has_id self.old n) }
    {
        let word = usize::from(a) / 64;
        self.words[word] = with_bit(self.words[word], usize::from(a) % 64);
    }

    /// Whether a number is in the set. One of 2,048 or above is not.
    pub fn has(&self, a: Id) -> bool
        ensures { result ≡ has_id self.now a }
    {
        match self.words.get(usize::from(a) / 64) {
            Some(word) => has_bit(*word, usize::from(a) % 64),
            None => false,
        }
    }

    /// The bits of the numbers from `64 * n` on, the lowest first.
    pub(crate) fn word(&self, n: usize) -> u64
        requires { n < 32 }
        ensures { result ≡ slice_index self.now n }
    {
        self.words[n]
    }
}
