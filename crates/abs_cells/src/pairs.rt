//! Sets of unordered pairs of ids.
ghost use Rattle.std.specs.Prelude.{◌≡◌, ◌≢◌, ◌<◌, ℕ, List, [], IfOk, OnOk, OnErr, slice_get, IsTrue, ◌↔◌, Some};
ghost use Rattle.abs_cells.specs.PairLists.{IsRising, added, removed, has, is_before, place_in, AreAmong};
ghost use Rattle.abs_cells.specs.IdSets.{joins, are_touched, kept};

use crate::ids::Id;
use crate::sets::IdSet;
use std::alloc::{AllocError, Global};
use std::marker::Model;

/// Unordered pairs of different ids. The meaning is the list of the pairs, the lower id of each first, in rising order.
pub trait Pairs: Drop {
    ghost pairs: { Self → List (ℕ × ℕ) };

    /// No pairs. It takes no memory until the first pair comes.
    fn empty(alloc: Global) -> Self
        ensures { pairs result ≡ [] };

    /// Adds a pair, where it is not there yet.
    ///
    /// # Errors
    ///
    /// Want of memory; then the pairs are as before.
    fn add(&mut self, a: Id, b: Id) -> Result<(), AllocError>
        requires differ { a ≢ b }
        requires low { (a < 2048) × (b < 2048) }
        ensures ok { OnOk result (pairs self.new ≡ added a b (pairs self.old)) }
        ensures err { OnErr result (pairs self.new ≡ pairs self.old) };

    /// Takes a pair away, if it is there. It takes no memory.
    fn remove(&mut self, a: Id, b: Id)
        requires differ { a ≢ b }
        requires low { (a < 2048) × (b < 2048) }
        ensures { pairs self.new ≡ removed a b (pairs self.old) };

    /// Whether the pair is there. It takes no memory.
    fn has(&self, a: Id, b: Id) -> bool
        requires differ { a ≢ b }
        requires low { (a < 2048) × (b < 2048) }
        ensures { result ≡ has a b (pairs self.now) };

    /// The pair with number `n` in rising order, counted from 0, or None past the end. It takes no memory.
    fn nth(&self, n: usize) -> Option<(Id, Id)>
        ensures value { result ≡ slice_get (pairs self.now) n }
        ensures rising { IsRising (pairs self.now) };

    /// Does nothing: it says that the pairs rise, to whoever has to know it.
    fn rise(&self)
        ensures { IsRising (pairs self.now) };

    /// All pairs in rising order. The whole list costs about as much as `nth` at its last place.
    ///
    /// # Errors
    ///
    /// Want of memory.
    fn list(&self, alloc: Global) -> Result<Vec<(Id, Id)>, AllocError>
        ensures value { IfOk result (λ list. list.items ≡ pairs self.now) }
        ensures rising { IsRising (pairs self.now) };

    /// Whether some pair has one id in `x` and the other one in `y`. It takes no memory.
    fn touches(&self, x: &IdSet, y: &IdSet) -> bool
        ensures value { result ≡ are_touched x.now y.now (pairs self.now) }
        ensures rising { IsRising (pairs self.now) };

    /// Keeps the pairs whose ids are both in a set. It takes no memory.
    fn keep(&mut self, ids: &IdSet)
        ensures { pairs self.new ≡ kept ids.now (pairs self.old) };

    /// The same pairs once more.
    ///
    /// # Errors
    ///
    /// Want of memory.
    fn copied(&self, alloc: Global) -> Result<Self, AllocError>
        ensures { IfOk result (λ copy. pairs copy ≡ pairs self.now) };

    /// Whether each of the pairs is one of others. It takes no memory.
    fn are_among(&self, others: &Self) -> bool
        ensures { IsTrue result ↔ AreAmong (pairs self.now) (pairs others.now) };
}

/// Pairs held as the rising list that they mean.
#[derive(Drop)]
pub struct ListPairs {
    pairs: Vec<(Id, Id)>,
}

impl Model for ListPairs {
    ghost use Rattle.std.specs.Prelude.{List, ℕ};
    ghost use Rattle.abs_cells.specs.PairLists.{IsRising};

    ghost Value = { List (ℕ × ℕ) };

    ghost view = { λ s. s.pairs.items };

    ghost invariant = { λ s. IsRising s.pairs.items };
}

/// Whether one pair stands before another in the rising order.
fn is_before(p: (Id, Id), q: (Id, Id)) -> bool
    ensures { result ≡ is_before p q }
{
    if p.0 == q.0 { p.1 < q.1 } else { p.0 < q.0 }
}

/// The number of pairs before a pair: its place in the rising list. It takes as many steps as the count of pairs has
/// digits.
fn place_of(pairs: &[(Id, Id)], pair: (Id, Id)) -> usize
    requires { IsRising pairs.now }
    ensures { result ≡ place_in pair pairs.now }
{
    let mut low = 0;
    let mut high = pairs.len();
    while low < high {
        let middle = low + (high - low) / 2;
        if is_before(pairs[middle], pair) {
            low = middle + 1;
        } else {
            high = middle;
        }
    }
    low
}

/// Whether a pair stands at a place.
fn stands_at(pairs: &[(Id, Id)], place: usize, pair: (Id, Id)) -> bool
    ensures { IsTrue result ↔ (slice_get pairs.now place ≡ Some pair) }
{
    place < pairs.len() && pairs[place].0 == pair.0 && pairs[place].1 == pair.1
}

/// Whether a pair has one id in `x` and the other one in `y`.
fn joins(x: &IdSet, y: &IdSet, pair: (Id, Id)) -> bool
    ensures { result ≡ joins x.now y.now pair }
{
    (x.has(pair.0) && y.has(pair.1)) || (x.has(pair.1) && y.has(pair.0))
}

/// Whether some of the pairs do.
fn some_joins(x: &IdSet, y: &IdSet, pairs: &[(Id, Id)]) -> bool
    ensures { result ≡ are_touched x.now y.now pairs.now }
{
    for pair in pairs {
        if joins(x, y, *pair) {
            return true;
        }
    }
    false
}

/// Whether each of some rising pairs is one of others, which rise too. Both lists are gone through once.
fn list_among(some: &[(Id, Id)], others: &[(Id, Id)]) -> bool
    requires some { IsRising some.now }
    requires others { IsRising others.now }
    ensures { IsTrue result ↔ AreAmong some.now others.now }
{
    let mut met = 0;
    for other in others {
        if stands_at(some, met, *other) {
            met += 1;
        }
    }
    met == some.len()
}

/// Keeps the pairs whose ids are both in a set.
fn keep_listed(pairs: &mut Vec<(Id, Id)>, ids: &IdSet)
    ensures { pairs.new.items ≡ kept ids.now pairs.old.items }
{
    pairs.retain(|pair| ids.has(pair.0) && ids.has(pair.1));
}

impl Pairs for ListPairs {
    ghost pairs = { λ s. s };

    fn empty(alloc: Global) -> Self {
        ListPairs {
            pairs: Vec::new(alloc),
        }
    }

    fn add(&mut self, a: Id, b: Id) -> Result<(), AllocError> {
        let pair = (a.min(b), a.max(b));
        let place = place_of(&self.pairs, pair);
        if !stands_at(&self.pairs, place, pair) {
            self.pairs.insert(place, pair)?;
        }
        Ok(())
    }

    fn remove(&mut self, a: Id, b: Id) {
        let pair = (a.min(b), a.max(b));
        let place = place_of(&self.pairs, pair);
        if stands_at(&self.pairs, place, pair) {
            self.pairs.remove(place);
        }
    }

    fn has(&self, a: Id, b: Id) -> bool {
        let pair = (a.min(b), a.max(b));
        stands_at(&self.pairs, place_of(&self.pairs, pair), pair)
    }

    fn nth(&self, n: usize) -> Option<(Id, Id)> {
        self.pairs.get(n).copied()
    }

    fn rise(&self) {
        let _length = self.pairs.len();
    }

    fn list(&self, alloc: Global) -> Result<Vec<(Id, Id)>, AllocError> {
        Ok(Vec::from_slice(alloc, &self.pairs)?)
    }

    fn touches(&self, x: &IdSet, y: &IdSet) -> bool {
        some_joins(x, y, &self.pairs)
    }

    fn keep(&mut self, ids: &IdSet) {
        keep_listed(&mut self.pairs, ids);
    }

    fn copied(&self, alloc: Global) -> Result<Self, AllocError> {
        Ok(ListPairs {
            pairs: Vec::from_slice(alloc, &self.pairs)?,
        })
    }

    fn are_among(&self, others: &Self) -> bool {
        list_among(&self.pairs, &others.pairs)
    }
}

/// Whether two ids are a pair, whatever they are: no id is one with itself, and none of 2,048 or above is in a pair. It takes no
/// memory.
pub fn is_pair<P: Pairs>(pairs: &P, a: Id, b: Id) -> bool
    ensures { result ≡ has a b (P.pairs pairs.now) }
{
    pairs.rise();
    if a == b {
        return false;
    }
    if a >= 2048 {
        return false;
    }
    if b >= 2048 {
        return false;
    }
    pairs.has(a, b)
}
