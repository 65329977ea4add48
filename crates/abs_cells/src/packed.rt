//! Pairs of ids held as packed bits.
ghost use Rattle.std.specs.Prelude.{◌≡◌, ◌≢◌, ℕ, suc, ◌+◌, ◌*◌, ◌/◌, ◌<◌, ◌≤◌, ◌==◌, ◌||◌, ◌&&◌, ◌⊎◌, not, true, false, IsTrue, ◌↔◌};
ghost use Rattle.std.specs.Prelude.{length, List, Some, None, slice_get, if◌then◌else◌, IfSome, IfNone, ◌++◌, ◌∷◌, [], IfOk, IfErr};
ghost use Rattle.std.specs.Prelude.{OnOk, OnErr};
ghost use Rattle.std.specs.Int.{bit_at};
ghost use Rattle.abs_cells.specs.PairLists.{added, removed, AreAmong};
ghost use Rattle.abs_cells.specs.IdSets.{has_bit, has_id, are_touched, kept};
ghost use Rattle.abs_cells.specs.PackedBits.{slot_of, slots_in, row_start, place_of, hit, pairs_in, ArePacked};
ghost use Rattle.abs_cells.specs.inner.PackedRows.{whole_row, IsGrown};
ghost use Rattle.abs_cells.specs.inner.PackedRows.{RowMeets, SideMeets, HasSlot, AreBothSet, IsRowAmong, IsCleared};

use crate::ids::Id;
use crate::pairs::Pairs;
use crate::sets::{IdSet, has_bit, with_bit};
use std::alloc::{AllocError, Global};
use std::marker::Model;

/// The slots of ids, and a row of bits for each slot.
#[derive(Drop)]
struct Packed {
    /// The slot of each id that was ever in a pair.
    slots: Vec<Option<u16>>,
    /// How many ids have a slot.
    count: u16,
    /// The rows: a bit for each slot before the row's own, up to the end of a word.
    words: Vec<u64>,
}

/// Pairs held as packed bits: each id that was ever in a pair has a slot, and two slots a bit. A call on ids that have
/// slots goes to their bit at once, and a new id takes a row of words.
#[derive(Drop)]
pub struct PackedPairs {
    packed: Packed,
}

impl Model for PackedPairs {
    ghost use Rattle.std.specs.Prelude.{List, ℕ};
    ghost use Rattle.abs_cells.specs.PackedBits.{pairs_in, ArePacked};

    ghost Value = { List (ℕ × ℕ) };

    ghost view = { λ s. pairs_in s.packed.slots.items s.packed.words.items };

    ghost invariant = { λ s. ArePacked s.packed.slots.items s.packed.count s.packed.words.items };
}

/// A word with one bit cleared.
fn without_bit(word: u64, bit: usize) -> u64
    requires { bit < 64 }
    ensures { (n : ℕ) → n < 64 → (bit_at result n == 1) ≡ (not (n == bit) && (bit_at word n == 1)) }
{
    word & !(1 << bit)
}

/// Whether a bit of a row of words is set.
fn is_set(words: &[u64], n: usize) -> bool
    ensures { result ≡ has_bit words.now n }
{
    match words.get(n / 64) {
        Some(word) => has_bit(*word, n % 64),
        None => false,
    }
}

/// Sets a bit of a row of words.
fn set_bit(words: &mut Vec<u64>, n: usize)
    requires { n / 64 < length words.old.items }
    ensures bits { (m : ℕ) → has_bit words.new.items m ≡ ((m == n) || has_bit words.old.items m) }
    ensures len { length words.new.items ≡ length words.old.items }
{
    words[n / 64] = with_bit(words[n / 64], n % 64);
}

/// Clears a bit of a row of words.
fn clear_bit(words: &mut Vec<u64>, n: usize)
    requires { n / 64 < length words.old.items }
    ensures bits { (m : ℕ) → has_bit words.new.items m ≡ (not (m == n) && has_bit words.old.items m) }
    ensures len { length words.new.items ≡ length words.old.items }
{
    words[n / 64] = without_bit(words[n / 64], n % 64);
}

/// The slot of an id, if it has one.
fn slot_of(slots: &[Option<u16>], id: Id) -> Option<u16>
    ensures { result ≡ slot_of slots.now id }
{
    match slots.get(usize::from(id)) {
        Some(slot) => *slot,
        None => None,
    }
}

/// The word at which the row of a slot begins.
fn row_start(slot: u16) -> usize
    requires { slot ≤ 2048 }
    ensures { result ≡ row_start slot }
{
    let block = usize::from(slot) / 64;
    (block + 1) * (32 * block + usize::from(slot) % 64)
}

/// The place of the bit of two slots.
fn place(s: u16, t: u16) -> usize
    requires { (s < 2048) × (t < 2048) }
    ensures { result ≡ place_of s t }
{
    64 * row_start(s.max(t)) + usize::from(s.min(t))
}

/// Makes room for the slot of an id.
fn make_room(slots: &mut Vec<Option<u16>>, id: Id) -> Result<(), AllocError>
    requires low { id < 2048 }
    requires few { length slots.old.items ≤ 2048 }
    ensures same { (a : ℕ) → slot_of slots.new.items a ≡ slot_of slots.old.items a }
    ensures counted { slots_in slots.new.items ≡ slots_in slots.old.items }
    ensures few { length slots.new.items ≤ 2048 }
    ensures ok { OnOk result (id < length slots.new.items) }
{
    if slots.len() <= usize::from(id) {
        slots.resize(usize::from(id) + 1, None)?;
    }
    Ok(())
}

/// Makes room for so many words.
fn make_rows(words: &mut Vec<u64>, end: usize) -> Result<(), AllocError>
    ensures same { (n : ℕ) → has_bit words.new.items n ≡ has_bit words.old.items n }
    ensures longer { length words.old.items ≤ length words.new.items }
    ensures ok { OnOk result (end ≤ length words.new.items) }
{
    if words.len() < end {
        words.resize(end, 0)?;
    }
    Ok(())
}

/// Gives an id a slot, if it has none.
fn list_id(packed: &mut Packed, id: Id) -> Result<u16, AllocError>
    requires packed { ArePacked packed.old.slots.items packed.old.count packed.old.words.items }
    requires low { id < 2048 }
    ensures grown { IsGrown packed.old.slots.items packed.old.words.items packed.new.slots.items packed.new.count packed.new.words.items }
    ensures slot { IfOk result (λ slot. slot_of packed.new.slots.items id ≡ Some slot) }
{
    if let Some(slot) = slot_of(&packed.slots, id) {
        return Ok(slot);
    }
    make_room(&mut packed.slots, id)?;
    let slot = packed.count;
    make_rows(&mut packed.words, row_start(slot + 1))?;
    packed.slots[usize::from(id)] = Some(slot);
    packed.count = slot + 1;
    Ok(slot)
}

/// Whether two ids are a pair.
fn is_hit(packed: &Packed, a: Id, b: Id) -> bool
    requires { ArePacked packed.now.slots.items packed.now.count packed.now.words.items }
    ensures { result ≡ hit packed.now.slots.items packed.now.words.items a b }
{
    match slot_of(&packed.slots, a) {
        None => false,
        Some(s) => match slot_of(&packed.slots, b) {
            None => false,
            Some(t) => is_set(&packed.words, place(s, t)),
        },
    }
}

/// The slots of the ids of a set.
fn slots_of(slots: &[Option<u16>], set: &IdSet) -> IdSet
    requires few { length slots.now ≤ 2048 }
    requires low { (a s : ℕ) → slot_of slots.now a ≡ Some s → s < 2048 }
    ensures all { (a s : ℕ) → slot_of slots.now a ≡ Some s → has_id set.now a ≡ true → has_id result s ≡ true }
    ensures only { (s : ℕ) → has_id result s ≡ true → HasSlot slots.now set.now s }
{
    let mut found = IdSet::new();
    let end = slots.len() as u16;
    for id in 0..end {
        if let Some(slot) = slot_of(slots, id) {
            if set.has(id) {
                found.put(slot);
            }
        }
    }
    found
}

/// Whether a bit is set in two words.
fn meet(a: u64, b: u64) -> bool
    ensures yes { IsTrue result → AreBothSet a b }
    ensures no { result ≡ false → AreBothSet a b → ⊥ }
{
    a & b != 0
}

/// Whether a slot's row has a bit whose slot is in a set.
fn row_meets(words: &[u64], slot: u16, mask: &IdSet) -> bool
    requires low { slot < 2048 }
    requires within { row_start slot + suc (slot / 64) ≤ length words.now }
    ensures yes { IsTrue result → RowMeets words.now slot mask.now }
    ensures no { result ≡ false → RowMeets words.now slot mask.now → ⊥ }
{
    let start = row_start(slot);
    for n in 0..usize::from(slot) / 64 + 1 {
        if meet(words[start + n], mask.word(n)) {
            return true;
        }
    }
    false
}

/// Whether some slot of the one set has a row that meets the other.
fn side_meets(words: &[u64], count: u16, xs: &IdSet, ys: &IdSet) -> bool
    requires few { count ≤ 2048 }
    requires within { row_start count ≤ length words.now }
    ensures yes { IsTrue result → SideMeets words.now count xs.now ys.now }
    ensures no { result ≡ false → SideMeets words.now count xs.now ys.now → ⊥ }
{
    for slot in 0..count {
        if xs.has(slot) && row_meets(words, slot, ys) {
            return true;
        }
    }
    false
}

/// How far a place lies past one where a pair may be; None where it is the pair's own.
fn past_pair(there: bool, left: usize) -> Option<usize>
    ensures none { IfNone result ((there ≡ true) × (left ≡ 0)) }
    ensures some { IfSome result (λ rest. left ≡ rest + (if there then 1 else 0)) }
{
    if !there {
        Some(left)
    } else if left == 0 {
        None
    } else {
        Some(left - 1)
    }
}

/// The pair of a number with the id that stands at a place of its row, or how far the place lies past the row.
fn nth_in_row(packed: &Packed, a: Id, n: usize) -> Result<Id, usize>
    requires packed { ArePacked packed.now.slots.items packed.now.count packed.now.words.items }
    requires low { a < length packed.now.slots.items }
    ensures found { IfOk result (λ b. slice_get (whole_row packed.now.slots.items packed.now.words.items a) n ≡ Some (a, b)) }
    ensures past { IfErr result (λ left. n ≡ left + length (whole_row packed.now.slots.items packed.now.words.items a)) }
{
    let mut left = n;
    let end = packed.slots.len() as u16;
    for b in a + 1..end {
        match past_pair(is_hit(packed, a, b), left) {
            None => return Ok(b),
            Some(rest) => left = rest,
        }
    }
    Err(left)
}

/// The pair at a place of the rising list.
fn nth_pair(packed: &Packed, n: usize) -> Option<(Id, Id)>
    requires { ArePacked packed.now.slots.items packed.now.count packed.now.words.items }
    ensures { result ≡ slice_get (pairs_in packed.now.slots.items packed.now.words.items) n }
{
    let mut left = n;
    let end = packed.slots.len() as u16;
    for a in 0..end {
        match nth_in_row(packed, a, left) {
            Ok(b) => return Some((a, b)),
            Err(rest) => left = rest,
        }
    }
    None
}

/// Whether an id may be in some pair.
fn has_slot(slots: &[Option<u16>], id: Id) -> bool
    ensures { result ≡ false → slot_of slots.now id ≡ None }
{
    slot_of(slots, id).is_some()
}

/// Adds a pair at the end of a list, where it is one.
fn list_pair(list: &mut Vec<(Id, Id)>, there: bool, pair: (Id, Id)) -> Result<(), AllocError>
    ensures { OnOk result (list.new.items ≡ (if there then list.old.items ++ pair ∷ [] else list.old.items)) }
{
    if there {
        list.push(pair)?;
    }
    Ok(())
}

/// Adds the pairs of a number with higher ones at the end of a list.
fn list_row(packed: &Packed, a: Id, list: &mut Vec<(Id, Id)>) -> Result<(), AllocError>
    requires packed { ArePacked packed.now.slots.items packed.now.count packed.now.words.items }
    requires low { a < length packed.now.slots.items }
    ensures { OnOk result (list.new.items ≡ list.old.items ++ whole_row packed.now.slots.items packed.now.words.items a) }
{
    if !has_slot(&packed.slots, a) {
        return Ok(());
    }
    let end = packed.slots.len() as u16;
    for b in a + 1..end {
        list_pair(list, is_hit(packed, a, b), (a, b))?;
    }
    Ok(())
}

/// All pairs, in rising order.
fn list_pairs(packed: &Packed, alloc: Global) -> Result<Vec<(Id, Id)>, AllocError>
    requires { ArePacked packed.now.slots.items packed.now.count packed.now.words.items }
    ensures { IfOk result (λ list. list.items ≡ pairs_in packed.now.slots.items packed.now.words.items) }
{
    let mut list = Vec::new(alloc);
    let end = packed.slots.len() as u16;
    for a in 0..end {
        list_row(packed, a, &mut list)?;
    }
    Ok(list)
}

/// Sets the bit of two ids.
fn add_pair(packed: &mut Packed, a: Id, b: Id) -> Result<(), AllocError>
    requires packed { ArePacked packed.old.slots.items packed.old.count packed.old.words.items }
    requires differ { a ≢ b }
    requires low { (a < 2048) × (b < 2048) }
    ensures packed { ArePacked packed.new.slots.items packed.new.count packed.new.words.items }
    ensures ok { OnOk result
        (pairs_in packed.new.slots.items packed.new.words.items ≡ added a b (pairs_in packed.old.slots.items packed.old.words.items)) }
    ensures err { OnErr result (pairs_in packed.new.slots.items packed.new.words.items ≡ pairs_in packed.old.slots.items
        packed.old.words.items) }
{
    let s = list_id(packed, a)?;
    let t = list_id(packed, b)?;
    set_bit(&mut packed.words, place(s, t));
    Ok(())
}

/// Clears the bit of two ids.
fn remove_pair(packed: &mut Packed, a: Id, b: Id)
    requires packed { ArePacked packed.old.slots.items packed.old.count packed.old.words.items }
    requires differ { a ≢ b }
    ensures packed { ArePacked packed.new.slots.items packed.new.count packed.new.words.items }
    ensures pairs { pairs_in packed.new.slots.items packed.new.words.items ≡ removed a b
        (pairs_in packed.old.slots.items packed.old.words.items) }
{
    if let Some(s) = slot_of(&packed.slots, a) {
        if let Some(t) = slot_of(&packed.slots, b) {
            clear_bit(&mut packed.words, place(s, t));
        }
    }
}

/// Takes all pairs of an id away.
fn clear_row(packed: &mut Packed, a: Id)
    requires { ArePacked packed.old.slots.items packed.old.count packed.old.words.items }
    ensures packed { ArePacked packed.new.slots.items packed.new.count packed.new.words.items }
    ensures pairs { IsCleared (pairs_in packed.old.slots.items packed.old.words.items)
        (pairs_in packed.new.slots.items packed.new.words.items) a 2048 }
{
    for b in 0..2048u16 {
        if b != a {
            remove_pair(packed, a, b);
        }
    }
}

/// Whether the pairs of an id are to go: it is not in the set, and may have some.
fn is_lost(packed: &Packed, ids: &IdSet, a: Id) -> bool
    ensures yes { IsTrue result → has_id ids.now a ≡ false }
    ensures no { result ≡ false → (has_id ids.now a ≡ true) ⊎ (slot_of packed.now.slots.items a ≡ None) }
{
    !ids.has(a) && slot_of(&packed.slots, a).is_some()
}

/// Keeps the pairs whose ids are both in a set.
fn keep_pairs(packed: &mut Packed, ids: &IdSet)
    requires { ArePacked packed.old.slots.items packed.old.count packed.old.words.items }
    ensures packed { ArePacked packed.new.slots.items packed.new.count packed.new.words.items }
    ensures pairs { pairs_in packed.new.slots.items packed.new.words.items ≡ kept ids.now
        (pairs_in packed.old.slots.items packed.old.words.items) }
{
    for a in 0..2048u16 {
        if is_lost(packed, ids, a) {
            clear_row(packed, a);
        }
    }
}

/// Whether some pair has one id in `x` and the other one in `y`.
fn some_touches(packed: &Packed, x: &IdSet, y: &IdSet) -> bool
    requires { ArePacked packed.now.slots.items packed.now.count packed.now.words.items }
    ensures { result ≡ are_touched x.now y.now (pairs_in packed.now.slots.items packed.now.words.items) }
{
    let xs = slots_of(&packed.slots, x);
    let ys = slots_of(&packed.slots, y);
    side_meets(&packed.words, packed.count, &xs, &ys)
        || side_meets(&packed.words, packed.count, &ys, &xs)
}

/// Whether two ids are a pair of others, where they are a pair.
fn is_kept(some: &Packed, others: &Packed, a: Id, b: Id) -> bool
    requires some { ArePacked some.now.slots.items some.now.count some.now.words.items }
    requires others { ArePacked others.now.slots.items others.now.count others.now.words.items }
    ensures { result ≡ (not (hit some.now.slots.items some.now.words.items a b) || hit others.now.slots.items others.now.words.items a b) }
{
    !is_hit(some, a, b) || is_hit(others, a, b)
}

/// Whether each pair of an id with a higher one is a pair of others.
fn row_among(some: &Packed, others: &Packed, a: Id) -> bool
    requires some { ArePacked some.now.slots.items some.now.count some.now.words.items }
    requires others { ArePacked others.now.slots.items others.now.count others.now.words.items }
    requires low { a < length some.now.slots.items }
    ensures { IsTrue result ↔ IsRowAmong (hit some.now.slots.items some.now.words.items)
        (hit others.now.slots.items others.now.words.items) a }
{
    if slot_of(&some.slots, a).is_none() {
        return true;
    }
    let end = some.slots.len() as u16;
    for b in a + 1..end {
        if !is_kept(some, others, a, b) {
            return false;
        }
    }
    true
}

/// Whether each pair is a pair of others.
fn all_among(some: &Packed, others: &Packed) -> bool
    requires some { ArePacked some.now.slots.items some.now.count some.now.words.items }
    requires others { ArePacked others.now.slots.items others.now.count others.now.words.items }
    ensures { IsTrue result ↔ AreAmong (pairs_in some.now.slots.items some.now.words.items)
        (pairs_in others.now.slots.items others.now.words.items) }
{
    let end = some.slots.len() as u16;
    for a in 0..end {
        if !row_among(some, others, a) {
            return false;
        }
    }
    true
}

impl Pairs for PackedPairs {
    ghost pairs = { λ s. s };

    fn empty(alloc: Global) -> Self {
        PackedPairs {
            packed: Packed {
                slots: Vec::new(alloc),
                count: 0,
                words: Vec::new(alloc),
            },
        }
    }

    fn add(&mut self, a: Id, b: Id) -> Result<(), AllocError> {
        add_pair(&mut self.packed, a, b)
    }

    fn remove(&mut self, a: Id, b: Id) {
        remove_pair(&mut self.packed, a, b);
    }

    fn has(&self, a: Id, b: Id) -> bool {
        is_hit(&self.packed, a, b)
    }

    fn nth(&self, n: usize) -> Option<(Id, Id)> {
        nth_pair(&self.packed, n)
    }

    fn rise(&self) {
        let _slots = self.packed.slots.len();
    }

    fn list(&self, alloc: Global) -> Result<Vec<(Id, Id)>, AllocError> {
        list_pairs(&self.packed, alloc)
    }

    fn touches(&self, x: &IdSet, y: &IdSet) -> bool {
        some_touches(&self.packed, x, y)
    }

    fn keep(&mut self, ids: &IdSet) {
        keep_pairs(&mut self.packed, ids);
    }

    fn copied(&self, alloc: Global) -> Result<Self, AllocError> {
        Ok(PackedPairs {
            packed: Packed {
                slots: Vec::from_slice(alloc, &self.packed.slots)?,
                count: self.packed.count,
                words: Vec::from_slice(alloc, &self.packed.words)?,
            },
        })
    }

    fn are_among(&self, others: &Self) -> bool {
        all_among(&self.packed, &others.packed)
    }
}
