//! A pool beside what its texts are: each text is looked at once, however often it is named.

ghost use Rattle.std.specs.Prelude.{◌≡◌, ◌<◌, ◌+◌, IfOk, OnOk, map, length, false, Option};
ghost use Rattle.std.specs.Option.{option_copied, option_map_or};
ghost use Rattle.class_base.specs.ClassNames.{is_class_name};
ghost use Rattle.class_base.specs.MemberKinds.{is_descriptor, receiver_words};
ghost use Rattle.class_pool.specs.Text.{places_of, entry_at, utf8_at, class_name_at};
ghost use Rattle.class_read.specs.inner.Known.{kinds_of, place_kinds};
ghost use Rattle.class_read.specs.inner.Numbers.{place_number, number_of, kept_place, KeepsFirst};

use class_base::{MemberKind, STATIC, field_type, has_flag, is_class_name, method_words};
use class_pool::Pool;
use std::alloc::{AllocError, Global};
use std::collections::BTreeMap;
use std::marker::Model;

/// What the text of an entry may stand for; nothing where the entry has no text.
#[derive(Clone, Copy)]
pub(crate) struct Kinds {
    /// It is the name of a class.
    class: bool,
    /// It is the descriptor of a field.
    field: bool,
    /// The words of the parameters, where it is the descriptor of a method.
    words: Option<usize>,
}

/// A pool, and for each of its places what its text may stand for and the number of the text. Its value is the list of
/// the pool's entries.
#[derive(Drop)]
pub(crate) struct KnownPool<'a> {
    pool: Pool<'a>,
    kinds: Vec<Kinds>,
    numbers: Vec<u16>,
}

impl<'a> Model for KnownPool<'a> {
    ghost use Rattle.std.specs.Prelude.{◌≡◌, List, map};
    ghost use Rattle.class_pool.specs.declared.entry.PoolEntry.{PoolEntry};
    ghost use Rattle.class_pool.specs.Text.{places_of};
    ghost use Rattle.class_read.specs.inner.Known.{place_kinds};
    ghost use Rattle.class_read.specs.inner.Numbers.{place_number};

    ghost Value = { List PoolEntry };

    ghost view = { λ k. k.pool };

    ghost invariant = { λ k. (k.kinds.items ≡ map place_kinds (places_of k.pool)) × (k.numbers.items ≡ map (place_number (places_of k.pool)) (places_of k.pool)) };
}

fn kinds_of(text: Option<&[u8]>) -> Kinds
    ensures { result ≡ kinds_of (option_copied text.entry) }
{
    match text {
        Some(text) => Kinds {
            class: is_class_name(text),
            field: field_type(text).is_some(),
            words: method_words(text),
        },
        None => Kinds {
            class: false,
            field: false,
            words: None,
        },
    }
}

/// What each place's text may stand for, from place 0 on.
fn all_kinds(alloc: Global, pool: &Pool<'_>) -> Result<Vec<Kinds>, AllocError>
    ensures { IfOk result (λ v. v.items ≡ map place_kinds (places_of pool.now)) }
{
    let mut kinds = Vec::new(alloc);
    'places: for i in 0..pool.count() {
        kinds.push(kinds_of(pool.utf8(i)))?;
    }
    Ok(kinds)
}

/// The number of the text at the place `i`: the first place that has it. `first` keeps the first places of the texts
/// before that.
fn number<'a>(
    first: &mut BTreeMap<&'a [u8], u16>,
    pool: &Pool<'a>,
    i: u16,
) -> Result<u16, AllocError>
    requires there { i < length (places_of pool.now) }
    requires kept { KeepsFirst (places_of pool.now) i (λ t. kept_place (λ k. k.now) first.old t) }
    ensures number { IfOk result (λ n. n ≡ place_number (places_of pool.now) (entry_at pool.now i)) }
    ensures keeps { OnOk result (KeepsFirst (places_of pool.now) (i + 1) (λ t. kept_place (λ k. k.now) first.new t)) }
{
    let Some(text) = pool.utf8(i) else {
        return Ok(0);
    };
    if let Some(number) = first.get(text) {
        return Ok(*number);
    }
    let _none = first.insert(text, i)?;
    Ok(i)
}

/// The number of each place's text, from place 0 on. Each text is compared with as many others as the number of all has
/// binary digits.
fn all_numbers(alloc: Global, pool: &Pool<'_>) -> Result<Vec<u16>, AllocError>
    ensures { IfOk result (λ v. v.items ≡ map (place_number (places_of pool.now)) (places_of pool.now)) }
{
    let mut first = BTreeMap::new(alloc);
    let mut numbers = Vec::new(alloc);
    'places: for i in 0..pool.count() {
        let number = number(&mut first, pool, i)?;
        numbers.push(number)?;
    }
    Ok(numbers)
}

fn receiver_words(flags: u16) -> usize
    ensures { result ≡ receiver_words flags }
{
    if has_flag(flags, STATIC) { 0 } else { 1 }
}

impl<'a> KnownPool<'a> {
    /// The pool, with each of its texts looked at and numbered.
    pub(crate) fn new(alloc: Global, pool: Pool<'a>) -> Result<KnownPool<'a>, AllocError>
        ensures { IfOk result (λ known. known ≡ pool.entry) }
    {
        let kinds = all_kinds(alloc, &pool)?;
        let numbers = all_numbers(alloc, &pool)?;
        Ok(KnownPool {
            pool,
            kinds,
            numbers,
        })
    }

    /// The pool alone.
    pub(crate) fn into_pool(self) -> Pool<'a>
        ensures { result ≡ self.entry }
    {
        self.pool
    }

    /// The bytes of the Utf8 entry `i`.
    pub(crate) fn utf8(&self, i: u16) -> Option<&'a [u8]>
        ensures { option_copied result ≡ utf8_at self.now i }
    {
        self.pool.utf8(i)
    }

    /// The bytes that name the Class entry `i`.
    pub(crate) fn class_name(&self, i: u16) -> Option<&'a [u8]>
        ensures { option_copied result ≡ class_name_at self.now i }
    {
        self.pool.class_name(i)
    }

    fn kinds(&self, i: u16) -> Kinds
        ensures { result ≡ kinds_of (utf8_at self.now i) }
    {
        match self.kinds.get(i as usize) {
            Some(kinds) => *kinds,
            None => kinds_of(None),
        }
    }

    /// The number of the text of the Utf8 entry `i`: equal texts have one number.
    pub(crate) fn number(&self, i: u16) -> u16
        ensures { result ≡ number_of self.now i }
    {
        match self.numbers.get(i as usize) {
            Some(number) => *number,
            None => 0,
        }
    }

    /// Whether the Class entry `i` is named by the name of a class.
    pub(crate) fn is_class(&self, i: u16) -> bool
        ensures { result ≡ option_map_or is_class_name (class_name_at self.now i) false }
    {
        match self.pool.name_index(i) {
            Some(name) => self.kinds(name).class,
            None => false,
        }
    }

    /// Whether the Utf8 entry `i` is the descriptor of such a member.
    pub(crate) fn describes(&self, kind: MemberKind, flags: u16, i: u16) -> bool
        ensures { result ≡ option_map_or (is_descriptor kind flags) (utf8_at self.now i) false }
    {
        let kinds = self.kinds(i);
        match kind {
            MemberKind::Field => kinds.field,
            MemberKind::Method => match kinds.words {
                Some(words) => words <= 255 - receiver_words(flags),
                None => false,
            },
        }
    }
}
