//! The pool: entries in order of first need, each once, found through an index.

ghost use Rattle.std.specs.Prelude.{◌≡◌, ◌<◌, [], OnOk, IfOk, fold, map, min, slice_index_or, true};
ghost use Rattle.std.specs.List.{AllByRecursion};
ghost use Rattle.class_pool.specs.Entry.{HasText};
ghost use Rattle.class_asm.specs.asm_pool.Entries.{seen, with_named, has_text};
ghost use Rattle.asm_lines.specs.Firsts.{with_faults, unless};
ghost use Rattle.class_asm.specs.asm_pool.Pools.{needed, brought, need_faults, with_first, count_faults, numbers_from, number_of, pool_entry};

use crate::asm_pool::entry::Entry;
use asm_lines::{AsmFault, First};
use class_pool::PoolEntry;
use indexmap::IndexMap;
use list_views::Seq;
use std::alloc::{AllocError, Global};
use std::marker::Model;

fn entries_of<'a>(
    alloc: Global,
    lines: &IndexMap<Entry<'a>, usize>,
) -> Result<Vec<(Entry<'a>, usize)>, AllocError>
    ensures { IfOk result (λ v. v.items ≡ lines.now.entries) }
{
    let mut list = Vec::new(alloc);
    for place in 0..lines.len() {
        let Some((entry, line)) = lines.get_index(place) else {
            return Ok(list);
        };
        list.push((*entry, *line))?;
    }
    Ok(list)
}

/// The entries that are needed, each with the line that first needs it. It is seen as their list.
#[derive(Drop)]
pub(crate) struct Firsts<'a> {
    lines: IndexMap<Entry<'a>, usize>,
}

impl<'a> Model for Firsts<'a> {
    ghost use Rattle.std.specs.Prelude.{List, ℕ, map};
    ghost use Rattle.class_asm.specs.asm_pool.Entries.{Entry, seen};

    ghost Value = { List (Entry × ℕ) };

    ghost view = { λ f. map (λ e. (seen e.0, e.1)) f.lines.entries };
}

impl<'a> Firsts<'a> {
    /// No entry.
    pub(crate) fn new(alloc: Global) -> Firsts<'a>
        ensures { result ≡ [] }
    {
        Firsts {
            lines: IndexMap::new(alloc),
        }
    }

    /// The line needs the entry, and not those that it names.
    fn add(&mut self, line: usize, entry: Entry<'a>) -> Result<(), AllocError>
        ensures { OnOk result (self.new ≡ with_first self.old (seen entry.entry, line)) }
    {
        if self.lines.get_index_of(&entry).is_some() {
            return Ok(());
        }
        self.lines.insert(entry, line)?;
        Ok(())
    }

    /// The line needs the entry, and before it those that it names.
    fn bring(&mut self, line: usize, entry: Entry<'a>) -> Result<(), AllocError>
        ensures { OnOk result (self.new ≡ fold with_first self.old (needed line (with_named (seen entry.entry)))) }
    {
        match entry {
            Entry::Class(name) => self.add(line, Entry::Utf8(name))?,
            Entry::Str(text) => self.add(line, Entry::Utf8(text))?,
            Entry::NameAndType(name, desc) => {
                self.add(line, Entry::Utf8(name))?;
                self.add(line, Entry::Utf8(desc))?;
            }
            Entry::Member(_, class, name, desc) => {
                self.add(line, Entry::Utf8(class))?;
                self.add(line, Entry::Class(class))?;
                self.add(line, Entry::Utf8(name))?;
                self.add(line, Entry::Utf8(desc))?;
                self.add(line, Entry::NameAndType(name, desc))?;
            }
            _ => {}
        }
        self.add(line, entry)
    }

    /// The line needs the entry; where a text in it is too long, the line is faulty.
    pub(crate) fn need(
        &mut self,
        first: &mut First,
        line: usize,
        entry: Entry<'a>,
    ) -> Result<(), AllocError>
        ensures needs { OnOk result (self.new ≡ fold with_first self.old (brought (seen entry.entry, line))) }
        ensures faults { OnOk result (first.new.fault ≡ with_faults first.old.fault (need_faults (seen entry.entry, line))) }
    {
        if entry.has_text() {
            self.bring(line, entry)
        } else {
            first.add(AsmFault::OutOfRange { line });
            Ok(())
        }
    }

    /// The entries with the lines that first need them.
    pub(crate) fn list(&self, alloc: Global) -> Result<Vec<(Entry<'a>, usize)>, AllocError>
        ensures { IfOk result (λ v. map (λ e. (seen e.0, e.1)) v.items ≡ self.now) }
    {
        entries_of(alloc, &self.lines)
    }

    /// The entries with these numbers.
    pub(crate) fn with_numbers(self, numbers: Seq<u16>) -> Pool<'a>
        ensures { result ≡ (map (λ n. n.0) self.entry, numbers) }
    {
        Pool {
            lines: self.lines,
            numbers,
        }
    }
}

/// Their numbers.
pub(crate) fn numbers_of(
    alloc: Global,
    needs: &[(Entry<'_>, usize)],
) -> Result<Seq<u16>, AllocError>
    ensures { IfOk result (λ n. n ≡ numbers_from 1 (map (λ e. seen e.0) needs.now)) }
{
    let mut numbers = Seq::new(alloc);
    let mut next = 1;
    for need in needs {
        numbers.push(number(next))?;
        next += need.0.width();
    }
    Ok(numbers)
}

/// That a pool can count them.
pub(crate) fn check_count(first: &mut First, needs: &[(Entry<'_>, usize)])
    ensures { first.new.fault ≡ with_faults first.old.fault (count_faults 1 (map (λ e. (seen e.0, e.1)) needs.now)) }
{
    let mut next = 1;
    for need in needs {
        next += need.0.width();
        first.unless(next < 0x1_0000, need.1);
    }
}

/// A number as it is written.
fn number(n: usize) -> u16
    ensures { result ≡ min n 65535 }
{
    n.min(0xffff) as u16
}

/// Entries with their numbers.
#[derive(Drop)]
pub struct Pool<'a> {
    lines: IndexMap<Entry<'a>, usize>,
    numbers: Seq<u16>,
}

impl<'a> Model for Pool<'a> {
    ghost use Rattle.std.specs.Prelude.{List, ℕ, map};
    ghost use Rattle.class_asm.specs.asm_pool.Entries.{Entry, seen};

    ghost Value = { List Entry × List ℕ };

    ghost view = { λ p. (map (λ e. seen e.0) p.lines.entries, p.numbers) };
}

impl<'a> Pool<'a> {
    /// The number of the entry; 0 where it isn't there.
    pub fn number(&self, entry: Entry<'_>) -> u16
        ensures { result ≡ number_of self.now (seen entry.entry) }
    {
        match self.lines.get_index_of(&entry) {
            Some(place) => number_at(self.numbers.as_slice(), place),
            None => 0,
        }
    }

    /// The entry as the file has it.
    fn pool_entry(&self, alloc: Global, entry: Entry<'_>) -> Result<PoolEntry, AllocError>
        requires { has_text (seen entry) ≡ true }
        ensures same { IfOk result (λ e. e ≡ pool_entry self.now (seen entry.entry)) }
        ensures text { IfOk result (λ e. HasText e) }
    {
        Ok(match entry {
            Entry::Utf8(text) => PoolEntry::Utf8(Seq::from_slice(alloc, text)?),
            Entry::Integer(value) => PoolEntry::Integer(value),
            Entry::Float(bits) => PoolEntry::Float(bits),
            Entry::Long(bits) => PoolEntry::Long(bits),
            Entry::Double(bits) => PoolEntry::Double(bits),
            Entry::Class(name) => PoolEntry::Class(self.number(Entry::Utf8(name))),
            Entry::Str(text) => PoolEntry::Str(self.number(Entry::Utf8(text))),
            Entry::Member(tag, class, name, desc) => PoolEntry::Member {
                tag,
                class: self.number(Entry::Class(class)),
                name_and_type: self.number(Entry::NameAndType(name, desc)),
            },
            Entry::NameAndType(name, desc) => {
                PoolEntry::NameAndType(
                    self.number(Entry::Utf8(name)),
                    self.number(Entry::Utf8(desc)),
                )
            }
        })
    }

    /// The entries as the file has them, in the order of their numbers.
    #[tactic(auto, using(crate::proofs::PoolBounds::kept_texts))]
    pub fn entries(&self, alloc: Global) -> Result<Seq<PoolEntry>, AllocError>
        requires { AllByRecursion (λ e. has_text e ≡ true) self.now.0 }
        ensures same { IfOk result (λ s. s ≡ map (pool_entry self.now) self.now.0) }
        ensures texts { IfOk result (λ s. AllByRecursion HasText s) }
    {
        let list = entries_of(alloc, &self.lines)?;
        self.pool_entries(alloc, list.as_slice())
    }

    fn pool_entries(
        &self,
        alloc: Global,
        needs: &[(Entry<'_>, usize)],
    ) -> Result<Seq<PoolEntry>, AllocError>
        requires { AllByRecursion (λ e. has_text (seen e.0) ≡ true) needs.now }
        ensures same { IfOk result (λ s. s ≡ map (pool_entry self.now) (map (λ e. seen e.0) needs.now)) }
        ensures texts { IfOk result (λ s. AllByRecursion HasText s) }
    {
        let mut entries = Seq::new(alloc);
        for need in needs {
            entries.push(self.pool_entry(alloc, need.0)?)?;
        }
        Ok(entries)
    }
}

fn number_at(numbers: &[u16], place: usize) -> u16
    ensures { result ≡ slice_index_or numbers.now place 0 }
{
    if place < numbers.len() {
        numbers[place]
    } else {
        0
    }
}
