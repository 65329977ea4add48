//! A whole class file.

ghost use Rattle.std.specs.Prelude.{◌≡◌, ℕ, List, [], map, length, IfOk, Ok};
ghost use Rattle.class_base.specs.list_views.ByteLists.{IsBytes};
ghost use Rattle.class_read.specs.Reading.{Gives, repeated, collected};
ghost use Rattle.class_read.specs.Content.{ClassContent};
ghost use Rattle.class_read.specs.View.{class_content};
ghost use Rattle.class_read.specs.Rules.{is_read_major, Spells};
ghost use Rattle.class_read.specs.FirstFault.{class_index_at, interfaces_at, magic_at, major_at, of_pool, IsEnd, pool_field_at};
ghost use Rattle.class_read.specs.FirstFault.{end_at, lists_at, body_at, file_at, class_in};

use crate::attribute::{attributes, class_index};
use crate::fault::ClassFault;
use crate::field::{place, u2, u4};
use crate::known::KnownPool;
use crate::member::{fields, methods};
use crate::view::{ClassView, Front, Lists, class_view};
use class_base::list_views::Seq;
use class_pool::{Pool, PoolFault};
use std::alloc::Global;

const MAGIC: u32 = 0xcafe_babe;

fn magic(total: usize, bytes: &[u8]) -> Result<(u32, &[u8]), ClassFault>
    ensures { Gives (λ x. (x.0, x.1.now)) result (magic_at total bytes.now) }
{
    let (magic, rest) = u4(total, bytes)?;
    if magic != MAGIC {
        return Err(ClassFault::BadMagic);
    }
    Ok((magic, rest))
}

fn is_read_major(major: u16) -> bool
    ensures { result ≡ is_read_major major }
{
    major >= 46 && major <= 52
}

fn major(total: usize, bytes: &[u8]) -> Result<(u16, &[u8]), ClassFault>
    ensures { Gives (λ x. (x.0, x.1.now)) result (major_at total bytes.now) }
{
    let (major, rest) = u2(total, bytes)?;
    if !is_read_major(major) {
        return Err(ClassFault::Version { major });
    }
    Ok((major, rest))
}

fn interface_times<'a>(
    total: usize,
    pool: &KnownPool<'a>,
    interfaces: &mut Seq<&'a [u8]>,
    count: u16,
    bytes: &'a [u8],
) -> Result<&'a [u8], ClassFault>
    ensures { Gives (λ x. (map (λ i. i.now) interfaces.new, x.now)) result
        (repeated (collected (class_index_at total pool.now)) count (map (λ i. i.now) interfaces.old) bytes.now) }
{
    let mut rest = bytes;
    'interfaces: for _ in 0..count {
        let (name, after) = class_index(total, pool, rest)?;
        interfaces.push(name)?;
        rest = after;
    }
    Ok(rest)
}

/// The names of the interfaces, into a list that is empty before.
#[tactic(auto, unfolding(crate::specs::FirstFault::interfaces_at))]
fn interfaces<'a>(
    total: usize,
    pool: &KnownPool<'a>,
    interfaces: &mut Seq<&'a [u8]>,
    bytes: &'a [u8],
) -> Result<&'a [u8], ClassFault>
    requires { interfaces.old ≡ [] }
    ensures { Gives (λ x. (map (λ i. i.now) interfaces.new, x.now)) result (interfaces_at total pool.now bytes.now) }
{
    let (count, rest) = u2(total, bytes)?;
    interface_times(total, pool, interfaces, count, rest)
}

fn of_pool(fault: PoolFault) -> ClassFault
    ensures { result ≡ of_pool fault }
{
    match fault {
        PoolFault::Memory => ClassFault::Memory,
        _ => ClassFault::Pool(fault),
    }
}

/// The constant pool at the front of `rest`, which is the end of the file.
fn pool<'a>(
    alloc: Global,
    file: &'a [u8],
    rest: &'a [u8],
) -> Result<(Pool<'a>, &'a [u8]), ClassFault>
    requires { IsEnd file.now rest.now }
    ensures { Gives (λ x. (x.0, x.1.now)) result (pool_field_at (length file.now) rest.now) }
{
    match Pool::read(alloc, file, place(file.len(), rest)) {
        Ok((pool, next)) => {
            let (_, rest) = file.split_at(next);
            Ok((pool, rest))
        }
        Err(fault) => Err(of_pool(fault)),
    }
}

fn end(total: usize, bytes: &[u8]) -> Result<&[u8], ClassFault>
    ensures { Gives (λ x. (tt, x.now)) result (end_at total bytes.now) }
{
    if !bytes.is_empty() {
        return Err(ClassFault::TrailingBytes {
            at: place(total, bytes),
        });
    }
    Ok(bytes)
}

/// The lists of a class into `lists`, which are empty before, and the attributes of the class itself.
#[tactic(auto, unfolding(crate::specs::FirstFault::lists_at))]
fn put_lists<'a>(
    alloc: Global,
    total: usize,
    pool: &KnownPool<'a>,
    front: Front<'a>,
    lists: &mut Lists<'a>,
    bytes: &'a [u8],
) -> Result<&'a [u8], ClassFault>
    requires interfaces { lists.old.interfaces ≡ [] }
    requires fields { lists.old.fields ≡ [] }
    requires methods { lists.old.methods ≡ [] }
    ensures { Gives (λ x. (class_content pool.now front.entry lists.new, x.now)) result
        (lists_at total pool.now front.entry.major front.entry.flags front.entry.name.now front.entry.super_name.now bytes.now) }
{
    let rest = interfaces(total, pool, &mut lists.interfaces, bytes)?;
    let rest = fields(alloc, total, pool, &mut lists.fields, rest)?;
    let rest = methods(alloc, total, pool, &mut lists.methods, rest)?;
    let rest = attributes(total, pool, rest)?;
    Ok(rest)
}

/// What follows the pool: what stands before the lists, and these into `lists`, which are empty before.
#[tactic(auto, unfolding(crate::specs::FirstFault::body_at))]
fn parts<'a>(
    alloc: Global,
    total: usize,
    major: u16,
    pool: &KnownPool<'a>,
    lists: &mut Lists<'a>,
    bytes: &'a [u8],
) -> Result<(Front<'a>, &'a [u8]), ClassFault>
    requires interfaces { lists.old.interfaces ≡ [] }
    requires fields { lists.old.fields ≡ [] }
    requires methods { lists.old.methods ≡ [] }
    ensures { Gives (λ x. (class_content pool.now x.0 lists.new, x.1.now)) result (body_at total major pool.now bytes.now) }
{
    let (flags, rest) = u2(total, bytes)?;
    let (name, rest) = class_index(total, pool, rest)?;
    let (super_name, rest) = class_index(total, pool, rest)?;
    let front = Front {
        major,
        flags,
        name,
        super_name,
    };
    let rest = put_lists(alloc, total, pool, front, lists, rest)?;
    Ok((front, rest))
}

/// What follows the pool.
fn body<'a>(
    alloc: Global,
    total: usize,
    major: u16,
    pool: KnownPool<'a>,
    bytes: &'a [u8],
) -> Result<(ClassView<'a>, &'a [u8]), ClassFault>
    ensures { Gives (λ x. (x.0, x.1.now)) result (body_at total major pool.entry bytes.now) }
{
    let mut lists = Lists::new(alloc);
    let (front, rest) = parts(alloc, total, major, &pool, &mut lists, bytes)?;
    Ok((class_view(front, lists, pool.into_pool()), rest))
}

#[tactic(auto, unfolding(crate::specs::FirstFault::file_at))]
fn file<'a>(alloc: Global, bytes: &'a [u8]) -> Result<(ClassView<'a>, &'a [u8]), ClassFault>
    ensures { Gives (λ x. (x.0, x.1.now)) result (file_at (length bytes.now) bytes.now) }
{
    let total = bytes.len();
    let (_, rest) = magic(total, bytes)?;
    let (_, rest) = u2(total, rest)?;
    let (major, rest) = major(total, rest)?;
    let (pool, rest) = pool(alloc, bytes, rest)?;
    let pool = KnownPool::new(alloc, pool)?;
    body(alloc, total, major, pool, rest)
}

/// A whole file, and no byte after it.
#[tactic(auto, unfolding(crate::specs::FirstFault::class_in, crate::specs::FirstFault::whole_at))]
fn class<'a>(alloc: Global, bytes: &'a [u8]) -> Result<ClassView<'a>, ClassFault>
    ensures { Gives (λ c. c) result (class_in bytes.now) }
{
    let (class, rest) = file(alloc, bytes)?;
    end(bytes.len(), rest)?;
    Ok(class)
}

impl<'a> ClassView<'a> {
    /// The class that the bytes of a class file spell. Names and code are parts of `bytes`.
    ///
    /// # Errors
    ///
    /// The first fault where the bytes spell no class, as [`ClassFault`] says, and [`ClassFault::Memory`].
    pub fn read(alloc: Global, bytes: &'a [u8]) -> Result<ClassView<'a>, ClassFault>
        // What is read is spelled so.
        ensures found { IfOk result (λ c. Spells bytes.now c) }
        // What is spelled so is read, unless memory runs out.
        ensures only { (c : ClassContent) → Spells bytes.now c → Gives {Y = ClassContent} (λ d. d) result (Ok c) }
        // Which fault it is.
        ensures exact { Gives (λ c. c) result (class_in bytes.now) }
    {
        class(alloc, bytes)
    }
}

/// The reading from left to right gives a class exactly where the bytes spell it.
pub fn read_is_spelled()
    ensures found { (bytes : List ℕ) (c : ClassContent) → IsBytes bytes → class_in bytes ≡ Ok c → Spells bytes c }
    ensures only { (bytes : List ℕ) (c : ClassContent) → Spells bytes c → class_in bytes ≡ Ok c }
{}

/// No bytes spell two classes.
pub fn one_class()
    ensures { (bytes : List ℕ) (c d : ClassContent) → Spells bytes c → Spells bytes d → c ≡ d }
{}
