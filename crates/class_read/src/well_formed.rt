//! Whether a class file's text keeps the rules.

ghost use Rattle.std.specs.Prelude.{◌≡◌, ◌↔◌, ◌<◌, ◌^◌, length, IsTrue, IfOk};
ghost use Rattle.std.specs.List.{AllByRecursion};
ghost use Rattle.class_pool.specs.Text.{IsPool, HasTexts};
ghost use Rattle.class_read.specs.Rules.{IsClass, IsOtherAttribute, IsField, IsMethod, AreDistinct, WellFormed};

use crate::rules::{are_classes, are_fields, are_methods, are_other_attributes, is_class, text};
use crate::text::{AttrText, ClassText, MemberText};
use class_base::KeySet;
use class_base::list_views::Seq;
use class_pool::{Pool, PoolFault, has_texts, write_pool};
use std::alloc::{AllocError, Global};

/// Whether no two members have the same name and descriptor.
fn are_distinct(alloc: Global, pool: &Pool<'_>, members: &[MemberText]) -> Result<bool, AllocError>
    ensures { IfOk result (λ b. IsTrue b ↔ AreDistinct pool.now members.now) }
{
    let mut seen = KeySet::new(alloc);
    for m in members {
        let name = text(pool, m.name);
        let desc = text(pool, m.desc);
        if !seen.add(name, desc)? {
            return Ok(false);
        }
    }
    Ok(true)
}

fn fields_hold(alloc: Global, pool: &Pool<'_>, fields: &Seq<MemberText>) -> Result<bool, AllocError>
    ensures { IfOk result
        (λ b. IsTrue b ↔ ((length fields.now < 2 ^ 16) × AllByRecursion (IsField pool.now) fields.now
        × AreDistinct pool.now fields.now)) }
{
    if fields.len() > 0xffff {
        return Ok(false);
    }
    if !are_fields(pool, fields.as_slice()) {
        return Ok(false);
    }
    are_distinct(alloc, pool, fields.as_slice())
}

fn methods_hold(
    alloc: Global,
    pool: &Pool<'_>,
    methods: &Seq<MemberText>,
) -> Result<bool, AllocError>
    ensures { IfOk result
        (λ b. IsTrue b ↔ ((length methods.now < 2 ^ 16) × AllByRecursion (IsMethod pool.now) methods.now
        × AreDistinct pool.now methods.now)) }
{
    if methods.len() > 0xffff {
        return Ok(false);
    }
    if !are_methods(pool, methods.as_slice()) {
        return Ok(false);
    }
    are_distinct(alloc, pool, methods.as_slice())
}

fn names_hold(pool: &Pool<'_>, class: &ClassText) -> bool
    ensures { IsTrue result ↔ (IsClass pool.now class.now.this_index × IsClass pool.now class.now.super_index) }
{
    is_class(pool, class.this_index) && is_class(pool, class.super_index)
}

fn interfaces_hold(pool: &Pool<'_>, interfaces: &Seq<u16>) -> bool
    ensures { IsTrue result ↔ ((length interfaces.now < 2 ^ 16) × AllByRecursion (IsClass pool.now) interfaces.now) }
{
    interfaces.len() <= 0xffff && are_classes(pool, interfaces.as_slice())
}

fn attributes_hold(pool: &Pool<'_>, attributes: &Seq<AttrText>) -> bool
    ensures { IsTrue result ↔ ((length attributes.now < 2 ^ 16) × AllByRecursion (IsOtherAttribute pool.now) attributes.now) }
{
    attributes.len() <= 0xffff && are_other_attributes(pool, attributes.as_slice())
}

/// Every rule but those on the pool, where the text's pool was read as `pool`.
fn parts_hold(alloc: Global, pool: &Pool<'_>, class: &ClassText) -> Result<bool, AllocError>
    requires rules { IsPool pool.now }
    requires same { class.now.pool ≡ pool.now }
    ensures { IfOk result (λ b. IsTrue b ↔ WellFormed class.now) }
{
    // What was read fits its type.
    let _minor = class.minor;
    let _major = class.major;
    let _flags = class.flags;
    if !names_hold(pool, class) {
        return Ok(false);
    }
    if !interfaces_hold(pool, &class.interfaces) {
        return Ok(false);
    }
    if !attributes_hold(pool, &class.attributes) {
        return Ok(false);
    }
    if !fields_hold(alloc, pool, &class.fields)? {
        return Ok(false);
    }
    methods_hold(alloc, pool, &class.methods)
}

/// The rest of the test of a text whose pool has a text.
fn rules_hold(alloc: Global, class: &ClassText) -> Result<bool, AllocError>
    requires { HasTexts class.now.pool }
    ensures { IfOk result (λ b. IsTrue b ↔ WellFormed class.now) }
{
    let mut text = Seq::new(alloc);
    write_pool(&mut text, class.pool.as_slice())?;
    match Pool::read(alloc, text.as_slice(), 0) {
        Ok((pool, _)) => parts_hold(alloc, &pool, class),
        Err(fault) => match fault {
            PoolFault::Memory => Err(AllocError),
            _ => Ok(false),
        },
    }
}

impl ClassText {
    ghost use Rattle.std.specs.Prelude.{◌↔◌, IsTrue, IfOk};
    ghost use Rattle.class_read.specs.Rules.{WellFormed};

    /// Whether the text keeps the rules of class files (JVM specification, SE 8, chapter 4): the entries make a pool, what
    /// indexes name is there and of the right kind, class names and descriptors are good ones, lists fit their counts and
    /// contents their lengths, a method has one `Code` unless it is abstract or native, and no two fields and no two methods
    /// have the same name and descriptor. No rule speaks of the versions.
    ///
    /// # Errors
    ///
    /// Want of memory, which is taken for the pool's text and places and for the names and descriptors of members.
    pub fn well_formed(&self, alloc: Global) -> Result<bool, AllocError>
        ensures { IfOk result (λ b. IsTrue b ↔ WellFormed self.now) }
    {
        if !has_texts(self.pool.as_slice()) {
            return Ok(false);
        }
        rules_hold(alloc, self)
    }
}
