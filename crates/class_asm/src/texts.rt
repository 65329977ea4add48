//! The class that a listing says.

ghost use Rattle.std.specs.Prelude.{◌≡◌, ◌++◌, ◌<◌, OnOk, IfOk, map, if◌then◌else◌};
ghost use Rattle.std.specs.List.{flat_map};
ghost use Rattle.class_asm.specs.asm_pool.Entries.{Class, Utf8};
ghost use Rattle.asm_lines.specs.Firsts.{with_faults, unless};
ghost use Rattle.class_asm.specs.asm_pool.Pools.{number_of};
ghost use Rattle.class_asm.specs.Classes.{code_said, code_in, said_faults, code_fits, code_attributes, code_faults, field_text};
ghost use Rattle.class_asm.specs.Classes.{size_of, code_text, method_attributes, method_text, class_flags, attribute_text};

use crate::asm_pool::{Entry, Pool};
use crate::codes::{code_attributes, code_fits, code_in};
use crate::rules::{field_flags, method_flags};
use asm_lines::{AttributeLine, ClassLine, FieldLine, First, MethodLines, Number, copy};
use class_read::{AttrText, MemberText};
use list_views::Seq;
use std::alloc::{AllocError, Global};

/// The flags of a class, which is public and calls the methods of its superclass by the newer rule.
const CLASS: u16 = 0x0021;

/// The flags of an interface, which is public and abstract.
const INTERFACE: u16 = 0x0601;

/// The flag of an abstract class.
const ABSTRACT_CLASS: u16 = 0x0400;

fn text_number(pool: &Pool<'_>, text: &Seq<u8>) -> u16
    ensures { result ≡ number_of pool.now (Utf8 text.now) }
{
    pool.number(Entry::Utf8(text.as_slice()))
}

fn field_text(alloc: Global, pool: &Pool<'_>, f: &(usize, FieldLine)) -> MemberText
    ensures { result ≡ field_text pool.now f.now }
{
    MemberText {
        flags: field_flags(&f.1),
        name: text_number(pool, &f.1.name),
        desc: text_number(pool, &f.1.desc),
        attributes: Seq::new(alloc),
    }
}

/// The fields.
pub(crate) fn field_texts(
    alloc: Global,
    pool: &Pool<'_>,
    fields: &[(usize, FieldLine)],
) -> Result<Seq<MemberText>, AllocError>
    ensures { IfOk result (λ t. t ≡ map (field_text pool.now) fields.now) }
{
    let mut texts = Seq::new(alloc);
    for f in fields {
        texts.push(field_text(alloc, pool, f))?;
    }
    Ok(texts)
}

fn size_of(n: Number) -> u16
    ensures { result ≡ size_of n }
{
    n.pair().unwrap_or(0)
}

/// The attributes of a method: its code, if it has one.
fn method_attributes(
    alloc: Global,
    first: &mut First,
    pool: &Pool<'_>,
    m: &MethodLines,
) -> Result<Seq<AttrText>, AllocError>
    ensures text { IfOk result (λ t. t ≡ method_attributes pool.now m.now) }
    ensures faults { OnOk result (first.new.fault ≡ with_faults first.old.fault (code_faults pool.now m.now)) }
{
    let mut attributes = Seq::new(alloc);
    if let Some(sizes) = m.head.sizes {
        attributes.push(code_text(alloc, first, pool, m, sizes)?)?;
    }
    Ok(attributes)
}

/// The code of a method.
fn code_text(
    alloc: Global,
    first: &mut First,
    pool: &Pool<'_>,
    m: &MethodLines,
    sizes: (Number, Number),
) -> Result<AttrText, AllocError>
    ensures text { IfOk result (λ t. t ≡ code_text pool.now m.now (code_in (code_said pool.now m.now)) sizes) }
    ensures faults { OnOk result
        (first.new.fault ≡ with_faults first.old.fault
        (said_faults (code_said pool.now m.now) ++ unless
        (code_fits (code_in (code_said pool.now m.now)) (code_attributes pool.now m.now.lines)) m.now.line)) }
{
    let code = code_in(alloc, first, pool, m)?;
    let attributes = code_attributes(alloc, pool, m.lines.as_slice())?;
    first.unless(code_fits(&code, attributes.as_slice()), m.line);
    Ok(AttrText::Code {
        name: pool.number(Entry::Utf8(b"Code")),
        max_stack: size_of(sizes.0),
        max_locals: size_of(sizes.1),
        code: code.bytes,
        table: code.table,
        attributes,
    })
}

fn method_text(
    alloc: Global,
    first: &mut First,
    pool: &Pool<'_>,
    m: &MethodLines,
) -> Result<MemberText, AllocError>
    ensures text { IfOk result (λ t. t ≡ method_text pool.now m.now) }
    ensures faults { OnOk result (first.new.fault ≡ with_faults first.old.fault (code_faults pool.now m.now)) }
{
    let attributes = method_attributes(alloc, first, pool, m)?;
    Ok(MemberText {
        flags: method_flags(&m.head),
        name: text_number(pool, &m.head.name),
        desc: text_number(pool, &m.head.desc),
        attributes,
    })
}

/// The methods.
pub(crate) fn method_texts(
    alloc: Global,
    first: &mut First,
    pool: &Pool<'_>,
    methods: &[MethodLines],
) -> Result<Seq<MemberText>, AllocError>
    ensures text { IfOk result (λ t. t ≡ map (method_text pool.now) methods.now) }
    ensures faults { OnOk result (first.new.fault ≡ with_faults first.old.fault (flat_map (code_faults pool.now) methods.now)) }
{
    let mut texts = Seq::new(alloc);
    for m in methods {
        texts.push(method_text(alloc, first, pool, m)?)?;
    }
    Ok(texts)
}

/// The flags of the class.
pub(crate) fn class_flags(class: &ClassLine) -> u16
    ensures { result ≡ class_flags class.now }
{
    let kind = if class.is_interface { INTERFACE } else { CLASS };
    let flag = if class.is_abstract { ABSTRACT_CLASS } else { 0 };
    kind | flag
}

/// The numbers of classes.
pub(crate) fn class_numbers(
    alloc: Global,
    pool: &Pool<'_>,
    names: &[Seq<u8>],
) -> Result<Seq<u16>, AllocError>
    ensures { IfOk result (λ n. n ≡ map (λ name. number_of pool.now (Class name)) names.now) }
{
    let mut numbers = Seq::new(alloc);
    for name in names {
        numbers.push(pool.number(Entry::Class(name.as_slice())))?;
    }
    Ok(numbers)
}

/// The attributes of the class.
pub(crate) fn attribute_texts(
    alloc: Global,
    pool: &Pool<'_>,
    attributes: &[(usize, AttributeLine)],
) -> Result<Seq<AttrText>, AllocError>
    ensures { IfOk result (λ t. t ≡ map (attribute_text pool.now) attributes.now) }
{
    let mut texts = Seq::new(alloc);
    for a in attributes {
        texts.push(AttrText::Skipped {
            name: text_number(pool, &a.1.name),
            content: copy(alloc, &a.1.content)?,
        })?;
    }
    Ok(texts)
}
