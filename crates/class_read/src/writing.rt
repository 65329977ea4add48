//! Class files as bytes.

ghost use Rattle.std.specs.Prelude.{◌≡◌, ◌<◌, ◌^◌, ◌++◌, length, OnOk, IfOk, true};
ghost use Rattle.std.specs.List.{flat_map, AllByRecursion};
ghost use Rattle.class_read.specs.Text.{u2, u4, counted, attribute_text, handler_text, code_text, attr_text, member_text, class_bytes};
ghost use Rattle.class_read.specs.Writing.{HasAttributeText, HasAttrText, HasMemberText, HasClassText, front_text, lists_text};
ghost use Rattle.class_read.specs.Rules.{WellFormed, Spells, content_of, is_read_major};
ghost use Rattle.class_read.specs.declared.text.ClassText.{ClassText};

use crate::text::{AttrText, ClassText, MemberText};
use class_base::Handler;
use class_base::list_views::Seq;
use class_pool::write_pool;
use std::alloc::{AllocError, Global};

const MAGIC: u32 = 0xcafe_babe;

fn put_u2(out: &mut Seq<u8>, n: u16) -> Result<(), AllocError>
    ensures { OnOk result (out.new ≡ out.old ++ u2 n) }
{
    out.extend_from_slice(&n.to_be_bytes())
}

fn put_u4(out: &mut Seq<u8>, n: u32) -> Result<(), AllocError>
    ensures { OnOk result (out.new ≡ out.old ++ u4 n) }
{
    out.extend_from_slice(&n.to_be_bytes())
}

fn put_count(out: &mut Seq<u8>, count: usize) -> Result<(), AllocError>
    requires { count < 2 ^ 16 }
    ensures { OnOk result (out.new ≡ out.old ++ u2 count) }
{
    put_u2(out, count as u16)
}

fn put_size(out: &mut Seq<u8>, size: usize) -> Result<(), AllocError>
    requires { size < 2 ^ 32 }
    ensures { OnOk result (out.new ≡ out.old ++ u4 size) }
{
    put_u4(out, size as u32)
}

fn put_attribute(out: &mut Seq<u8>, name: u16, content: &[u8]) -> Result<(), AllocError>
    requires { length content.now < 2 ^ 32 }
    ensures { OnOk result (out.new ≡ out.old ++ attribute_text (name, content.now)) }
{
    put_u2(out, name)?;
    put_size(out, content.len())?;
    out.extend_from_slice(content)
}

fn put_attributes(out: &mut Seq<u8>, attributes: &[(u16, Seq<u8>)]) -> Result<(), AllocError>
    requires { AllByRecursion HasAttributeText attributes.now }
    ensures { OnOk result (out.new ≡ out.old ++ flat_map attribute_text attributes.now) }
{
    for a in attributes {
        put_attribute(out, a.0, a.1.as_slice())?;
    }
    Ok(())
}

fn put_handler(out: &mut Seq<u8>, handler: &Handler) -> Result<(), AllocError>
    ensures { OnOk result (out.new ≡ out.old ++ handler_text handler.now) }
{
    put_u2(out, handler.start)?;
    put_u2(out, handler.end)?;
    put_u2(out, handler.handler)?;
    put_u2(out, handler.catch)
}

fn put_handlers(out: &mut Seq<u8>, table: &[Handler]) -> Result<(), AllocError>
    ensures { OnOk result (out.new ≡ out.old ++ flat_map handler_text table.now) }
{
    for handler in table {
        put_handler(out, handler)?;
    }
    Ok(())
}

fn put_code(
    out: &mut Seq<u8>,
    max_stack: u16,
    max_locals: u16,
    code: &[u8],
    table: &[Handler],
    attributes: &[(u16, Seq<u8>)],
) -> Result<(), AllocError>
    requires code_fits { length code.now < 2 ^ 32 }
    requires table_fits { length table.now < 2 ^ 16 }
    requires attributes_fit { length attributes.now < 2 ^ 16 }
    requires each { AllByRecursion HasAttributeText attributes.now }
    ensures { OnOk result (out.new ≡ out.old ++ code_text max_stack max_locals code.now table.now attributes.now) }
{
    put_u2(out, max_stack)?;
    put_u2(out, max_locals)?;
    put_size(out, code.len())?;
    out.extend_from_slice(code)?;
    put_count(out, table.len())?;
    put_handlers(out, table)?;
    put_count(out, attributes.len())?;
    put_attributes(out, attributes)
}

fn code_content(
    alloc: Global,
    max_stack: u16,
    max_locals: u16,
    code: &[u8],
    table: &[Handler],
    attributes: &[(u16, Seq<u8>)],
) -> Result<Seq<u8>, AllocError>
    requires code_fits { length code.now < 2 ^ 32 }
    requires table_fits { length table.now < 2 ^ 16 }
    requires attributes_fit { length attributes.now < 2 ^ 16 }
    requires each { AllByRecursion HasAttributeText attributes.now }
    ensures { IfOk result (λ c. c ≡ code_text max_stack max_locals code.now table.now attributes.now) }
{
    let mut content = Seq::new(alloc);
    put_code(&mut content, max_stack, max_locals, code, table, attributes)?;
    Ok(content)
}

fn put_attr(alloc: Global, out: &mut Seq<u8>, attr: &AttrText) -> Result<(), AllocError>
    requires { HasAttrText attr.now }
    ensures { OnOk result (out.new ≡ out.old ++ attr_text attr.now) }
{
    match attr {
        AttrText::Skipped { name, content } => put_attribute(out, *name, content.as_slice()),
        AttrText::Code {
            name,
            max_stack,
            max_locals,
            code,
            table,
            attributes,
        } => {
            let code = code.as_slice();
            let table = table.as_slice();
            let attributes = attributes.as_slice();
            let content = code_content(alloc, *max_stack, *max_locals, code, table, attributes)?;
            put_attribute(out, *name, content.as_slice())
        }
    }
}

fn put_attrs(alloc: Global, out: &mut Seq<u8>, attrs: &[AttrText]) -> Result<(), AllocError>
    requires { AllByRecursion HasAttrText attrs.now }
    ensures { OnOk result (out.new ≡ out.old ++ flat_map attr_text attrs.now) }
{
    for attr in attrs {
        put_attr(alloc, out, attr)?;
    }
    Ok(())
}

fn put_member(alloc: Global, out: &mut Seq<u8>, m: &MemberText) -> Result<(), AllocError>
    requires { HasMemberText m.now }
    ensures { OnOk result (out.new ≡ out.old ++ member_text m.now) }
{
    put_u2(out, m.flags)?;
    put_u2(out, m.name)?;
    put_u2(out, m.desc)?;
    put_counted_attrs(alloc, out, m.attributes.as_slice())
}

fn put_members(alloc: Global, out: &mut Seq<u8>, members: &[MemberText]) -> Result<(), AllocError>
    requires { AllByRecursion HasMemberText members.now }
    ensures { OnOk result (out.new ≡ out.old ++ flat_map member_text members.now) }
{
    for m in members {
        put_member(alloc, out, m)?;
    }
    Ok(())
}

fn put_indexes(out: &mut Seq<u8>, indexes: &[u16]) -> Result<(), AllocError>
    ensures { OnOk result (out.new ≡ out.old ++ flat_map u2 indexes.now) }
{
    for i in indexes {
        put_u2(out, *i)?;
    }
    Ok(())
}

fn put_front(out: &mut Seq<u8>, class: &ClassText) -> Result<(), AllocError>
    requires { HasClassText class.now }
    ensures { OnOk result (out.new ≡ out.old ++ front_text class.now) }
{
    put_u4(out, MAGIC)?;
    put_u2(out, class.minor)?;
    put_u2(out, class.major)?;
    write_pool(out, class.pool.as_slice())?;
    put_u2(out, class.flags)?;
    put_u2(out, class.this_index)?;
    put_u2(out, class.super_index)
}

fn put_counted_attrs(alloc: Global, out: &mut Seq<u8>, attrs: &[AttrText]) -> Result<(), AllocError>
    requires count { length attrs.now < 2 ^ 16 }
    requires each { AllByRecursion HasAttrText attrs.now }
    ensures { OnOk result (out.new ≡ out.old ++ counted attr_text attrs.now) }
{
    put_count(out, attrs.len())?;
    put_attrs(alloc, out, attrs)
}

fn put_counted_members(
    alloc: Global,
    out: &mut Seq<u8>,
    members: &[MemberText],
) -> Result<(), AllocError>
    requires count { length members.now < 2 ^ 16 }
    requires each { AllByRecursion HasMemberText members.now }
    ensures { OnOk result (out.new ≡ out.old ++ counted member_text members.now) }
{
    put_count(out, members.len())?;
    put_members(alloc, out, members)
}

fn put_counted_indexes(out: &mut Seq<u8>, indexes: &[u16]) -> Result<(), AllocError>
    requires { length indexes.now < 2 ^ 16 }
    ensures { OnOk result (out.new ≡ out.old ++ counted u2 indexes.now) }
{
    put_count(out, indexes.len())?;
    put_indexes(out, indexes)
}

fn put_lists(alloc: Global, out: &mut Seq<u8>, class: &ClassText) -> Result<(), AllocError>
    requires { HasClassText class.now }
    ensures { OnOk result (out.new ≡ out.old ++ lists_text class.now) }
{
    put_counted_indexes(out, class.interfaces.as_slice())?;
    put_counted_members(alloc, out, class.fields.as_slice())?;
    put_counted_members(alloc, out, class.methods.as_slice())?;
    put_counted_attrs(alloc, out, class.attributes.as_slice())
}

fn put_class(alloc: Global, out: &mut Seq<u8>, class: &ClassText) -> Result<(), AllocError>
    requires { HasClassText class.now }
    ensures { OnOk result (out.new ≡ (out.old ++ front_text class.now) ++ lists_text class.now) }
{
    put_front(out, class)?;
    put_lists(alloc, out, class)
}

/// The bytes of a class file, by its text alone: what the text's indexes name plays no part, so a class that breaks a
/// rule has its bytes too. Of a class that keeps the rules they spell the class, where its major version is one that is read.
///
/// Lists fit their counts and contents their lengths. [`class_has_text`] says that a class that keeps the rules does so.
///
/// # Errors
///
/// Want of memory.
pub fn write_class(alloc: Global, class: &ClassText) -> Result<Vec<u8>, AllocError>
    requires { HasClassText class.now }
    ensures { IfOk result (λ v. v.items ≡ class_bytes class.now) }
{
    let mut out = Seq::new(alloc);
    put_class(alloc, &mut out, class)?;
    Ok(out.into_vec())
}

/// A class that keeps the rules has a text: what [`write_class`] asks.
pub fn class_has_text()
    ensures { (text : ClassText) → WellFormed text → HasClassText text }
{}

/// What [`write_class`] writes spells the class that the text says, where its major version is one that is read.
pub fn written_is_spelled()
    ensures { (text : ClassText) → WellFormed text → is_read_major text.major ≡ true → Spells (class_bytes text) (content_of text) }
{}
