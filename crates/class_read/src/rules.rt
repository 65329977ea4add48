//! The rules on indexes, attributes and members of a class file's text, as tests.

ghost use Rattle.std.specs.Prelude.{◌≡◌, ◌≢◌, ◌↔◌, ◌<◌, ◌+◌, ◌*◌, ◌^◌, ◌⊎◌, ℕ, length, IsTrue, All, if◌then◌else◌};
ghost use Rattle.std.specs.List.{flat_map, AllByRecursion};
ghost use Rattle.class_read.specs.Text.{attribute_text, code_text};
ghost use Rattle.class_read.specs.Writing.{HasAttributeText};
ghost use Rattle.class_base.specs.MemberKinds.{IsDescriptor};
ghost use Rattle.class_read.specs.Rules.{text_of, IsText, IsClass, code_name, IsAttribute, IsHandler, IsCode, IsMethodAttribute};
ghost use Rattle.class_read.specs.Rules.{IsOtherAttribute, is_code_attribute, codes_in, has_code, IsMember, IsField, IsMethod};

use crate::member::has_code;
use crate::method::is_code_name;
use crate::text::{AttrText, MemberText};
use class_base::list_views::Seq;
use class_base::{Handler, MemberKind, is_class_name, is_descriptor};
use class_pool::Pool;

/// The text of the Utf8 entry `i`, or no bytes where there is none.
pub(crate) fn text<'a>(pool: &Pool<'a>, i: u16) -> &'a [u8]
    ensures { result.now ≡ text_of pool.now i }
{
    match pool.utf8(i) {
        Some(text) => text,
        None => &[],
    }
}

fn is_text(pool: &Pool<'_>, i: u16) -> bool
    ensures { IsTrue result ↔ IsText pool.now i }
{
    pool.utf8(i).is_some()
}

/// Whether `i` is the index of a Class entry whose name is a class name.
pub(crate) fn is_class(pool: &Pool<'_>, i: u16) -> bool
    ensures { IsTrue result ↔ IsClass pool.now i }
{
    match pool.class_name(i) {
        Some(name) => is_class_name(name),
        None => false,
    }
}

pub(crate) fn are_classes(pool: &Pool<'_>, indexes: &[u16]) -> bool
    ensures { IsTrue result ↔ All (IsClass pool.now) indexes.now }
{
    indexes.iter().all(|i| is_class(pool, *i))
}

// ---- attributes

fn is_attribute(pool: &Pool<'_>, name: u16, content: &[u8]) -> bool
    ensures { IsTrue result ↔ IsAttribute pool.now (name, content.now) }
{
    is_text(pool, name) && content.len() <= 0xffff_ffff
}

fn are_attributes(pool: &Pool<'_>, attributes: &[(u16, Seq<u8>)]) -> bool
    ensures { IsTrue result ↔ All (IsAttribute pool.now) attributes.now }
{
    attributes
        .iter()
        .all(|a| is_attribute(pool, a.0, a.1.as_slice()))
}

fn is_catch(pool: &Pool<'_>, catch: u16) -> bool
    ensures { IsTrue result ↔ ((catch ≡ 0) ⊎ IsClass pool.now catch) }
{
    catch == 0 || is_class(pool, catch)
}

fn is_handler(pool: &Pool<'_>, handler: &Handler) -> bool
    ensures { IsTrue result ↔ IsHandler pool.now handler.now }
{
    let Handler {
        start: _start,
        end: _end,
        handler: _handler,
        catch,
    } = *handler;
    is_catch(pool, catch)
}

fn are_handlers(pool: &Pool<'_>, table: &[Handler]) -> bool
    ensures { IsTrue result ↔ All (IsHandler pool.now) table.now }
{
    table.iter().all(|handler| is_handler(pool, handler))
}

/// The length of the text of attributes that each have one.
fn attributes_size(attributes: &[(u16, Seq<u8>)]) -> usize
    requires count { length attributes.now < 2 ^ 16 }
    requires each { AllByRecursion HasAttributeText attributes.now }
    ensures size { result ≡ length (flat_map attribute_text attributes.now) }
    ensures small { result < 2 ^ 50 }
{
    let mut size = 0;
    for a in attributes {
        size += 6 + a.1.len();
    }
    size
}

/// Whether the length of a `Code` attribute's content fits its field.
fn content_fits(code: &[u8], table: &[Handler], attributes: &[(u16, Seq<u8>)]) -> bool
    requires code_fits { length code.now < 2 ^ 16 }
    requires table_fits { length table.now < 2 ^ 16 }
    requires attributes_fit { length attributes.now < 2 ^ 16 }
    requires each { AllByRecursion HasAttributeText attributes.now }
    ensures { (max_stack max_locals : ℕ)
        → IsTrue result ↔ (length (code_text max_stack max_locals code.now table.now attributes.now) < 2 ^ 32) }
{
    12 + code.len() + 8 * table.len() + attributes_size(attributes) <= 0xffff_ffff
}

fn names_code(pool: &Pool<'_>, name: u16) -> bool
    ensures { IsTrue result ↔ (IsText pool.now name × (text_of pool.now name ≡ code_name)) }
{
    match pool.utf8(name) {
        Some(text) => is_code_name(text),
        None => false,
    }
}

fn counts_fit(code: &[u8], table: &[Handler], attributes: &[(u16, Seq<u8>)]) -> bool
    ensures { IsTrue result ↔ ((0 < length code.now) × (length code.now < 2 ^ 16) × (length table.now < 2 ^ 16)
        × (length attributes.now < 2 ^ 16)) }
{
    0 < code.len() && code.len() <= 0xffff && table.len() <= 0xffff && attributes.len() <= 0xffff
}

fn is_code(
    pool: &Pool<'_>,
    name: u16,
    max_stack: u16,
    max_locals: u16,
    code: &[u8],
    table: &[Handler],
    attributes: &[(u16, Seq<u8>)],
) -> bool
    ensures { IsTrue result ↔ IsCode pool.now name max_stack max_locals code.now table.now attributes.now }
{
    if !names_code(pool, name) {
        return false;
    }
    if !counts_fit(code, table, attributes) {
        return false;
    }
    if !are_handlers(pool, table) {
        return false;
    }
    if !are_attributes(pool, attributes) {
        return false;
    }
    content_fits(code, table, attributes)
}

fn is_skipped(pool: &Pool<'_>, name: u16, content: &[u8]) -> bool
    ensures { IsTrue result ↔ (IsAttribute pool.now (name, content.now) × (text_of pool.now name ≢ code_name)) }
{
    is_attribute(pool, name, content) && !is_code_name(text(pool, name))
}

fn is_method_attribute(pool: &Pool<'_>, attribute: &AttrText) -> bool
    ensures { IsTrue result ↔ IsMethodAttribute pool.now attribute.now }
{
    match attribute {
        AttrText::Skipped { name, content } => is_skipped(pool, *name, content.as_slice()),
        AttrText::Code {
            name,
            max_stack,
            max_locals,
            code,
            table,
            attributes,
        } => is_code(
            pool,
            *name,
            *max_stack,
            *max_locals,
            code.as_slice(),
            table.as_slice(),
            attributes.as_slice(),
        ),
    }
}

fn are_method_attributes(pool: &Pool<'_>, attributes: &[AttrText]) -> bool
    ensures { IsTrue result ↔ All (IsMethodAttribute pool.now) attributes.now }
{
    attributes.iter().all(|a| is_method_attribute(pool, a))
}

fn is_other_attribute(pool: &Pool<'_>, attribute: &AttrText) -> bool
    ensures { IsTrue result ↔ IsOtherAttribute pool.now attribute.now }
{
    match attribute {
        AttrText::Skipped { name, content } => is_attribute(pool, *name, content.as_slice()),
        AttrText::Code { .. } => false,
    }
}

/// Whether these are attributes of a field or of a class.
pub(crate) fn are_other_attributes(pool: &Pool<'_>, attributes: &[AttrText]) -> bool
    ensures { IsTrue result ↔ All (IsOtherAttribute pool.now) attributes.now }
{
    attributes.iter().all(|a| is_other_attribute(pool, a))
}

fn is_code_attribute(attribute: &AttrText) -> bool
    ensures { result ≡ is_code_attribute attribute.now }
{
    matches!(attribute, AttrText::Code { .. })
}

/// How many codes there are among the attributes.
fn codes_in(attributes: &[AttrText]) -> usize
    ensures { result ≡ length (codes_in attributes.now) }
{
    let mut count = 0;
    for a in attributes {
        if is_code_attribute(a) {
            count += 1;
        }
    }
    count
}

fn has_its_code(flags: u16, attributes: &[AttrText]) -> bool
    ensures { IsTrue result ↔ (length (codes_in attributes.now) ≡ (if has_code flags then 1 else 0)) }
{
    let wanted = if has_code(flags) { 1 } else { 0 };
    codes_in(attributes) == wanted
}

// ---- members

fn has_descriptor(pool: &Pool<'_>, kind: MemberKind, flags: u16, desc: u16) -> bool
    ensures { IsTrue result ↔ (IsText pool.now desc × IsDescriptor kind flags (text_of pool.now desc)) }
{
    is_text(pool, desc) && is_descriptor(kind, flags, text(pool, desc))
}

fn is_member(pool: &Pool<'_>, kind: MemberKind, m: &MemberText) -> bool
    ensures { IsTrue result ↔ IsMember pool.now kind m.now }
{
    is_text(pool, m.name)
        && has_descriptor(pool, kind, m.flags, m.desc)
        && m.attributes.len() <= 0xffff
}

fn is_field(pool: &Pool<'_>, m: &MemberText) -> bool
    ensures { IsTrue result ↔ IsField pool.now m.now }
{
    is_member(pool, MemberKind::Field, m) && are_other_attributes(pool, m.attributes.as_slice())
}

pub(crate) fn are_fields(pool: &Pool<'_>, fields: &[MemberText]) -> bool
    ensures { IsTrue result ↔ All (IsField pool.now) fields.now }
{
    fields.iter().all(|m| is_field(pool, m))
}

fn is_method(pool: &Pool<'_>, m: &MemberText) -> bool
    ensures { IsTrue result ↔ IsMethod pool.now m.now }
{
    is_member(pool, MemberKind::Method, m)
        && are_method_attributes(pool, m.attributes.as_slice())
        && has_its_code(m.flags, m.attributes.as_slice())
}

pub(crate) fn are_methods(pool: &Pool<'_>, methods: &[MemberText]) -> bool
    ensures { IsTrue result ↔ All (IsMethod pool.now) methods.now }
{
    methods.iter().all(|m| is_method(pool, m))
}
