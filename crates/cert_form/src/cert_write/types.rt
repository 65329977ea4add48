//! Words of types and shapes.
ghost use Rattle.std.specs.Prelude.{◌≡◌, ◌∷◌, ◌++◌, [], replicate, IfOk, IsTrue, string_bytes};
ghost use Rattle.std.specs.List.{list_all};
ghost use Rattle.class_base.specs.ClassNames.{is_class_name};
ghost use Rattle.cert_form.specs.cert_write.Data.{kind_letter, class_name, named_base, base_text, type_word, shape_word};

use crate::ClassNames;
use jvm_values::{Base, Kind, Shape, Ty};
use std::alloc::{AllocError, Global};

/// The names of classes, of which each is a class name.
#[derive(Drop)]
pub(crate) struct Words<'a> {
    /// The names.
    pub(crate) names: &'a ClassNames,
    ghost named: { IsTrue (list_all is_class_name names.now) },
}

/// The letter of a kind in descriptors (JVM specification, SE 8, section 4.3.2).
fn kind_letter(kind: Kind) -> &'static str
    ensures { result.now ≡ kind_letter kind ∷ [] }
{
    match kind {
        Kind::Boolean => "Z",
        Kind::Char => "C",
        Kind::Byte => "B",
        Kind::Short => "S",
        Kind::Int => "I",
    }
}

/// The word of a shape.
pub(crate) fn shape_word(shape: Shape) -> &'static str
    ensures { result.now ≡ shape_word shape }
{
    match shape {
        Shape::Tree => "tree",
        Shape::Dag => "dag",
        Shape::Any => "any",
    }
}

/// A class name as text.
fn as_text(name: &[u8]) -> &str
    requires { IsTrue (is_class_name name.now) }
    ensures { result.now ≡ name.now }
{
    match str::from_utf8(name) {
        Ok(text) => text,
        Err(_) => "",
    }
}

/// The name of a class, and nothing past the names.
fn class_name<'n>(words: &Words<'n>, class: u32) -> &'n str
    ensures { result.now ≡ class_name words.now.names.now class }
{
    match words.names.name_of(class) {
        Some(name) => as_text(name),
        None => "",
    }
}

/// The descriptor of an array's innermost items.
fn base_text(alloc: Global, words: &Words<'_>, base: Base) -> Result<String, AllocError>
    ensures { IfOk result (λ text. string_bytes text ≡ base_text words.now.names.now base) }
{
    match base {
        Base::Num(kind) => String::from_str(alloc, kind_letter(kind)),
        Base::Class(class) => format!(in alloc; "L{};", class_name(words, class)),
    }
}

/// The name of a class; a kind's letter for no reference type.
fn named_base(alloc: Global, words: &Words<'_>, base: Base) -> Result<String, AllocError>
    ensures { IfOk result (λ text. string_bytes text ≡ named_base words.now.names.now base) }
{
    match base {
        Base::Num(kind) => String::from_str(alloc, kind_letter(kind)),
        Base::Class(class) => String::from_str(alloc, class_name(words, class)),
    }
}

/// The descriptor of an array.
fn array_text(alloc: Global, words: &Words<'_>, t: Ty) -> Result<String, AllocError>
    ensures { IfOk result (λ text. string_bytes text ≡ replicate t.dims 91 ++ base_text words.now.names.now t.base) }
{
    let mut text = String::new(alloc);
    for _n in 0..t.dims {
        text.push('[')?;
    }
    text.push_str(base_text(alloc, words, t.base)?.as_str())?;
    Ok(text)
}

/// The word of a type.
pub(crate) fn type_word(alloc: Global, words: &Words<'_>, t: Ty) -> Result<String, AllocError>
    ensures { IfOk result (λ text. string_bytes text ≡ type_word words.now.names.now t) }
{
    if t.dims == 0 {
        named_base(alloc, words, t.base)
    } else {
        array_text(alloc, words, t)
    }
}
