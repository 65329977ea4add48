//! Types, shapes and kinds.
ghost use Rattle.std.specs.Prelude.{◌≡◌, ◌<◌, Option, Some, None};
ghost use Rattle.json_view.specs.Located.{located};
ghost use Rattle.json_view.specs.Reading.{item_count};
ghost use Rattle.cert_form.specs.Answers.{Says};
ghost use Rattle.cert_form.specs.Fields.{nth};
ghost use Rattle.cert_form.specs.Types.{class_named, base_of, array_type, type_of_word, type_in, shape_of, kind_of};

use crate::fault::CertFault;
use crate::names::ClassNames;
use crate::numbers::byte;
use crate::values::{out, text, wrong};
use class_base::{Element, FieldType, field_type, is_class_name};
use json_view::View;
use jvm_values::{Base, Kind, Shape, Ty};
use std::alloc::Global;

/// What stands under the dimensions of an array type.
fn base_of(names: &ClassNames, element: &Element<'_>) -> Option<Base>
    ensures { result ≡ base_of names.now element.now }
{
    match element {
        Element::Primitive(letter) => match Kind::of_letter(*letter) {
            Some(kind) => Some(Base::Num(kind)),
            None => None,
        },
        Element::Object(name) => match names.class_named(name.as_slice()) {
            Some(class) => Some(Base::Class(class)),
            None => None,
        },
    }
}

/// An array type; a type without dimensions is none.
#[tactic(auto, unfolding(crate::specs::Types::array_type))]
fn array_type(names: &ClassNames, t: &FieldType<'_>) -> Option<Ty>
    ensures { result ≡ array_type names.now t.now }
{
    if t.dims == 0 {
        return None;
    }
    match base_of(names, &t.element) {
        Some(base) => Some(Ty { dims: t.dims, base }),
        None => None,
    }
}

/// The reference type of a word.
#[tactic(auto, unfolding(crate::specs::Types::type_of_word))]
fn type_of_word(names: &ClassNames, word: &[u8]) -> Option<Ty>
    ensures { result ≡ type_of_word names.now word.now }
{
    if is_class_name(word) {
        return match names.class_named(word) {
            Some(class) => Some(Ty {
                dims: 0,
                base: Base::Class(class),
            }),
            None => None,
        };
    }
    match field_type(word) {
        Some(t) => array_type(names, &t),
        None => None,
    }
}

/// A reference type.
#[tactic(auto, unfolding(crate::specs::Types::type_in))]
fn type_in(alloc: Global, names: &ClassNames, view: &View<'_, '_>) -> Result<Ty, CertFault>
    ensures { Says result (type_in names.now (located view.now)) }
{
    let word = text(alloc, view)?;
    match type_of_word(names, word.as_bytes()) {
        Some(t) => Ok(t),
        None => wrong(alloc, view),
    }
}

/// A shape.
#[tactic(auto, unfolding(crate::specs::Types::shape_of))]
fn shape(alloc: Global, view: &View<'_, '_>) -> Result<Shape, CertFault>
    ensures { Says result (shape_of (located view.now)) }
{
    match text(alloc, view)? {
        "tree" => Ok(Shape::Tree),
        "dag" => Ok(Shape::Dag),
        "any" => Ok(Shape::Any),
        _ => wrong(alloc, view),
    }
}

/// A kind.
#[tactic(auto, unfolding(crate::specs::Types::kind_of))]
fn kind(alloc: Global, view: &View<'_, '_>) -> Result<Kind, CertFault>
    ensures { Says result (kind_of (located view.now)) }
{
    let code = byte(alloc, view)?;
    match Kind::of_code(code) {
        Some(kind) => Ok(kind),
        None => out(alloc, view),
    }
}

/// Entry `n` of a list as a type.
#[tactic(auto, unfolding(crate::specs::Fields::nth))]
pub(crate) fn nth_type(
    alloc: Global,
    names: &ClassNames,
    view: &View<'_, '_>,
    n: usize,
) -> Result<Ty, CertFault>
    requires { n < item_count (located view.now).value }
    ensures { Says result (nth n (type_in names.now) (located view.now)) }
{
    type_in(alloc, names, &view.item(n))
}

/// Entry `n` of a list as a shape.
#[tactic(auto, unfolding(crate::specs::Fields::nth))]
pub(crate) fn nth_shape(alloc: Global, view: &View<'_, '_>, n: usize) -> Result<Shape, CertFault>
    requires { n < item_count (located view.now).value }
    ensures { Says result (nth n shape_of (located view.now)) }
{
    shape(alloc, &view.item(n))
}

/// Entry `n` of a list as a kind.
#[tactic(auto, unfolding(crate::specs::Fields::nth))]
pub(crate) fn nth_kind(alloc: Global, view: &View<'_, '_>, n: usize) -> Result<Kind, CertFault>
    requires { n < item_count (located view.now).value }
    ensures { Says result (nth n kind_of (located view.now)) }
{
    kind(alloc, &view.item(n))
}
