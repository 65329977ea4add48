//! Objects of states.
ghost use Rattle.std.specs.Prelude.{◌≡◌, codes};
ghost use Rattle.json_view.specs.Located.{located};
ghost use Rattle.input_text.specs.Answers.{Says};
ghost use Rattle.input_text.specs.Fields.{field};
ghost use Rattle.input_text.specs.Objects.{a_byte, instance_names, instance_of, kind_of, nums_of, refs_of, object_of};

use crate::fields::text_field;
use crate::lists::{Said, list_field};
use crate::texts::ObjectText;
use json_view::{JsonFault, View};
use jvm_values::Kind;
use std::alloc::Global;

/// The names of an instance's fields.
fn instance_names() -> &'static str
    ensures { result.now ≡ instance_names }
{
    "class fields"
}

#[tactic(auto, unfolding(crate::specs::Objects::instance_of))]
fn instance(alloc: Global, view: &View<'_, '_>) -> Result<ObjectText, JsonFault>
    ensures { Says result (instance_of (located view.now)) }
{
    view.only(alloc, instance_names())?;
    let class = text_field(alloc, view, "class")?;
    let fields = list_field(alloc, view, "fields")?;
    Ok(ObjectText::Instance { class, fields })
}

/// A number from 0 to 255.
#[tactic(auto, unfolding(crate::specs::Objects::a_byte))]
fn byte(alloc: Global, view: &View<'_, '_>) -> Result<u8, JsonFault>
    ensures { Says result (a_byte (located view.now)) }
{
    let number = view.int(alloc, 0, 255)?;
    Ok(number as u8)
}

/// A kind by its number.
#[tactic(auto, unfolding(crate::specs::Objects::kind_of))]
fn kind(alloc: Global, view: &View<'_, '_>) -> Result<Kind, JsonFault>
    ensures { Says result (kind_of (located view.now)) }
{
    let code = byte(alloc, view)?;
    match Kind::of_code(code) {
        Some(kind) => Ok(kind),
        None => Err(view.out_of_range(alloc)),
    }
}

/// The kind of a field.
#[tactic(auto, unfolding(crate::specs::Fields::field))]
fn kind_field(alloc: Global, view: &View<'_, '_>) -> Result<Kind, JsonFault>
    ensures { Says result (field (codes "nums") kind_of (located view.now)) }
{
    let field = view.field(alloc, "nums")?;
    kind(alloc, &field)
}

#[tactic(auto, unfolding(crate::specs::Objects::nums_of))]
fn nums(alloc: Global, view: &View<'_, '_>) -> Result<ObjectText, JsonFault>
    ensures { Says result (nums_of (located view.now)) }
{
    view.only(alloc, "nums items")?;
    let kind = kind_field(alloc, view)?;
    let items = list_field(alloc, view, "items")?;
    Ok(ObjectText::Nums { kind, items })
}

#[tactic(auto, unfolding(crate::specs::Objects::refs_of))]
fn refs(alloc: Global, view: &View<'_, '_>) -> Result<ObjectText, JsonFault>
    ensures { Says result (refs_of (located view.now)) }
{
    view.only(alloc, "refs items")?;
    let element = text_field(alloc, view, "refs")?;
    let items = list_field(alloc, view, "items")?;
    Ok(ObjectText::Refs { element, items })
}

impl Said for ObjectText {
    ghost use Rattle.input_text.specs.Objects.{object_of};

    ghost reader = { object_of };

    #[tactic(auto, unfolding(crate::specs::Objects::object_of))]
    fn read(alloc: Global, view: &View<'_, '_>) -> Result<ObjectText, JsonFault> {
        if view.has("class") {
            return instance(alloc, view);
        }
        if view.has("nums") {
            return nums(alloc, view);
        }
        refs(alloc, view)
    }
}
