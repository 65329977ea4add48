//! Readers of single values and fields.
ghost use Rattle.json_view.specs.Located.{located};
ghost use Rattle.json_view.specs.Reading.{text_of};
ghost use Rattle.input_text.specs.Answers.{Says};
ghost use Rattle.input_text.specs.Fields.{field, an_int, a_number, entry_of};

use crate::texts::EntryName;
use json_view::{JsonFault, View};
use list_views::Seq;
use std::alloc::Global;

/// An int.
#[tactic(auto, unfolding(crate::specs::Fields::an_int))]
pub(crate) fn int(alloc: Global, view: &View<'_, '_>) -> Result<i32, JsonFault>
    ensures { Says result (an_int (located view.now)) }
{
    let number = view.int(alloc, -2_147_483_648, 2_147_483_647)?;
    Ok(number as i32)
}

/// The number of an input or an object.
#[tactic(auto, unfolding(crate::specs::Fields::a_number))]
pub(crate) fn number(alloc: Global, view: &View<'_, '_>) -> Result<u32, JsonFault>
    ensures { Says result (a_number (located view.now)) }
{
    let number = view.int(alloc, 0, 4_294_967_295)?;
    Ok(number as u32)
}

/// A text.
pub(crate) fn text(alloc: Global, view: &View<'_, '_>) -> Result<Seq<u8>, JsonFault>
    ensures { Says result (text_of (located view.now)) }
{
    let text = view.text(alloc)?;
    Ok(Seq::from_slice(alloc, text.as_bytes())?)
}

/// The text of a field.
#[tactic(auto, unfolding(crate::specs::Fields::field))]
pub(crate) fn text_field(
    alloc: Global,
    view: &View<'_, '_>,
    name: &str,
) -> Result<Seq<u8>, JsonFault>
    ensures { Says result (field name.now text_of (located view.now)) }
{
    let field = view.field(alloc, name)?;
    text(alloc, &field)
}

/// The method that a text names.
#[tactic(auto, unfolding(crate::specs::Fields::entry_of))]
pub(crate) fn entry(alloc: Global, view: &View<'_, '_>) -> Result<EntryName, JsonFault>
    ensures { Says result (entry_of (located view.now)) }
{
    let class = text_field(alloc, view, "class")?;
    let method = text_field(alloc, view, "method")?;
    let desc = text_field(alloc, view, "desc")?;
    Ok(EntryName {
        class,
        method,
        desc,
    })
}
