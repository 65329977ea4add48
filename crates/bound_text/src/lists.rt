//! Lists of JSON values.
ghost use Rattle.std.specs.Prelude.{◌≡◌, Result, Ok};
ghost use Rattle.json_view.specs.Reading.{items_of, item_count};
ghost use Rattle.json_view.specs.Located.{Located, located};
ghost use Rattle.json_view.specs.declared.fault.JsonFault.{JsonFault};
ghost use Rattle.input_text.specs.Answers.{Says};
ghost use Rattle.input_text.specs.Fields.{list_of};

use json_view::{JsonFault, View};
use list_views::Seq;
use std::alloc::Global;

/// What can be read of a JSON value.
pub(crate) trait Said: Drop + Sized {
    ghost reader: { Located → Result Self JsonFault };

    /// What the value says.
    fn read(alloc: Global, view: &View<'_, '_>) -> Result<Self, JsonFault>
        ensures { Says result (reader (located view.now)) };
}

/// What the items of a list of so many say.
fn items<T: Said>(alloc: Global, view: &View<'_, '_>, count: usize) -> Result<Seq<T>, JsonFault>
    requires list { items_of (located view.now) ≡ Ok count }
    requires count { count ≡ item_count (located view.now).value }
    ensures { Says result (list_of T.reader (located view.now)) }
{
    let mut items = Seq::new(alloc);
    for n in 0..count {
        match T::read(alloc, &view.item(n)) {
            Ok(item) => items.push(item)?,
            Err(fault) => return Err(fault),
        }
    }
    Ok(items)
}

/// What the items of a list say.
pub(crate) fn list<T: Said>(alloc: Global, view: &View<'_, '_>) -> Result<Seq<T>, JsonFault>
    ensures { Says result (list_of T.reader (located view.now)) }
{
    match view.items(alloc) {
        Ok(count) => items(alloc, view, count),
        Err(fault) => Err(fault),
    }
}
