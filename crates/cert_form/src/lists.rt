//! Lists of JSON values.
ghost use Rattle.std.specs.Prelude.{◌≡◌, List, Result, Ok};
ghost use Rattle.json_view.specs.Reading.{items_of, item_count};
ghost use Rattle.json_view.specs.Located.{Located, located};
ghost use Rattle.cert_form.specs.declared.fault.CertFault.{CertFault};
ghost use Rattle.cert_form.specs.Answers.{Says};
ghost use Rattle.cert_form.specs.Fields.{entries_of};

use crate::fault::CertFault;
use crate::values;
use json_view::View;
use list_views::Seq;
use std::alloc::Global;

/// What can be read of an entry of a list, in a context `C`.
pub(crate) trait Said<C>: Drop + Sized {
    ghost reader: { C → List Self → Located → Result Self CertFault };

    /// What the entry says, where these stand in front of it.
    fn read(
        alloc: Global,
        context: &C,
        front: &[Self],
        view: &View<'_, '_>,
    ) -> Result<Self, CertFault>
        ensures { Says result (reader context.now front.now (located view.now)) };
}

/// What the entries of a list of so many say.
fn entries<C, T: Said<C>>(
    alloc: Global,
    context: &C,
    view: &View<'_, '_>,
    count: usize,
) -> Result<Seq<T>, CertFault>
    requires list { items_of (located view.now) ≡ Ok count }
    requires count { count ≡ item_count (located view.now).value }
    ensures { Says result (entries_of (T.reader context.now) (located view.now)) }
{
    let mut front = Seq::new(alloc);
    for n in 0..count {
        match T::read(alloc, context, front.as_slice(), &view.item(n)) {
            Ok(entry) => front.push(entry)?,
            Err(fault) => return Err(fault),
        }
    }
    Ok(front)
}

/// What the entries of a list say.
pub(crate) fn list<C, T: Said<C>>(
    alloc: Global,
    context: &C,
    view: &View<'_, '_>,
) -> Result<Seq<T>, CertFault>
    ensures { Says result (entries_of (T.reader context.now) (located view.now)) }
{
    match values::items(alloc, view) {
        Ok(count) => entries(alloc, context, view, count),
        Err(fault) => Err(fault),
    }
}
