//! Lists that have all their items.
ghost use Rattle.std.specs.Prelude.{◌≡◌, IfOk, IsTrue, map, is_some, Some};
ghost use Rattle.std.specs.List.{list_all};

use list_views::Seq;
use std::alloc::{AllocError, Global};

/// The items of a list that has all of them.
pub(crate) fn all_there<T: Drop>(alloc: Global, items: Seq<Option<T>>) -> Result<Seq<T>, AllocError>
    requires { IsTrue (list_all is_some items) }
    ensures { IfOk result (λ there. map Some there ≡ items) }
{
    let mut there = Seq::new(alloc);
    for item in items.into_vec() {
        match item {
            Some(item) => there.push(item)?,
            None => unreachable!(),
        }
    }
    Ok(there)
}
