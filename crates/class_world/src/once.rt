//! Lists of numbers without repeats.
ghost use Rattle.std.specs.Prelude.{◌≡◌, IfOk, OnOk};
ghost use Rattle.class_world.specs.inner.Once.{with_number, once};

use code_forms::list_views::Seq;
use indexmap::IndexSet;
use std::alloc::{AllocError, Global};

/// Puts a number at the end of a list and into the set of its numbers, unless it is there already.
fn put(seen: &mut IndexSet<u32>, numbers: &mut Seq<u32>, number: u32) -> Result<(), AllocError>
    requires { seen.old.keys ≡ numbers.old }
    ensures same { OnOk result (seen.new.keys ≡ numbers.new) }
    ensures more { OnOk result (numbers.new ≡ with_number numbers.old number) }
{
    let (_, added) = seen.insert_full(number)?;
    if added {
        numbers.push(number)?;
    }
    Ok(())
}

/// The numbers of a list, each where it comes first.
pub(crate) fn once(alloc: Global, numbers: &[u32]) -> Result<Seq<u32>, AllocError>
    ensures { IfOk result (λ found. found ≡ once numbers.now) }
{
    let mut seen = IndexSet::new(alloc);
    let mut found = Seq::new(alloc);
    for number in numbers {
        put(&mut seen, &mut found, *number)?;
    }
    Ok(found)
}
