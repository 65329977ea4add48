//! Lists of numbers that rise.
ghost use Rattle.std.specs.Prelude.{◌≡◌, ◌++◌, IfOk, OnOk};
ghost use Rattle.throw_report.specs.inner.Words.{above, below, with_number};

use list_views::Seq;
use std::alloc::{AllocError, Global};

/// Adds the numbers of a list that are below one.
fn push_below(more: &mut Seq<u32>, list: &[u32], number: u32) -> Result<(), AllocError>
    ensures { OnOk result (more.new ≡ more.old ++ below number list.now) }
{
    for n in list {
        if *n < number {
            more.push(*n)?;
        }
    }
    Ok(())
}

/// Adds the numbers of a list that are above one.
fn push_above(more: &mut Seq<u32>, list: &[u32], number: u32) -> Result<(), AllocError>
    ensures { OnOk result (more.new ≡ more.old ++ above number list.now) }
{
    for n in list {
        if number < *n {
            more.push(*n)?;
        }
    }
    Ok(())
}

/// A list that rises with a number among its own.
pub(crate) fn with_number(alloc: Global, list: &[u32], number: u32) -> Result<Seq<u32>, AllocError>
    ensures { IfOk result (λ more. more ≡ with_number number list.now) }
{
    let mut more = Seq::new(alloc);
    push_below(&mut more, list, number)?;
    more.push(number)?;
    push_above(&mut more, list, number)?;
    Ok(more)
}
