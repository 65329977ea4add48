//! Numbers, and entries of lists that are numbers.
ghost use Rattle.std.specs.Prelude.{◌≡◌, ◌<◌};
ghost use Rattle.json_view.specs.Located.{located};
ghost use Rattle.json_view.specs.Reading.{item_count};
ghost use Rattle.input_text.specs.Answers.{Says};
ghost use Rattle.bound_text.specs.Texts.{nth, number_to, a_number, an_id, a_multiple, a_constant};

use json_view::{JsonFault, View};
use std::alloc::Global;

/// The number of a step, cut, rule or row.
#[tactic(auto, unfolding(crate::specs::Texts::a_number, crate::specs::Texts::number_to))]
fn number(alloc: Global, view: &View<'_, '_>) -> Result<u32, JsonFault>
    ensures { Says result (a_number (located view.now)) }
{
    let number = view.int(alloc, 0, 4_294_967_295)?;
    Ok(number as u32)
}

/// An id.
#[tactic(auto, unfolding(crate::specs::Texts::an_id, crate::specs::Texts::number_to))]
fn id(alloc: Global, view: &View<'_, '_>) -> Result<u16, JsonFault>
    ensures { Says result (an_id (located view.now)) }
{
    let number = view.int(alloc, 0, 2047)?;
    Ok(number as u16)
}

/// A multiple or a multiplier.
#[tactic(auto, unfolding(crate::specs::Texts::a_multiple))]
fn multiple(alloc: Global, view: &View<'_, '_>) -> Result<i64, JsonFault>
    ensures { Says result (a_multiple (located view.now)) }
{
    let number = view.int(alloc, -2_147_483_648, 2_147_483_648)?;
    Ok(number)
}

/// The constant of a form.
#[tactic(auto, unfolding(crate::specs::Texts::a_constant))]
fn constant(alloc: Global, view: &View<'_, '_>) -> Result<i64, JsonFault>
    ensures { Says result (a_constant (located view.now)) }
{
    let number = view.int(alloc, -1_099_511_627_776, 1_099_511_627_776)?;
    Ok(number)
}

/// Entry `n` of a list as the number of a step, cut, rule or row.
#[tactic(auto, unfolding(crate::specs::Texts::nth))]
pub(crate) fn nth_number(alloc: Global, view: &View<'_, '_>, n: usize) -> Result<u32, JsonFault>
    requires { n < item_count (located view.now).value }
    ensures { Says result (nth n a_number (located view.now)) }
{
    number(alloc, &view.item(n))
}

/// Entry `n` of a list as an id.
#[tactic(auto, unfolding(crate::specs::Texts::nth))]
pub(crate) fn nth_id(alloc: Global, view: &View<'_, '_>, n: usize) -> Result<u16, JsonFault>
    requires { n < item_count (located view.now).value }
    ensures { Says result (nth n an_id (located view.now)) }
{
    id(alloc, &view.item(n))
}

/// Entry `n` of a list as a multiple or a multiplier.
#[tactic(auto, unfolding(crate::specs::Texts::nth))]
pub(crate) fn nth_multiple(alloc: Global, view: &View<'_, '_>, n: usize) -> Result<i64, JsonFault>
    requires { n < item_count (located view.now).value }
    ensures { Says result (nth n a_multiple (located view.now)) }
{
    multiple(alloc, &view.item(n))
}

/// Entry `n` of a list as the constant of a form.
#[tactic(auto, unfolding(crate::specs::Texts::nth))]
pub(crate) fn nth_constant(alloc: Global, view: &View<'_, '_>, n: usize) -> Result<i64, JsonFault>
    requires { n < item_count (located view.now).value }
    ensures { Says result (nth n a_constant (located view.now)) }
{
    constant(alloc, &view.item(n))
}
