//! What comes in the place of a form's row: a split, a throw, or no child.
ghost use Rattle.std.specs.Prelude.{◌≡◌, IfOk};
ghost use Rattle.std.specs.Option.{option_map};
ghost use Rattle.abs_cells.specs.Cells.{cell_at};
ghost use Rattle.abs_turns.specs.Needs.{known_partner, split_below};
ghost use Rattle.abs_turns.specs.Stops.{null_stop, receiver_stop, access_stop};
ghost use Rattle.abs_turns.specs.PlansSeen.{plan_seen};

use crate::abs_rows::rows::{no_child, one_step};
use abs_cells::{Id, Pairs};
use abs_turns::class_world::built_ins::NULL_POINTER_EXCEPTION;
use abs_turns::{Plan, Spot, throws};
use jvm_values::PlaceType;
use std::alloc::{AllocError, Global};

/// Null throws NullPointerException.
pub fn null_stop<P: Pairs>(
    alloc: Global,
    spot: &Spot<'_, '_, P>,
    x: Id,
) -> Result<Option<Plan>, AllocError>
    ensures { IfOk result (λ stop. option_map plan_seen stop ≡ null_stop spot.now x) }
{
    if !spot.is_null(x) {
        return Ok(None);
    }
    let turn = throws(alloc, spot, NULL_POINTER_EXCEPTION)?;
    Ok(Some(one_step(alloc, turn)?))
}

/// An id that may be null is split, and null throws NullPointerException.
pub fn receiver_stop<P: Pairs>(
    alloc: Global,
    spot: &Spot<'_, '_, P>,
    x: Id,
) -> Result<Option<Plan>, AllocError>
    ensures { IfOk result (λ stop. option_map plan_seen stop ≡ receiver_stop spot.now x) }
{
    if spot.may_be_null(x) {
        return Ok(Some(Plan::ByNull(x)));
    }
    null_stop(alloc, spot, x)
}

/// An object whose class isn't known is split, below the type of its place.
pub fn split_below<P: Pairs>(alloc: Global, spot: &Spot<'_, '_, P>, x: Id, place: PlaceType) -> Plan
    ensures { plan_seen result ≡ split_below spot.now.state x place }
{
    let PlaceType::Ref(wanted) = place else {
        return no_child(alloc);
    };
    match spot.known_partner(x) {
        Some(other) => Plan::ByEqual(x, other),
        None => Plan::ByClass(x, wanted),
    }
}

/// The receiver of an access, under so many entries of the stack: it is split where it may be null, or where its class isn't
/// known, and null throws NullPointerException.
pub fn access_stop<P: Pairs>(
    alloc: Global,
    spot: &Spot<'_, '_, P>,
    depth: usize,
    x: Id,
) -> Result<Option<Plan>, AllocError>
    ensures { IfOk result (λ stop. option_map plan_seen stop ≡ access_stop spot.now depth x) }
{
    if spot.may_be_null(x) {
        return Ok(Some(Plan::ByNull(x)));
    }
    if spot.is_unknown(x) {
        return Ok(Some(split_below(alloc, spot, x, spot.place_under(depth))));
    }
    null_stop(alloc, spot, x)
}
