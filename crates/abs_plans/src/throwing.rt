//! A state whose running frame looks for a handler.
ghost use Rattle.std.specs.Prelude.{◌≡◌, ◌<◌, ◌∷◌, List, length, filter, reverse, slice_index_or, IfOk, Some, None};
ghost use Rattle.class_program.specs.declared.program.CatchRange.{CatchRange};
ghost use Rattle.abs_turns.specs.code_verify.Flows.{covers};
ghost use Rattle.abs_turns.specs.Table.{types_here};
ghost use Rattle.abs_turns.specs.Throwing.{takes_type, takes, is_below_bound, may_take, handled, caught_plan, throwing_plan};
ghost use Rattle.abs_turns.specs.Stops.{taker_of, may_of};
ghost use Rattle.abs_turns.specs.PlansSeen.{plan_seen};

use crate::abs_rows::{no_child, one_step, split_below};
use crate::casts::bound_of;
use crate::testing::{Passing, passing_id};
use abs_cells::{AbsFrame, Id, Pairs, copied_frames};
use abs_turns::class_world::built_ins::THROWABLE;
use abs_turns::{Plan, Spot, moves};
use class_program::CatchRange;
use jvm_values::{PlaceType, Ty, Types, class_type};
use list_views::{Seq, Stack};
use std::alloc::{AllocError, Global};

/// Whether a range has a place.
fn covers(place: u16, range: CatchRange) -> bool
    ensures { result ≡ covers place range }
{
    range.start <= place && place < range.end
}

/// Whether a range takes an object of a type.
fn takes_type<P: Pairs>(spot: &Spot<'_, '_, P>, t: Option<Ty>, range: CatchRange) -> bool
    ensures { result ≡ takes_type (types_here spot.now) t range }
{
    match (range.catch, t) {
        (None, _) => true,
        (Some(_), None) => false,
        (Some(class), Some(t)) => spot.program().world.sub(t, class_type(class)),
    }
}

/// Whether a range takes the object of an id.
fn takes<P: Pairs>(spot: &Spot<'_, '_, P>, x: Id, range: CatchRange) -> bool
    ensures { result ≡ takes (types_here spot.now) spot.now.state x range }
{
    takes_type(spot, bound_of(spot, x), range)
}

/// Whether a range's class is below a type.
fn is_below_bound<P: Pairs>(spot: &Spot<'_, '_, P>, t: Option<Ty>, range: CatchRange) -> bool
    ensures { result ≡ is_below_bound (types_here spot.now) t range }
{
    match (range.catch, t) {
        (Some(class), Some(t)) => spot.program().world.sub(class_type(class), t),
        _ => false,
    }
}

/// Whether a range may take the object of an id, whose class isn't known.
fn may_take<P: Pairs>(spot: &Spot<'_, '_, P>, x: Id, range: CatchRange) -> bool
    ensures { result ≡ may_take (types_here spot.now) spot.now.state x range }
{
    spot.is_unknown(x) && !takes(spot, x, range) && is_below_bound(spot, bound_of(spot, x), range)
}

/// The first range that takes an object, and whether one before it may.
#[derive(Clone, Copy)]
pub(crate) struct Taking {
    /// Whether a range before it may take the object.
    pub(crate) may: bool,
    /// The first one that takes it.
    pub(crate) taker: Option<CatchRange>,
}

/// The first range that takes an object, and whether one before it may, where one more range comes first.
fn with_range<P: Pairs>(spot: &Spot<'_, '_, P>, x: Id, range: CatchRange, rest: Taking) -> Taking
    ensures may { (ranges : List CatchRange) → rest.may ≡ may_of (types_here spot.now) spot.now.state x (covers spot.now.frame.pc)
        ranges → result.may ≡ may_of (types_here spot.now) spot.now.state x (covers spot.now.frame.pc) (range ∷ ranges) }
    ensures taker { (ranges : List CatchRange)
        → rest.taker ≡ taker_of (types_here spot.now) spot.now.state x (covers spot.now.frame.pc) ranges
        → result.taker ≡ taker_of (types_here spot.now) spot.now.state x (covers spot.now.frame.pc) (range ∷ ranges) }
{
    if !covers(spot.place(), range) {
        return rest;
    }
    if takes(spot, x, range) {
        return Taking {
            may: false,
            taker: Some(range),
        };
    }
    Taking {
        may: may_take(spot, x, range) || rest.may,
        taker: rest.taker,
    }
}

/// The range at a place of a table.
fn range_at(table: &[CatchRange], n: usize) -> CatchRange
    requires { n < length table.now }
    ensures { result ≡ slice_index_or table.now n result }
{
    table[n]
}

/// The first range with the place that takes an object, and whether one before it may.
fn first_taker<P: Pairs>(spot: &Spot<'_, '_, P>, x: Id, table: &[CatchRange]) -> Taking
    ensures may { result.may ≡ may_of (types_here spot.now) spot.now.state x (covers spot.now.frame.pc) table.now }
    ensures taker { result.taker ≡ taker_of (types_here spot.now) spot.now.state x (covers spot.now.frame.pc) table.now }
{
    let mut found = Taking {
        may: false,
        taker: None,
    };
    let mut n = table.len();
    while n > 0 {
        n -= 1;
        found = with_range(spot, x, range_at(table, n), found);
    }
    found
}

/// A frame at a place with these ids on its stack.
fn frame_at(
    alloc: Global,
    frame: &AbsFrame,
    place: u16,
    stack: Seq<Id>,
) -> Result<AbsFrame, AllocError>
    ensures { IfOk result (λ made. made ≡ record frame.now { pc = place; stack = reverse stack }) }
{
    let locals = Seq::from_slice(alloc, frame.locals())?;
    Ok(AbsFrame::new(frame.method(), place, locals, stack))
}

/// A handler begins with the object alone on the stack.
fn handler_begins<P: Pairs>(
    alloc: Global,
    spot: &Spot<'_, '_, P>,
    x: Id,
    range: CatchRange,
) -> Result<Plan, AllocError>
    ensures { IfOk result (λ plan. plan_seen plan ≡ handled x spot.now.frame spot.now.below (Some range)) }
{
    let mut stack = Stack::new(alloc);
    stack.push(x)?;
    let frames = spot.with_stack(alloc, range.handler, &stack)?;
    one_step(alloc, moves(alloc, frames))
}

/// The running frame goes, and its caller looks for a handler; with no caller the run ends.
fn frame_goes<P: Pairs>(alloc: Global, spot: &Spot<'_, '_, P>, x: Id) -> Result<Plan, AllocError>
    ensures { IfOk result (λ plan. plan_seen plan ≡ handled x spot.now.frame spot.now.below None) }
{
    let Some((caller, below)) = spot.caller() else {
        return Ok(Plan::Ends);
    };
    let mut frames = copied_frames(alloc, below)?;
    frames.push(frame_at(alloc, caller, caller.pc(), Seq::new(alloc))?)?;
    let mut turn = moves(alloc, frames);
    turn.throwing = Some(x);
    one_step(alloc, turn)
}

/// What becomes of a thrown object that can be a Throwable.
fn caught<P: Pairs>(
    alloc: Global,
    spot: &Spot<'_, '_, P>,
    x: Id,
    table: &[CatchRange],
) -> Result<Plan, AllocError>
    ensures { IfOk result (λ plan. plan_seen plan ≡ caught_plan (types_here spot.now) spot.now.state x spot.now.frame spot.now.below
        (filter (covers spot.now.frame.pc) table.now)) }
{
    let Taking { may, taker } = first_taker(spot, x, table);
    if spot.is_unknown(x) && (may || taker.is_none()) {
        let place = PlaceType::Ref(class_type(THROWABLE));
        return Ok(split_below(alloc, spot, x, place));
    }
    match taker {
        Some(range) => handler_begins(alloc, spot, x, range),
        None => frame_goes(alloc, spot, x),
    }
}

/// What becomes of a state that looks for a handler of an object.
pub fn thrown<P: Pairs>(
    alloc: Global,
    spot: &Spot<'_, '_, P>,
    x: Id,
    table: &[CatchRange],
) -> Result<Plan, AllocError>
    ensures { IfOk result (λ plan. plan_seen plan ≡ throwing_plan (types_here spot.now) spot.now.state x spot.now.frame
        spot.now.below table.now) }
{
    let place = PlaceType::Ref(class_type(THROWABLE));
    match passing_id(spot, place, x) {
        Passing::Passes => caught(alloc, spot, x, table),
        Passing::Fails | Passing::Splits => Ok(no_child(alloc)),
    }
}
