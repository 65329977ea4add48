//! Accesses of arrays at an index.
ghost use Rattle.std.specs.Prelude.{◌≡◌, ◌⊎◌, ◌∷◌, ◌++◌, [], ℕ, map, IfOk, MatchOption};
ghost use Rattle.std.specs.Option.{option_map, option_and_then, option_map_or, option_to_list};
ghost use Rattle.abs_ints.specs.Comparing.{related};
ghost use Rattle.abs_ints.specs.declared.cases.Way.TheVariants.{Taken};
ghost use Rattle.abs_ints.specs.declared.relations.Relation.TheVariants as relations;
ghost use Rattle.abs_turns.specs.Turns.{id, goes_on, with_stack, narrowings, interval_of_id, rows_over, throws_after};
ghost use Rattle.abs_turns.specs.Table.{step_if, cell_here, length_id, items_length_id, items_of, length_plan, of_kind, in_bounds};
ghost use Rattle.abs_turns.specs.Table.{out_of_bounds, access_at, access_of, number_load_plan, number_store_plan, aaload_plan};
ghost use Rattle.abs_turns.specs.Table.{aastore_plan};
ghost use Rattle.jvm_values.specs.Kinds.{least_of, greatest_of};
ghost use Rattle.abs_plans.specs.abs_rows.inner.Accesses.{inside_seen, if_taken, past_the_end, access_act, access_goal, access_turn, may_not_fit};
ghost use Rattle.abs_plans.specs.abs_rows.inner.Accesses.{good_of, length_of};
ghost use Rattle.abs_turns.specs.PlansSeen.{act_seen, goal_seen, rows_seen, turn_seen, plan_seen};

use crate::abs_rows::objects::{natural, throws_below_zero};
use crate::abs_rows::rows::{goes_to, no_child, step_if};
use crate::abs_rows::stops::access_stop;
use abs_cells::lin_core::Interval;
use abs_cells::{Cell, Id, Pairs};
use abs_ints::{IntCase, Way, compare};
use abs_turns::class_world::built_ins::{
    ARRAY_INDEX_OUT_OF_BOUNDS_EXCEPTION, ARRAY_STORE_EXCEPTION,
};
use abs_turns::{
    Act, Goal, Operand, Plan, Rows, RowsOver, Spot, Turn, Write, all_ints, is_taken, narrowings,
    put, throws_after,
};
use jvm_values::{Cond, Kind};
use list_views::{Seq, Stack};
use std::alloc::{AllocError, Global};

/// What an access at an index does within the bounds.
#[derive(Clone, Copy)]
pub(crate) enum Access {
    /// It pushes a number of the array.
    Number,
    /// It takes an int into the array.
    NumberStore,
    /// It pushes an item of the array of references.
    Item,
    /// It takes this reference into the array.
    ItemStore(Id),
}

/// An index within the bounds: what it and the length are narrowed to, and the rows.
#[derive(Drop)]
pub(crate) struct Inside {
    /// The ids whose cells become others.
    pub(crate) narrowed: Seq<(Id, Cell)>,
    /// The rows of the step's link.
    pub(crate) rows: Rows,
}

/// The id of an array's length.
fn length_id<P: Pairs>(spot: &Spot<'_, '_, P>, k: Id) -> Option<Id>
    ensures { result ≡ length_id (cell_here spot.now k) }
{
    match spot.cell(k) {
        Some(Cell::Nums(_, len)) => Some(*len),
        Some(Cell::Refs(_, len, _)) => Some(*len),
        _ => None,
    }
}

/// The id of the length of an array of references.
fn items_length_id<P: Pairs>(spot: &Spot<'_, '_, P>, k: Id) -> Option<Id>
    ensures { result ≡ items_length_id (cell_here spot.now k) }
{
    match spot.cell(k) {
        Some(Cell::Refs(_, len, _)) => Some(*len),
        _ => None,
    }
}

/// The id of the length of an array of references whose item is read at an index, which is another id.
fn items_of<P: Pairs>(spot: &Spot<'_, '_, P>, k: Id, index: Id) -> Option<Id>
    ensures { result ≡ items_of spot.now k index }
{
    if k == index {
        None
    } else {
        items_length_id(spot, k)
    }
}

/// The length of a known array goes on the stack.
fn known_length<P: Pairs>(
    alloc: Global,
    spot: &Spot<'_, '_, P>,
    k: Id,
    mut stack: Stack<Id>,
) -> Result<Plan, AllocError>
    ensures { IfOk result
        (λ plan. plan_seen plan ≡ step_if
        (option_map (λ len. goes_on spot.now spot.now.next (len ∷ stack.0)) (length_id (cell_here spot.now k)))) }
{
    let Some(len) = length_id(spot, k) else {
        return step_if(alloc, None);
    };
    stack.push(len)?;
    goes_to(alloc, spot, spot.next(), &stack)
}

/// The length of the top id's array goes on the stack.
pub fn array_length<P: Pairs>(
    alloc: Global,
    spot: &Spot<'_, '_, P>,
    mut stack: Stack<Id>,
) -> Result<Plan, AllocError>
    ensures { IfOk result (λ plan. plan_seen plan ≡ length_plan spot.now stack.0) }
{
    let Some(k) = stack.pop() else {
        return Ok(no_child(alloc));
    };
    if let Some(stop) = access_stop(alloc, spot, 0, k)? {
        return Ok(stop);
    }
    known_length(alloc, spot, k, stack)
}

/// The case in which one int is below another one, if there is one.
fn case_below(a: Interval, b: Interval) -> Option<IntCase>
    ensures { result ≡ related relations.Below Taken a b }
{
    let mut cases = compare(Cond::Lt, false, a, b);
    first_taken(cases.take_first())
}

/// The case in which one int is at least another one, if there is one.
fn case_from(a: Interval, b: Interval) -> Option<IntCase>
    ensures { result ≡ related relations.AtLeast Taken a b }
{
    let mut cases = compare(Cond::Ge, false, a, b);
    first_taken(cases.take_first())
}

/// A case, if its condition holds there.
fn first_taken(case: Option<IntCase>) -> Option<IntCase>
    ensures { result ≡ option_and_then if_taken case }
{
    let case = case?;
    if is_taken(case.way) { Some(case) } else { None }
}

/// What an index and a length are narrowed to in a case, with its rows.
fn inside_of(alloc: Global, index: Id, len: Id, case: IntCase) -> Result<Option<Inside>, AllocError>
    ensures { IfOk result
        (λ inside. option_map inside_seen inside ≡ option_map (λ narrowed. (narrowed, rows_over (id index) (id len) case.rows))
        (narrowings (id index) case.left (id len) case.right)) }
{
    let left = Operand::Id(index);
    let right = Operand::Id(len);
    let IntCase {
        left: left_ints,
        right: right_ints,
        result: _,
        rows,
        way: _,
    } = case;
    let Some(narrowed) = narrowings(alloc, left, left_ints, right, right_ints)? else {
        return Ok(None);
    };
    let rows = Rows::Over(RowsOver { left, right, rows });
    Ok(Some(Inside { narrowed, rows }))
}

/// An index within the bounds, if one may be.
fn in_bounds<P: Pairs>(
    alloc: Global,
    spot: &Spot<'_, '_, P>,
    index: Id,
    len: Id,
) -> Result<Option<Inside>, AllocError>
    ensures { IfOk result (λ inside. option_map inside_seen inside ≡ in_bounds spot.now index len) }
{
    let Some(i) = spot.interval_of(index).meet(natural()) else {
        return Ok(None);
    };
    let Some(case) = case_below(i, spot.interval_of(len)) else {
        return Ok(None);
    };
    inside_of(alloc, index, len, case)
}

/// An index past the bounds throws.
fn past_the_end<P: Pairs>(
    alloc: Global,
    spot: &Spot<'_, '_, P>,
    index: Id,
    len: Id,
) -> Result<Option<Turn>, AllocError>
    ensures { IfOk result (λ turn. option_map turn_seen turn ≡ past_the_end spot.now index len) }
{
    let Some(case) = case_from(spot.interval_of(index), spot.interval_of(len)) else {
        return Ok(None);
    };
    let Some(Inside { narrowed, rows }) = inside_of(alloc, index, len, case)? else {
        return Ok(None);
    };
    let turn = throws_after(
        alloc,
        spot,
        narrowed,
        rows,
        ARRAY_INDEX_OUT_OF_BOUNDS_EXCEPTION,
    )?;
    Ok(Some(turn))
}

/// The numbers of a kind.
fn ints_of_kind(kind: Kind) -> Interval
    ensures { result ≡ record { lo = least_of kind; hi = greatest_of kind } }
{
    match Interval::new(kind.least(), kind.greatest()) {
        Some(interval) => interval,
        None => unreachable!(),
    }
}

/// The numbers of an array's kind.
fn of_kind<P: Pairs>(spot: &Spot<'_, '_, P>, k: Id) -> Interval
    ensures { result ≡ of_kind (cell_here spot.now k) }
{
    match spot.cell(k) {
        Some(Cell::Nums(kind, _)) => ints_of_kind(*kind),
        _ => all_ints(),
    }
}

/// What an access makes, and where that goes.
fn act_of<P: Pairs>(spot: &Spot<'_, '_, P>, access: Access, k: Id) -> (Act, Goal)
    ensures act { act_seen result.0 ≡ access_act spot.now access k }
    ensures goal { goal_seen result.1 ≡ access_goal access }
{
    match access {
        Access::Number => (Act::Makes(Cell::Int(of_kind(spot, k))), Goal::OnStack),
        Access::NumberStore => (Act::Nothing, Goal::Nowhere),
        Access::Item => (Act::Item(k), Goal::OnStack),
        Access::ItemStore(value) => {
            let write = Write {
                object: k,
                field: None,
                value,
            };
            (Act::Writes(write), Goal::Nowhere)
        }
    }
}

/// The step of an access within the bounds.
fn access_turn<P: Pairs>(
    alloc: Global,
    spot: &Spot<'_, '_, P>,
    access: Access,
    k: Id,
    stack: &Stack<Id>,
    inside: Inside,
) -> Result<Turn, AllocError>
    ensures { IfOk result (λ turn. turn_seen turn ≡ access_turn spot.now access k stack.now.0 inside.narrowed (rows_seen inside.rows)) }
{
    let frames = spot.with_stack(alloc, spot.next(), stack)?;
    let (act, goal) = act_of(spot, access, k);
    Ok(Turn {
        changed: inside.narrowed,
        frames,
        throwing: None,
        act,
        goal,
        rows: inside.rows,
    })
}

/// Whether a reference is stored that isn't null, which the array may not take.
fn may_not_fit<P: Pairs>(spot: &Spot<'_, '_, P>, access: Access) -> bool
    ensures { result ≡ may_not_fit spot.now access }
{
    match access {
        Access::ItemStore(value) => !spot.is_null(value),
        _ => false,
    }
}

/// Adds the steps of an access within the bounds.
fn put_good<P: Pairs>(
    alloc: Global,
    spot: &Spot<'_, '_, P>,
    access: Access,
    k: Id,
    index: Id,
    len: Id,
    stack: &Stack<Id>,
    turns: &mut Seq<Turn>,
) -> Result<(), AllocError>
    ensures { IfOk result
        (λ _. map turn_seen turns.new ≡ map turn_seen turns.old ++ option_map_or
        (λ inside. good_of spot.now access k stack.now.0 inside.0 inside.1) (in_bounds spot.now index len) []) }
{
    let Some(inside) = in_bounds(alloc, spot, index, len)? else {
        return Ok(());
    };
    turns.push(access_turn(alloc, spot, access, k, stack, inside)?)?;
    if may_not_fit(spot, access) {
        put_misfit(alloc, spot, index, len, turns)?;
    }
    Ok(())
}

/// Adds the throw of a reference that an array doesn't take.
fn put_misfit<P: Pairs>(
    alloc: Global,
    spot: &Spot<'_, '_, P>,
    index: Id,
    len: Id,
    turns: &mut Seq<Turn>,
) -> Result<(), AllocError>
    ensures { IfOk result
        (λ _. map turn_seen turns.new ≡ map turn_seen turns.old ++ option_map_or
        (λ inside. throws_after spot.now inside.0 inside.1 10 ∷ []) (in_bounds spot.now index len) []) }
{
    let Some(Inside { narrowed, rows }) = in_bounds(alloc, spot, index, len)? else {
        return Ok(());
    };
    turns.push(throws_after(alloc, spot, narrowed, rows, ARRAY_STORE_EXCEPTION)?)?;
    Ok(())
}

/// The steps of an access at an index: within the bounds, below 0, past the end.
fn access_at<P: Pairs>(
    alloc: Global,
    spot: &Spot<'_, '_, P>,
    access: Access,
    k: Id,
    index: Id,
    len: Id,
    stack: &Stack<Id>,
) -> Result<Plan, AllocError>
    ensures { IfOk result (λ plan. plan_seen plan ≡ access_at spot.now index len (good_of spot.now access k stack.now.0)) }
{
    let mut turns = Seq::new(alloc);
    put_good(alloc, spot, access, k, index, len, stack, &mut turns)?;
    let below = throws_below_zero(alloc, spot, index, ARRAY_INDEX_OUT_OF_BOUNDS_EXCEPTION)?;
    put(&mut turns, below)?;
    let past = past_the_end(alloc, spot, index, len)?;
    put(&mut turns, past)?;
    Ok(Plan::Steps(turns))
}

/// An access at an index of the array of an id, which stands under so many entries of the stack.
fn access_of<P: Pairs>(
    alloc: Global,
    spot: &Spot<'_, '_, P>,
    access: Access,
    depth: usize,
    k: Id,
    index: Id,
    stack: &Stack<Id>,
) -> Result<Plan, AllocError>
    ensures { IfOk result (λ plan. plan_seen plan ≡ access_of spot.now depth k index (length_of spot.now access k index)
        (good_of spot.now access k stack.now.0)) }
{
    if let Some(stop) = access_stop(alloc, spot, depth, k)? {
        return Ok(stop);
    }
    match access_length(spot, access, k, index) {
        Some(len) => access_at(alloc, spot, access, k, index, len, stack),
        None => Ok(no_child(alloc)),
    }
}

/// The id of the length of an array that an access takes.
fn access_length<P: Pairs>(spot: &Spot<'_, '_, P>, access: Access, k: Id, index: Id) -> Option<Id>
    ensures { result ≡ length_of spot.now access k index }
{
    match access {
        Access::Item => items_of(spot, k, index),
        _ => length_id(spot, k),
    }
}

/// A number of an array goes on the stack.
pub fn load_number<P: Pairs>(
    alloc: Global,
    spot: &Spot<'_, '_, P>,
    mut stack: Stack<Id>,
) -> Result<Plan, AllocError>
    ensures { IfOk result (λ plan. plan_seen plan ≡ number_load_plan spot.now stack.0) }
{
    let Some((index, k)) = pop_two(&mut stack) else {
        return Ok(no_child(alloc));
    };
    access_of(alloc, spot, Access::Number, 1, k, index, &stack)
}

/// An item of an array of references goes on the stack.
pub fn load_item<P: Pairs>(
    alloc: Global,
    spot: &Spot<'_, '_, P>,
    mut stack: Stack<Id>,
) -> Result<Plan, AllocError>
    ensures { IfOk result (λ plan. plan_seen plan ≡ aaload_plan spot.now stack.0) }
{
    let Some((index, k)) = pop_two(&mut stack) else {
        return Ok(no_child(alloc));
    };
    access_of(alloc, spot, Access::Item, 1, k, index, &stack)
}

/// An int goes into an array of numbers.
pub fn store_number<P: Pairs>(
    alloc: Global,
    spot: &Spot<'_, '_, P>,
    mut stack: Stack<Id>,
) -> Result<Plan, AllocError>
    ensures { IfOk result (λ plan. plan_seen plan ≡ number_store_plan spot.now stack.0) }
{
    let Some(_value) = stack.pop() else {
        return Ok(no_child(alloc));
    };
    let Some((index, k)) = pop_two(&mut stack) else {
        return Ok(no_child(alloc));
    };
    access_of(alloc, spot, Access::NumberStore, 2, k, index, &stack)
}

/// A reference goes into an array of references.
pub fn store_item<P: Pairs>(
    alloc: Global,
    spot: &Spot<'_, '_, P>,
    mut stack: Stack<Id>,
) -> Result<Plan, AllocError>
    ensures { IfOk result (λ plan. plan_seen plan ≡ aastore_plan spot.now stack.0) }
{
    let Some(value) = stack.pop() else {
        return Ok(no_child(alloc));
    };
    let Some((index, k)) = pop_two(&mut stack) else {
        return Ok(no_child(alloc));
    };
    access_of(alloc, spot, Access::ItemStore(value), 2, k, index, &stack)
}

/// Takes the two top ids: the top one, and the one below it.
fn pop_two(stack: &mut Stack<Id>) -> Option<(Id, Id)>
    ensures { MatchOption result ((stack.old.0 ≡ []) ⊎ ((a : ℕ) × (stack.old.0 ≡ a ∷ [])))
        (λ two. stack.old.0 ≡ two.0 ∷ two.1 ∷ stack.new.0) }
{
    let top = stack.pop()?;
    let next = stack.pop()?;
    Some((top, next))
}
