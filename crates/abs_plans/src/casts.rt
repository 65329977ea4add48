//! Casts, and tests of types.
ghost use Rattle.std.specs.Prelude.{◌≡◌, [], ◌∷◌, if◌then◌else◌, map, IfOk};
ghost use Rattle.std.specs.Option.{option_map, option_and_then, option_to_list};
ghost use Rattle.abs_turns.specs.Turns.{pushes};
ghost use Rattle.abs_turns.specs.Table.{types_here, number_cell, with_bound, undecided, cell_here, cell_bound, is_bound_below};
ghost use Rattle.abs_turns.specs.Table.{may_be_below, is_known_cell, bounded, cast_plan, checkcast_plan, instanceof_plan};
ghost use Rattle.abs_plans.specs.inner.Casts.{cast_of, asks, verdict_of, verdict_plan};
ghost use Rattle.abs_turns.specs.PlansSeen.{turn_seen, plan_seen};

use crate::abs_rows::{no_child, one_step};
use abs_cells::{Cell, Id, Pairs};
use abs_turns::class_world::built_ins::CLASS_CAST_EXCEPTION;
use abs_turns::{Plan, Spot, Turn, goes_on, just, pushes, put, throws};
use jvm_values::{Ty, Types, array_of, array_of_numbers, class_type};
use list_views::{Seq, Stack};
use std::alloc::{AllocError, Global};

/// A cast, or a test of a type.
#[derive(Clone, Copy)]
pub(crate) enum CastForm {
    /// `checkcast`: the reference stays, or the machine throws.
    Check,
    /// `instanceof`: 1 or 0.
    Test,
}

/// What is known of a reference and a type.
#[derive(Clone, Copy)]
pub(crate) enum Verdict {
    /// It is null.
    Null,
    /// Its object is of the type.
    Passed,
    /// It is split by null first.
    Split,
    /// Its object is not of the type.
    Failed,
    /// Both may be.
    Open,
}

/// The type that is known of an id's object.
pub(crate) fn bound_of<P: Pairs>(spot: &Spot<'_, '_, P>, x: Id) -> Option<Ty>
    ensures { result ≡ cell_bound (cell_here spot.now x) }
{
    match spot.cell(x) {
        Some(Cell::Obj(class, _)) => Some(class_type(*class)),
        Some(Cell::Nums(kind, _)) => Some(array_of_numbers(*kind)),
        Some(Cell::Refs(element, _, _)) => Some(array_of(*element)),
        Some(Cell::Unk(bound, _, _)) => Some(*bound),
        Some(Cell::Int(_)) | Some(Cell::Null) | None => None,
    }
}

/// Whether an id's object is of a type, whatever it is.
fn is_bound_below<P: Pairs>(spot: &Spot<'_, '_, P>, t: Ty, x: Id) -> bool
    ensures { result ≡ is_bound_below spot.now t (cell_bound (cell_here spot.now x)) }
{
    match bound_of(spot, x) {
        Some(bound) => spot.program().world.sub(bound, t),
        None => false,
    }
}

/// Whether an id's object may be of a type.
fn may_be_below<P: Pairs>(spot: &Spot<'_, '_, P>, t: Ty, x: Id) -> bool
    ensures { result ≡ may_be_below spot.now t (cell_bound (cell_here spot.now x)) }
{
    let world = &spot.program().world;
    let erased = world.erase(t);
    match bound_of(spot, x) {
        Some(bound) => world.sub(bound, erased) || world.sub(erased, bound),
        None => false,
    }
}

/// Whether the class or kind of an id's object is known exactly.
fn is_known<P: Pairs>(spot: &Spot<'_, '_, P>, x: Id) -> bool
    ensures { result ≡ is_known_cell (cell_here spot.now x) }
{
    match spot.cell(x) {
        Some(cell) => cell.is_known(),
        None => false,
    }
}

/// What is known of a reference and a type; `asks` where null is to be told apart first.
fn judged<P: Pairs>(spot: &Spot<'_, '_, P>, t: Ty, x: Id, asks: bool) -> Verdict
    ensures { result ≡ verdict_of spot.now t x asks }
{
    if spot.is_null(x) {
        return Verdict::Null;
    }
    if is_bound_below(spot, t, x) {
        return if asks && spot.may_be_null(x) {
            Verdict::Split
        } else {
            Verdict::Passed
        };
    }
    if spot.may_be_null(x) {
        return Verdict::Split;
    }
    if is_known(spot, x) {
        return Verdict::Failed;
    }
    Verdict::Open
}

/// A number goes on the stack.
fn number<P: Pairs>(
    alloc: Global,
    spot: &Spot<'_, '_, P>,
    n: i32,
    stack: &Stack<Id>,
) -> Result<Turn, AllocError>
    ensures { IfOk result (λ turn. turn_seen turn ≡ pushes spot.now (number_cell n) stack.now.0) }
{
    pushes(alloc, spot, Cell::Int(just(n)), stack)
}

/// The step where the object is of the type.
fn passed<P: Pairs>(
    alloc: Global,
    spot: &Spot<'_, '_, P>,
    form: CastForm,
    whole: &Stack<Id>,
    rest: &Stack<Id>,
) -> Result<Turn, AllocError>
    ensures { IfOk result (λ turn. turn_seen turn ≡ (cast_of spot.now form whole.now.0 rest.now.0).passed) }
{
    match form {
        CastForm::Check => goes_on(alloc, spot, spot.next(), whole),
        CastForm::Test => number(alloc, spot, 1, rest),
    }
}

/// The step where it is not.
fn failed<P: Pairs>(
    alloc: Global,
    spot: &Spot<'_, '_, P>,
    form: CastForm,
    whole: &Stack<Id>,
    rest: &Stack<Id>,
) -> Result<Turn, AllocError>
    ensures { IfOk result (λ turn. turn_seen turn ≡ (cast_of spot.now form whole.now.0 rest.now.0).failed) }
{
    match form {
        CastForm::Check => throws(alloc, spot, CLASS_CAST_EXCEPTION),
        CastForm::Test => number(alloc, spot, 0, rest),
    }
}

/// The step where the reference is null.
fn null<P: Pairs>(
    alloc: Global,
    spot: &Spot<'_, '_, P>,
    form: CastForm,
    whole: &Stack<Id>,
    rest: &Stack<Id>,
) -> Result<Turn, AllocError>
    ensures { IfOk result (λ turn. turn_seen turn ≡ (cast_of spot.now form whole.now.0 rest.now.0).null) }
{
    match form {
        CastForm::Check => goes_on(alloc, spot, spot.next(), whole),
        CastForm::Test => number(alloc, spot, 0, rest),
    }
}

/// The cell of an id with a lower bound, where an erased type is one.
fn bounded<P: Pairs>(spot: &Spot<'_, '_, P>, erased: Ty, x: Id) -> Option<Cell>
    ensures { result ≡ option_and_then (bounded (types_here spot.now) erased) (cell_here spot.now x) }
{
    let world = &spot.program().world;
    match spot.cell(x) {
        Some(Cell::Unk(bound, nullable, shape)) => {
            if world.sub(erased, *bound) && !world.sub(*bound, erased) {
                Some(Cell::Unk(erased, *nullable, *shape))
            } else {
                None
            }
        }
        _ => None,
    }
}

/// A step in which an id may have another cell.
fn with_bound(alloc: Global, x: Id, cell: Option<Cell>, mut turn: Turn) -> Result<Turn, AllocError>
    ensures { IfOk result (λ made. turn_seen made ≡ with_bound x cell (turn_seen turn)) }
{
    let Some(cell) = cell else {
        return Ok(turn);
    };
    let mut changed = Seq::new(alloc);
    changed.push((x, cell))?;
    turn.changed = changed;
    Ok(turn)
}

/// A type as it stands in assignments.
fn erased<P: Pairs>(spot: &Spot<'_, '_, P>, t: Ty) -> Ty
    ensures { result ≡ (types_here spot.now).erase t }
{
    spot.program().world.erase(t)
}

/// The step where an object is of a type, its bound lowered.
fn lowered<P: Pairs>(
    alloc: Global,
    spot: &Spot<'_, '_, P>,
    form: CastForm,
    t: Ty,
    x: Id,
    whole: &Stack<Id>,
    rest: &Stack<Id>,
) -> Result<Turn, AllocError>
    ensures { IfOk result
        (λ turn. turn_seen turn ≡ with_bound x (option_and_then (bounded (types_here spot.now) ((types_here spot.now).erase t))
        (cell_here spot.now x)) (cast_of spot.now form whole.now.0 rest.now.0).passed) }
{
    let turn = passed(alloc, spot, form, whole, rest)?;
    with_bound(alloc, x, bounded(spot, erased(spot, t), x), turn)
}

/// That step, where an object may be of a type.
fn lowered_if<P: Pairs>(
    alloc: Global,
    spot: &Spot<'_, '_, P>,
    form: CastForm,
    t: Ty,
    x: Id,
    whole: &Stack<Id>,
    rest: &Stack<Id>,
) -> Result<Option<Turn>, AllocError>
    ensures { IfOk result
        (λ turn. option_to_list (option_map turn_seen turn)
        ≡ (if may_be_below spot.now t (cell_bound (cell_here spot.now x)) then with_bound x
        (option_and_then (bounded (types_here spot.now) ((types_here spot.now).erase t)) (cell_here spot.now x))
        (cast_of spot.now form whole.now.0 rest.now.0).passed ∷ [] else [])) }
{
    if !may_be_below(spot, t, x) {
        return Ok(None);
    }
    Ok(Some(lowered(alloc, spot, form, t, x, whole, rest)?))
}

/// The steps where an object may be of a type, or not.
fn undecided<P: Pairs>(
    alloc: Global,
    spot: &Spot<'_, '_, P>,
    form: CastForm,
    t: Ty,
    x: Id,
    whole: &Stack<Id>,
    rest: &Stack<Id>,
) -> Result<Seq<Turn>, AllocError>
    ensures { IfOk result (λ turns. map turn_seen turns ≡ undecided spot.now t x (cast_of spot.now form whole.now.0 rest.now.0)) }
{
    let mut turns = Seq::new(alloc);
    let lower = lowered_if(alloc, spot, form, t, x, whole, rest)?;
    put(&mut turns, lower)?;
    let fails = failed(alloc, spot, form, whole, rest)?;
    put(&mut turns, Some(fails))?;
    Ok(turns)
}

/// A cast of an id.
fn cast<P: Pairs>(
    alloc: Global,
    spot: &Spot<'_, '_, P>,
    form: CastForm,
    t: Ty,
    x: Id,
    whole: &Stack<Id>,
    rest: &Stack<Id>,
) -> Result<Plan, AllocError>
    ensures { IfOk result (λ plan. plan_seen plan ≡ verdict_plan spot.now t x (cast_of spot.now form whole.now.0 rest.now.0)
        (verdict_of spot.now t x (asks form))) }
{
    match judged(spot, t, x, matches!(form, CastForm::Test)) {
        Verdict::Null => one_step(alloc, null(alloc, spot, form, whole, rest)?),
        Verdict::Passed => one_step(alloc, passed(alloc, spot, form, whole, rest)?),
        Verdict::Split => Ok(Plan::ByNull(x)),
        Verdict::Failed => one_step(alloc, failed(alloc, spot, form, whole, rest)?),
        Verdict::Open => {
            let turns = undecided(alloc, spot, form, t, x, whole, rest)?;
            Ok(Plan::Steps(turns))
        }
    }
}

/// The top id stays where it is null or its object is of a type; else the machine throws.
pub fn check_cast<P: Pairs>(
    alloc: Global,
    spot: &Spot<'_, '_, P>,
    t: &Ty,
    whole: &Stack<Id>,
) -> Result<Plan, AllocError>
    ensures { IfOk result (λ plan. plan_seen plan ≡ checkcast_plan spot.now t.now whole.now.0) }
{
    if whole.is_empty() {
        return Ok(no_child(alloc));
    }
    let x = *whole.at(0);
    cast(alloc, spot, CastForm::Check, *t, x, whole, whole)
}

/// Whether the top id's object is of a type.
pub fn test_type<P: Pairs>(
    alloc: Global,
    spot: &Spot<'_, '_, P>,
    t: &Ty,
    mut rest: Stack<Id>,
) -> Result<Plan, AllocError>
    ensures { IfOk result (λ plan. plan_seen plan ≡ instanceof_plan spot.now t.now rest.0) }
{
    let Some(x) = rest.pop() else {
        return Ok(no_child(alloc));
    };
    cast(alloc, spot, CastForm::Test, *t, x, &rest, &rest)
}
