//! The test of the references that a form takes from the stack.
ghost use Rattle.std.specs.Prelude.{◌≡◌, Some};
ghost use Rattle.std.specs.Option.{option_map};
ghost use Rattle.abs_turns.specs.Needs.{is_below_place, is_comparable_place, passes_if, passing_id, operands_of};
ghost use Rattle.abs_turns.specs.Table.{types_here, taken_by, shuffle_count};
ghost use Rattle.abs_turns.specs.Stops.{stop_of, first_stop};
ghost use Rattle.abs_plans.specs.inner.TestsSeen.{passing_seen};
ghost use Rattle.abs_turns.specs.op_forms.Forms.{form_seen};
ghost use Rattle.abs_turns.specs.PlansSeen.{plan_seen};

use crate::abs_rows::no_child;
use abs_cells::{Cell, Id, Pairs};
use abs_turns::op_forms::{Form, Shuffle};
use abs_turns::{Plan, Spot};
use jvm_values::{PlaceType, Ty, Types, array_of, array_of_numbers, class_type};
use list_views::Stack;
use std::alloc::Global;

/// Whether an operand can be what its place's type says.
#[derive(Clone, Copy)]
pub(crate) enum Passing {
    /// It can.
    Passes,
    /// It can't.
    Fails,
    /// Only if it is null.
    Splits,
}

/// Whether a type is below that of a place.
fn is_below_place<P: Pairs>(spot: &Spot<'_, '_, P>, place: PlaceType, t: Ty) -> bool
    ensures { result ≡ is_below_place (types_here spot.now) place (Some t) }
{
    match place {
        PlaceType::Ref(wanted) => spot.program().world.sub(t, wanted),
        _ => false,
    }
}

/// Whether a type or that of a place is below the other.
fn is_comparable_place<P: Pairs>(spot: &Spot<'_, '_, P>, place: PlaceType, t: Ty) -> bool
    ensures { result ≡ is_comparable_place (types_here spot.now) place (Some t) }
{
    match place {
        PlaceType::Ref(wanted) => {
            spot.program().world.sub(t, wanted) || spot.program().world.sub(wanted, t)
        }
        _ => false,
    }
}

/// An operand passes, or something else.
fn passes_if(ok: bool, else_: Passing) -> Passing
    ensures { passing_seen result ≡ passes_if ok (passing_seen else_) }
{
    if ok { Passing::Passes } else { else_ }
}

/// Whether an operand can be what its place's type says. One without a cell passes.
pub(crate) fn passing_id<P: Pairs>(spot: &Spot<'_, '_, P>, place: PlaceType, x: Id) -> Passing
    ensures { passing_seen result ≡ passing_id (types_here spot.now) spot.now.state place x }
{
    match spot.cell(x) {
        None | Some(Cell::Int(_)) | Some(Cell::Null) => Passing::Passes,
        Some(Cell::Obj(class, _)) => {
            passes_if(
                is_below_place(spot, place, class_type(*class)),
                Passing::Fails,
            )
        }
        Some(Cell::Nums(kind, _)) => {
            passes_if(
                is_below_place(spot, place, array_of_numbers(*kind)),
                Passing::Fails,
            )
        }
        Some(Cell::Refs(element, _, _)) => {
            passes_if(
                is_comparable_place(spot, place, array_of(*element)),
                Passing::Fails,
            )
        }
        Some(Cell::Unk(bound, nullable, _)) => {
            let else_ = if *nullable {
                Passing::Splits
            } else {
                Passing::Fails
            };
            passes_if(is_comparable_place(spot, place, *bound), else_)
        }
    }
}

/// What comes in the place of a row, where an operand doesn't pass.
fn stop_of<P: Pairs>(alloc: Global, spot: &Spot<'_, '_, P>, place: PlaceType, x: Id) -> Option<Plan>
    ensures { option_map plan_seen result ≡ stop_of (passing_id (types_here spot.now) spot.now.state place x) x }
{
    match passing_id(spot, place, x) {
        Passing::Passes => None,
        Passing::Fails => Some(no_child(alloc)),
        Passing::Splits => Some(Plan::ByNull(x)),
    }
}

/// What comes in the place of a row, where one of so many operands doesn't pass: of the lowest one.
pub fn first_stop<P: Pairs>(
    alloc: Global,
    spot: &Spot<'_, '_, P>,
    count: usize,
    stack: &Stack<Id>,
) -> Option<Plan>
    requires { stack.now.0 ≡ spot.now.frame.stack }
    ensures { option_map plan_seen result ≡ first_stop (types_here spot.now) spot.now.state
        (operands_of count spot.now.places stack.now.0) }
{
    let mut depth = spot.depth_of(count, stack);
    while depth > 0 {
        depth -= 1;
        if let Some(stop) = stop_of(alloc, spot, spot.place_under(depth), *stack.at(depth)) {
            return Some(stop);
        }
    }
    None
}

/// How many ids a reordering takes.
fn shuffle_count(reordering: Shuffle) -> usize
    ensures { result ≡ shuffle_count reordering }
{
    match reordering {
        Shuffle::Pop => 1,
        Shuffle::Pop2 => 2,
        Shuffle::Dup => 1,
        Shuffle::DupX1 => 2,
        Shuffle::DupX2 => 3,
        Shuffle::Dup2 => 2,
        Shuffle::Dup2X1 => 3,
        Shuffle::Dup2X2 => 4,
        Shuffle::Swap => 2,
    }
}

/// How many entries a form takes from the stack.
pub fn taken_by(form: &Form<'_>) -> usize
    ensures { result ≡ taken_by (form_seen form.now) }
{
    match form {
        Form::Istore(_) => 1,
        Form::Astore(_) => 1,
        Form::Shuffle(reordering) => shuffle_count(*reordering),
        Form::Arith(_) => 2,
        Form::Ineg => 1,
        Form::Narrow(_) => 1,
        Form::If(_, _) => 1,
        Form::IfIcmp(_, _) => 2,
        Form::IfAcmpeq(_) => 2,
        Form::IfAcmpne(_) => 2,
        Form::Ifnull(_) => 1,
        Form::Ifnonnull(_) => 1,
        Form::Tableswitch { .. } => 1,
        Form::Lookupswitch { .. } => 1,
        Form::Ireturn => 1,
        Form::Areturn => 1,
        Form::Putstatic(_) => 1,
        Form::Getfield(_) => 1,
        Form::Putfield(_) => 2,
        Form::Invokevirtual(call) => call.params.as_slice().len() + 1,
        Form::Invokespecial(call) => call.params.as_slice().len() + 1,
        Form::Invokestatic(call) => call.params.as_slice().len(),
        Form::Invokeinterface(call) => call.params.as_slice().len() + 1,
        Form::Newarray(_) => 1,
        Form::Anewarray(_) => 1,
        Form::Arraylength => 1,
        Form::NumberLoad(_) => 2,
        Form::Aaload => 2,
        Form::NumberStore(_) => 3,
        Form::Aastore => 3,
        Form::Athrow => 1,
        Form::Checkcast(_) => 1,
        Form::Instanceof(_) => 1,
        _ => 0,
    }
}
