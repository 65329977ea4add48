//! The least typing of one method.
ghost use Rattle.class_program.specs.class_world.Worlds.{classes_of};
ghost use Rattle.class_program.specs.class_world.WorldTypes.{types_of};
ghost use Rattle.std.specs.Prelude.{◌≡◌, ◌↔◌, ◌<◌, ◌≤◌, length, Some, None, true, All, IfOk, MatchBool, MatchOption, IsTrue};
ghost use Rattle.std.specs.Option.{option_map};
ghost use Rattle.jvm_values.specs.States.{types_of as seen};
ghost use Rattle.class_program.specs.Views.{program_of};
ghost use Rattle.class_program.specs.Good.{IsGood, IsGoodMethod};
ghost use Rattle.op_forms.specs.Forms.{form_seen};
ghost use Rattle.frame_types.specs.Tables.{types_at};
ghost use Rattle.frame_types.specs.Places.{IsProper};
ghost use Rattle.frame_types.specs.Growth.{IsTable};
ghost use Rattle.frame_types.specs.Work.{work_left};
ghost use Rattle.code_verify.specs.Answers.{Looks};
ghost use Rattle.code_verify.specs.Flows.{CanCatch, runs_at, flows_from};
ghost use Rattle.code_verify.specs.Typings.{entry_frame, HasTyping, IsLeastTyping};
ghost use Rattle.code_verify.specs.inner.Solving.{IsSolving, IsPassed};

use crate::after::types_after;
use crate::flows::{caught_class, enter_ways, falls};
use crate::operands::place_of;
use crate::passed::{Passed, pass_handlers};
use crate::rows::THROWABLE;
use class_program::class_world::World;
use class_program::{CatchRange, Method, Program};
use frame_types::{Table, copy_of};
use jvm_values::{FrameType, PlaceType, Types, class_type};
use list_views::{Seq, Stack};
use op_forms::{Form, form_of};
use std::alloc::{AllocError, Global};

/// Whether an exception table catches only what can be thrown.
fn can_catch(world: &World<'_>, ranges: &[CatchRange]) -> bool
    ensures { IsTrue result ↔ All (CanCatch (classes_of world.now)) ranges.now }
{
    for range in ranges {
        if !world.sub(caught_class(*range), class_type(THROWABLE)) {
            return false;
        }
    }
    true
}

/// The types that come to the start of a method whose locals have place for its parameters.
fn entry_frame(
    alloc: Global,
    world: &World<'_>,
    method: &Method<'_>,
) -> Result<FrameType, AllocError>
    requires { length method.now.params ≤ method.now.max_locals }
    ensures { IfOk result (λ frame. seen frame ≡ entry_frame (types_of (classes_of world.now)) method.now) }
{
    let mut locals = Seq::new(alloc);
    for slot in method.params.as_slice() {
        locals.push(place_of(world, *slot))?;
    }
    for _ in method.params.len()..usize::from(method.max_locals) {
        locals.push(PlaceType::Unset)?;
    }
    Ok(FrameType {
        locals,
        stack: Stack::new(alloc),
    })
}

/// Runs the instruction at a place on the types there, where one stands there that finds what it needs and leads to places
/// of the code; it answers the instruction, and the place of the next one.
#[tactic(auto, unfolding(crate::specs::Flows::runs_at))]
fn run_at<'a>(
    program: &Program<'_>,
    method: &'a Method<'_>,
    place: u16,
    frame: &mut FrameType,
) -> Result<Option<(Form<'a>, Option<u16>)>, AllocError>
    requires good { IsGood (program_of program.now) }
    requires method { IsGoodMethod (program_of program.now) method.now }
    ensures { IfOk result (λ answer. MatchOption answer (runs_at (program_of program.now) method.now place (seen frame.old) ≡ None)
        (λ x. runs_at (program_of program.now) method.now place (seen frame.old) ≡ Some (form_seen x.0, x.1, seen frame.new))) }
{
    let Some((op, next)) = method.at(place) else {
        return Ok(None);
    };
    let Some(form) = form_of(op) else {
        return Ok(None);
    };
    if falls(form) && next.is_none() {
        return Ok(None);
    }
    let ran = types_after(program, method, form, frame)?;
    if !ran {
        return Ok(None);
    }
    Ok(Some((form, next)))
}

/// The types at a place, once more.
fn frame_at(alloc: Global, table: &Table, place: u16) -> Result<Option<FrameType>, AllocError>
    ensures { IfOk result (λ answer. option_map seen answer ≡ types_at table.now.types place) }
{
    match table.types.as_slice().get(usize::from(place)) {
        Some(Some(frame)) => Ok(Some(copy_of(alloc, frame)?)),
        _ => Ok(None),
    }
}

/// Takes all that a place leads to, where it has these types, to the table, and says whether the table takes it.
fn look(
    alloc: Global,
    program: &Program<'_>,
    method: &Method<'_>,
    place: u16,
    frame: &mut FrameType,
    table: &mut Table,
    passed: &mut Passed,
) -> Result<bool, AllocError>
    requires good { IsGood (program_of program.now) }
    requires method { IsGoodMethod (program_of program.now) method.now }
    requires table { IsTable (types_of (classes_of program.now.world)) table.old }
    requires proper { IsProper (types_of (classes_of program.now.world)) table.old.max_locals (seen frame.old) }
    requires catches { All (CanCatch (classes_of program.now.world)) method.now.table }
    requires passed { IsPassed (classes_of program.now.world) method.now.table (types_at table.old.types) passed.old }
    ensures looks { IfOk result
        (λ ok. Looks (types_of (classes_of program.now.world))
        (flows_from (program_of program.now) method.now place (seen frame.old)) ok table.old table.new) }
    ensures passed { IfOk result (λ ok. ok ≡ true
        → IsPassed (classes_of program.now.world) method.now.table (types_at table.new.types) passed.new) }
{
    let mut after = copy_of(alloc, frame)?;
    let ran = run_at(program, method, place, &mut after)?;
    let Some((form, next)) = ran else {
        return Ok(false);
    };
    let entered = enter_ways(alloc, &program.world, form, next, &after, table)?;
    if !entered {
        return Ok(false);
    }
    pass_handlers(
        alloc,
        &program.world,
        place,
        method.table.as_slice(),
        frame,
        table,
        passed,
    )
}

/// Looks at the lowest place that waits. It answers whether that was refused, and None where no place waits.
fn look_on(
    alloc: Global,
    program: &Program<'_>,
    method: &Method<'_>,
    table: &mut Table,
    passed: &mut Passed,
) -> Result<Option<bool>, AllocError>
    requires good { IsGood (program_of program.now) }
    requires method { IsGoodMethod (program_of program.now) method.now }
    requires solving { IsSolving (program_of program.now) method.now table.old }
    requires passed { IsPassed (classes_of program.now.world) method.now.table (types_at table.old.types) passed.old }
    ensures answer { IfOk result
        (λ answer. MatchOption answer (IsLeastTyping (program_of program.now) method.now (types_at table.new.types))
        (λ ok. MatchBool ok (IsSolving (program_of program.now) method.now table.new)
        (HasTyping (program_of program.now) method.now → ⊥))) }
    ensures less { IfOk result (λ answer. answer ≡ Some true
        → work_left (types_of (classes_of program.now.world)) table.new < work_left (types_of (classes_of program.now.world))
        table.old) }
    ensures passed { IfOk result (λ answer. answer ≡ Some true
        → IsPassed (classes_of program.now.world) method.now.table (types_at table.new.types) passed.new) }
{
    let Some(place) = table.take() else {
        return Ok(None);
    };
    let found = frame_at(alloc, table, place)?;
    match found {
        Some(mut frame) => {
            let looked = look(alloc, program, method, place, &mut frame, table, passed)?;
            Ok(Some(looked))
        }
        None => Ok(Some(true)),
    }
}

/// A table that has what comes to a method's start; None where nothing has.
fn first_table(
    alloc: Global,
    program: &Program<'_>,
    method: &Method<'_>,
) -> Result<Option<Table>, AllocError>
    requires good { IsGood (program_of program.now) }
    requires method { IsGoodMethod (program_of program.now) method.now }
    requires catches { All (CanCatch (classes_of program.now.world)) method.now.table }
    ensures { IfOk result (λ answer. MatchOption answer (HasTyping (program_of program.now) method.now → ⊥)
        (λ table. IsSolving (program_of program.now) method.now table)) }
{
    if method.params.len() > usize::from(method.max_locals) {
        return Ok(None);
    }
    let entry = entry_frame(alloc, &program.world, method)?;
    let mut table = Table::new(alloc, method.max_locals, method.max_stack);
    let entered = table.enter(alloc, &program.world, 0, &entry)?;
    if entered { Ok(Some(table)) } else { Ok(None) }
}

/// The least typing of a method, by place; None where it has no typing. It ends, since a place waits to be looked at again
/// only when its types have grown, and they grow at most to the widest ones.
///
/// # Errors
///
/// Want of memory.
pub(crate) fn type_method(
    alloc: Global,
    program: &Program<'_>,
    method: &Method<'_>,
) -> Result<Option<Seq<Option<FrameType>>>, AllocError>
    requires good { IsGood (program_of program.now) }
    requires method { IsGoodMethod (program_of program.now) method.now }
    ensures { IfOk result (λ answer. MatchOption answer (HasTyping (program_of program.now) method.now → ⊥)
        (λ types. IsLeastTyping (program_of program.now) method.now (types_at types))) }
{
    if !can_catch(&program.world, method.table.as_slice()) {
        return Ok(None);
    }
    let first = first_table(alloc, program, method)?;
    let Some(mut table) = first else {
        return Ok(None);
    };
    let mut passed = Passed::nothing(alloc);
    loop {
        let looked = look_on(alloc, program, method, &mut table, &mut passed)?;
        match looked {
            Some(true) => {}
            Some(false) => return Ok(None),
            None => return Ok(Some(table.types)),
        }
    }
}
