//! Where a method's code leads from a place, and what comes there.
ghost use Rattle.class_program.specs.class_world.Worlds.{classes_of};
ghost use Rattle.class_program.specs.class_world.WorldTypes.{types_of};
ghost use Rattle.std.specs.Prelude.{◌≡◌, ◌++◌, [], ◌∷◌, length, map, None, All, IfOk, OnOk, if◌then◌else◌};
ghost use Rattle.std.specs.Option.{option_to_list};
ghost use Rattle.jvm_values.specs.States.{types_of as seen, PlaceTypes};
ghost use Rattle.op_forms.specs.Forms.{form_seen};
ghost use Rattle.frame_types.specs.Places.{IsProper, IsOfWorld};
ghost use Rattle.frame_types.specs.Growth.{IsTable};
ghost use Rattle.code_verify.specs.Answers.{Comes};
ghost use Rattle.code_verify.specs.Flows.{CanCatch, falls, jump, table_targets, lookup_cases, jumps, ways, covers, caught_class};
ghost use Rattle.code_verify.specs.Flows.{onward, caught};

use crate::rows::THROWABLE;
use class_program::CatchRange;
use class_program::class_world::World;
use class_program::code_forms::Case;
use frame_types::Table;
use jvm_values::{FrameType, PlaceType, Ty, Types, class_type};
use op_forms::Form;
use std::alloc::{AllocError, Global};

/// Whether the next instruction may run after an instruction.
pub(crate) fn falls(form: Form<'_>) -> bool
    ensures { result ≡ falls (form_seen form.entry) }
{
    !matches!(
        form,
        Form::Goto(_)
            | Form::Tableswitch { .. }
            | Form::Lookupswitch { .. }
            | Form::Ireturn
            | Form::Areturn
            | Form::Return
            | Form::Athrow
    )
}

/// The next instruction's place, where that may run after an instruction.
fn following(form: Form<'_>, next: Option<u16>) -> Option<u16>
    ensures { result ≡ (if falls (form_seen form.entry) then next else None) }
{
    if falls(form) { next } else { None }
}

/// The place of a jump, or of a switch where no key fits.
fn jump(form: Form<'_>) -> Option<u16>
    ensures { result ≡ jump (form_seen form.entry) }
{
    match form {
        Form::If(_, place) => Some(place),
        Form::IfIcmp(_, place) => Some(place),
        Form::IfAcmpeq(place) => Some(place),
        Form::IfAcmpne(place) => Some(place),
        Form::Ifnull(place) => Some(place),
        Form::Ifnonnull(place) => Some(place),
        Form::Goto(place) => Some(place),
        Form::Tableswitch { default, .. } => Some(default),
        Form::Lookupswitch { default, .. } => Some(default),
        _ => None,
    }
}

/// The places of a table switch's keys.
fn table_targets(form: Form<'_>) -> &[u16]
    ensures { result.now ≡ table_targets (form_seen form.entry) }
{
    match form {
        Form::Tableswitch { targets, .. } => targets,
        _ => &[],
    }
}

/// The keys of a look-up switch with their places.
fn lookup_cases(form: Form<'_>) -> &[Case]
    ensures { result.now ≡ lookup_cases (form_seen form.entry) }
{
    match form {
        Form::Lookupswitch { cases, .. } => cases,
        _ => &[],
    }
}

/// Takes a frame to places, one after the other.
fn enter_all(
    alloc: Global,
    world: &World<'_>,
    places: &[u16],
    frame: &FrameType,
    table: &mut Table,
) -> Result<bool, AllocError>
    requires table { IsTable (types_of (classes_of world.now)) table.old }
    requires proper { IsProper (types_of (classes_of world.now)) table.old.max_locals (seen frame.now) }
    ensures { IfOk result (λ ok. Comes (types_of (classes_of world.now)) (onward (seen frame.now) places.now) ok table.old table.new) }
{
    for place in places {
        let entered = table.enter(alloc, world, *place, frame)?;
        if !entered {
            return Ok(false);
        }
    }
    Ok(true)
}

/// Takes a frame to the places of a switch's cases, one after the other.
fn enter_cases(
    alloc: Global,
    world: &World<'_>,
    cases: &[Case],
    frame: &FrameType,
    table: &mut Table,
) -> Result<bool, AllocError>
    requires table { IsTable (types_of (classes_of world.now)) table.old }
    requires proper { IsProper (types_of (classes_of world.now)) table.old.max_locals (seen frame.now) }
    ensures { IfOk result (λ ok. Comes (types_of (classes_of world.now)) (onward (seen frame.now) (map (λ c. c.target) cases.now))
        ok table.old table.new) }
{
    for case in cases {
        let entered = table.enter(alloc, world, case.target, frame)?;
        if !entered {
            return Ok(false);
        }
    }
    Ok(true)
}

/// Takes a frame to a place, if there is one.
fn enter_one(
    alloc: Global,
    world: &World<'_>,
    place: Option<u16>,
    frame: &FrameType,
    table: &mut Table,
) -> Result<bool, AllocError>
    requires table { IsTable (types_of (classes_of world.now)) table.old }
    requires proper { IsProper (types_of (classes_of world.now)) table.old.max_locals (seen frame.now) }
    ensures { IfOk result (λ ok. Comes (types_of (classes_of world.now)) (onward (seen frame.now) (option_to_list place)) ok
        table.old table.new) }
{
    match place {
        Some(place) => table.enter(alloc, world, place, frame),
        None => Ok(true),
    }
}

/// Takes a frame to the places of a switch's keys.
fn enter_keys(
    alloc: Global,
    world: &World<'_>,
    form: Form<'_>,
    frame: &FrameType,
    table: &mut Table,
) -> Result<bool, AllocError>
    requires table { IsTable (types_of (classes_of world.now)) table.old }
    requires proper { IsProper (types_of (classes_of world.now)) table.old.max_locals (seen frame.now) }
    ensures { IfOk result
        (λ ok. Comes (types_of (classes_of world.now))
        (onward (seen frame.now)
        (table_targets (form_seen form.entry) ++ map (λ c. c.target) (lookup_cases (form_seen form.entry)))) ok table.old
        table.new) }
{
    let entered = enter_all(alloc, world, table_targets(form), frame, table)?;
    if !entered {
        return Ok(false);
    }
    enter_cases(alloc, world, lookup_cases(form), frame, table)
}

/// Takes a frame to where an instruction may jump to.
fn enter_jumps(
    alloc: Global,
    world: &World<'_>,
    form: Form<'_>,
    frame: &FrameType,
    table: &mut Table,
) -> Result<bool, AllocError>
    requires table { IsTable (types_of (classes_of world.now)) table.old }
    requires proper { IsProper (types_of (classes_of world.now)) table.old.max_locals (seen frame.now) }
    ensures { IfOk result (λ ok. Comes (types_of (classes_of world.now)) (onward (seen frame.now) (jumps (form_seen form.entry))) ok
        table.old table.new) }
{
    let entered = enter_one(alloc, world, jump(form), frame, table)?;
    if !entered {
        return Ok(false);
    }
    enter_keys(alloc, world, form, frame, table)
}

/// Takes the frame after an instruction to where it leads, its next instruction being at a place, if there is one.
pub(crate) fn enter_ways(
    alloc: Global,
    world: &World<'_>,
    form: Form<'_>,
    next: Option<u16>,
    frame: &FrameType,
    table: &mut Table,
) -> Result<bool, AllocError>
    requires table { IsTable (types_of (classes_of world.now)) table.old }
    requires proper { IsProper (types_of (classes_of world.now)) table.old.max_locals (seen frame.now) }
    ensures { IfOk result
        (λ ok. Comes (types_of (classes_of world.now)) (onward (seen frame.now) (ways (form_seen form.entry) next)) ok table.old
        table.new) }
{
    let entered = enter_one(alloc, world, following(form, next), frame, table)?;
    if !entered {
        return Ok(false);
    }
    enter_jumps(alloc, world, form, frame, table)
}

/// Whether a range has a place.
fn covers(place: u16, range: CatchRange) -> bool
    ensures { result ≡ covers place range }
{
    range.start <= place && place < range.end
}

/// The class that a range catches: Throwable, where it catches everything.
pub(crate) fn caught_class(range: CatchRange) -> Ty
    ensures { result ≡ caught_class range }
{
    match range.catch {
        Some(class) => class_type(class),
        None => class_type(THROWABLE),
    }
}

/// Puts a type alone on a frame's stack.
fn put_alone(place: PlaceType, frame: &mut FrameType) -> Result<(), AllocError>
    ensures stack { OnOk result (frame.new.stack.0 ≡ place ∷ []) }
    ensures locals { frame.new.locals ≡ frame.old.locals }
{
    frame.stack.clear();
    frame.stack.push(place)?;
    Ok(())
}

/// Takes a frame's locals, with what is caught alone on the stack, to the handler of a range, if that has a place.
fn enter_handler(
    alloc: Global,
    world: &World<'_>,
    place: u16,
    range: CatchRange,
    frame: &mut FrameType,
    table: &mut Table,
) -> Result<bool, AllocError>
    requires table { IsTable (types_of (classes_of world.now)) table.old }
    requires count { length frame.old.locals ≡ table.old.max_locals }
    requires locals { All (IsOfWorld (types_of (classes_of world.now))) frame.old.locals }
    requires catches { CanCatch (classes_of world.now) range }
    ensures comes { IfOk result (λ ok. (old : PlaceTypes) → old.locals ≡ frame.old.locals
        → Comes (types_of (classes_of world.now)) (caught (classes_of world.now) place old (range ∷ [])) ok table.old table.new) }
    ensures locals { frame.new.locals ≡ frame.old.locals }
{
    if !covers(place, range) {
        return Ok(true);
    }
    put_alone(PlaceType::Ref(world.erase(caught_class(range))), frame)?;
    table.enter(alloc, world, range.handler, frame)
}

/// Takes a frame's locals, with what is caught alone on the stack, to the handlers of the ranges that have a place.
pub(crate) fn enter_handlers(
    alloc: Global,
    world: &World<'_>,
    place: u16,
    ranges: &[CatchRange],
    frame: &mut FrameType,
    table: &mut Table,
) -> Result<bool, AllocError>
    requires table { IsTable (types_of (classes_of world.now)) table.old }
    requires proper { IsProper (types_of (classes_of world.now)) table.old.max_locals (seen frame.old) }
    requires catches { All (CanCatch (classes_of world.now)) ranges.now }
    ensures { IfOk result
        (λ ok. Comes (types_of (classes_of world.now)) (caught (classes_of world.now) place (seen frame.old) ranges.now) ok
        table.old table.new) }
{
    for range in ranges {
        let entered = enter_handler(alloc, world, place, *range, frame, table)?;
        if !entered {
            return Ok(false);
        }
    }
    Ok(true)
}
