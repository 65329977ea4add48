//! The methods that an instruction can run.
ghost use Rattle.class_world.specs.Worlds.{classes_of};
ghost use Rattle.std.specs.Prelude.{◌≡◌, IfOk};
ghost use Rattle.std.specs.Option.{option_to_list};
ghost use Rattle.class_world.specs.class_read.View.{method_content};
ghost use Rattle.class_program.specs.inner.Rows.{IsRow, AreRows};
ghost use Rattle.class_program.specs.Runs.{with_body, selected_body, selections, call_selections, runs};

use crate::op::{Call, Op};
use crate::receivers::receivers;
use crate::selections::{Selections, selected};
use class_world::class_read::MethodView;
use class_world::{MethodRef, World};
use list_views::Seq;
use std::alloc::{AllocError, Global};

/// The method, unless it is abstract.
#[tactic(auto, unfolding(crate::specs::Runs::with_body))]
fn with_body(world: &World<'_>, method: MethodRef) -> Option<MethodRef>
    ensures { result ≡ with_body (classes_of world.now) method }
{
    if !world.has_body(method) {
        return None;
    }
    Some(method)
}

/// What a receiver's class selects, unless it is abstract.
#[tactic(auto, unfolding(crate::specs::Runs::selected_body))]
fn selected_body(
    world: &World<'_>,
    row: &[Option<MethodRef>],
    named: &MethodView<'_>,
    class: u32,
) -> Option<MethodRef>
    requires { IsRow (classes_of world.now) (method_content named.now) row.now }
    ensures { result ≡ selected_body (classes_of world.now) named.now.name.now named.now.desc.now class }
{
    let selected = selected(world, row, named, class)?;
    with_body(world, selected)
}

/// What each class that a receiver can be of selects, class by class.
#[tactic(auto, unfolding(crate::specs::Runs::selections))]
fn selections(
    world: &World<'_>,
    alloc: Global,
    row: &[Option<MethodRef>],
    class: u32,
    method: &MethodView<'_>,
) -> Result<Seq<MethodRef>, AllocError>
    requires { IsRow (classes_of world.now) (method_content method.now) row.now }
    ensures { IfOk result (λ found. found ≡ selections (classes_of world.now) class (method_content method.now)) }
{
    let receivers = receivers(world, alloc, class)?;
    let mut found = Seq::new(alloc);
    for class in receivers.as_slice() {
        if let Some(selected) = selected_body(world, row, method, *class) {
            found.push(selected)?;
        }
    }
    Ok(found)
}

/// What a call that selects by its receiver's class can run.
#[tactic(auto, unfolding(crate::specs::Runs::call_selections))]
fn call_selections(
    world: &World<'_>,
    alloc: Global,
    rows: &mut Selections,
    call: &Call,
) -> Result<Seq<MethodRef>, AllocError>
    requires { AreRows (classes_of world.now) rows.now }
    ensures found { IfOk result (λ found. found ≡ call_selections (classes_of world.now) call.now) }
    ensures rows { IfOk result (λ _. AreRows (classes_of world.now) rows.new) }
{
    match world.method_at(call.method) {
        Some(method) => {
            rows.add(world, alloc, call.method, method)?;
            selections(world, alloc, rows.row(call.method), call.class, method)
        }
        None => Ok(Seq::new(alloc)),
    }
}

/// The method of a call that doesn't select, unless it is abstract.
fn one_with_body(
    world: &World<'_>,
    alloc: Global,
    call: &Call,
) -> Result<Seq<MethodRef>, AllocError>
    ensures { IfOk result (λ found. found ≡ option_to_list (with_body (classes_of world.now) call.now.method)) }
{
    let mut found = Seq::new(alloc);
    if let Some(method) = with_body(world, call.method) {
        found.push(method)?;
    }
    Ok(found)
}

/// The methods that an instruction can run, in order.
///
/// # Errors
///
/// Want of memory.
#[tactic(auto, unfolding(crate::specs::Runs::runs))]
pub(crate) fn runs(
    world: &World<'_>,
    alloc: Global,
    rows: &mut Selections,
    op: &Op,
) -> Result<Seq<MethodRef>, AllocError>
    requires { AreRows (classes_of world.now) rows.now }
    ensures found { IfOk result (λ found. found ≡ runs (classes_of world.now) op.now) }
    ensures rows { IfOk result (λ _. AreRows (classes_of world.now) rows.new) }
{
    match op {
        Op::Invokestatic(call) => one_with_body(world, alloc, call),
        Op::Invokespecial(call) => one_with_body(world, alloc, call),
        Op::Invokevirtual(call) => call_selections(world, alloc, rows, call),
        Op::Invokeinterface(call) => call_selections(world, alloc, rows, call),
        _ => Ok(Seq::new(alloc)),
    }
}
