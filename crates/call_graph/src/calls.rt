//! The calls of a program, listed.
ghost use Rattle.std.specs.Prelude.{◌≡◌, ◌<◌, ◌+◌, ◌^◌, ◌++◌, length, IfOk, OnOk};
ghost use Rattle.std.specs.Option.{option_to_list};
ghost use Rattle.class_program.specs.Views.{program_of};
ghost use Rattle.call_graph.specs.inner.Listed.{class_run, class_runs, op_runs, place_runs, method_runs, graph_of};

use class_program::{Op, Program, Selected};
use jvm_values::Types;
use list_views::Seq;
use std::alloc::{AllocError, Global};

/// What the call at a place runs on an object of a class.
#[tactic(auto, unfolding(crate::specs::inner::Listed::class_run))]
fn class_run(program: &Program<'_>, method: u32, pc: u16, class: u32) -> Option<u32>
    ensures { result ≡ class_run (program_of program.now) method pc class }
{
    if !program.can_receive(method, pc, class) {
        return None;
    }
    match program.select(method, pc, class) {
        Selected::Method(number) => Some(number),
        Selected::Abstract => None,
        Selected::NoInterface => None,
    }
}

/// Puts a number at the end, where there is one.
fn push_some(found: &mut Seq<u32>, number: Option<u32>) -> Result<(), AllocError>
    ensures { OnOk result (found.new ≡ found.old ++ option_to_list number) }
{
    if let Some(number) = number {
        found.push(number)?;
    }
    Ok(())
}

/// What it runs on objects of all classes.
#[tactic(auto, unfolding(crate::specs::inner::Listed::class_runs))]
fn class_runs(
    alloc: Global,
    program: &Program<'_>,
    method: u32,
    pc: u16,
) -> Result<Seq<u32>, AllocError>
    ensures { IfOk result (λ found. found ≡ class_runs (program_of program.now) method pc) }
{
    let mut found = Seq::new(alloc);
    for class in 0..program.world.classes() {
        push_some(&mut found, class_run(program, method, pc, class))?;
    }
    Ok(found)
}

/// The target of a call that has one.
fn target_runs(alloc: Global, target: Option<u32>) -> Result<Seq<u32>, AllocError>
    ensures { IfOk result (λ found. found ≡ option_to_list target) }
{
    let mut found = Seq::new(alloc);
    push_some(&mut found, target)?;
    Ok(found)
}

/// What an instruction can run.
fn op_runs(
    alloc: Global,
    program: &Program<'_>,
    method: u32,
    pc: u16,
    op: &Op,
) -> Result<Seq<u32>, AllocError>
    ensures { IfOk result (λ found. found ≡ op_runs (program_of program.now) method pc op.now) }
{
    match op {
        Op::Invokestatic(call) => target_runs(alloc, call.target),
        Op::Invokespecial(call) => target_runs(alloc, call.target),
        Op::Invokevirtual(_) => class_runs(alloc, program, method, pc),
        Op::Invokeinterface(_) => class_runs(alloc, program, method, pc),
        _ => Ok(Seq::new(alloc)),
    }
}

/// What the instruction at a place can run.
#[tactic(auto, unfolding(crate::specs::inner::Listed::place_runs))]
fn place_runs(
    alloc: Global,
    program: &Program<'_>,
    method: u32,
    pc: u16,
) -> Result<Seq<u32>, AllocError>
    ensures { IfOk result (λ found. found ≡ place_runs (program_of program.now) method pc) }
{
    match program.at(method, pc) {
        Some((op, _)) => op_runs(alloc, program, method, pc, op),
        None => Ok(Seq::new(alloc)),
    }
}

/// What the instructions of a method can run.
#[tactic(auto, unfolding(crate::specs::inner::Listed::method_runs))]
fn method_runs(
    alloc: Global,
    program: &Program<'_>,
    method: u32,
    insns: &[(u16, Op)],
) -> Result<Seq<u32>, AllocError>
    ensures { IfOk result (λ found. found ≡ method_runs (program_of program.now) method insns.now) }
{
    let mut found = Seq::new(alloc);
    for (pc, _) in insns {
        let more = place_runs(alloc, program, method, *pc)?;
        found.extend_from_slice(more.as_slice())?;
    }
    Ok(found)
}

/// What each method can run.
///
/// # Errors
///
/// Want of memory, which also answers more methods than 32 bits count.
pub(crate) fn graph(alloc: Global, program: &Program<'_>) -> Result<Seq<Seq<u32>>, AllocError>
    ensures graph { IfOk result (λ graph. graph ≡ graph_of (program_of program.now)) }
    ensures few { IfOk result (λ graph. length graph + 1 < 2 ^ 32) }
{
    let methods = program.methods.as_slice();
    if methods.len() > 0xffff_fffe {
        return Err(AllocError);
    }
    let mut graph = Seq::new(alloc);
    for (number, method) in methods.iter().enumerate() {
        graph.push(method_runs(alloc, program, number as u32, method.insns.as_slice())?)?;
    }
    Ok(graph)
}
