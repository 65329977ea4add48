//! The expansion of an abstract state.
ghost use Rattle.std.specs.Prelude.{◌≡◌, ◌≤◌, ◌<◌, ◌+◌, ◌^◌, map, length, IfOk, MatchOption, Err};
ghost use Rattle.std.specs.List.{AllByRecursion, AllZip};
ghost use Rattle.abs_cells.specs.Limits.{most_ids};
ghost use Rattle.abs_cells.specs.Sound.{IsWellFormed};
ghost use Rattle.abs_heap.specs.declared.fault.HeapFault.TheVariants as faults;
ghost use Rattle.class_program.specs.Views.{program_of};
ghost use Rattle.class_program.specs.class_world.WorldTypes.{types_of};
ghost use Rattle.abs_plans.specs.abs_turns.code_verify.Typings.{typing_at};
ghost use Rattle.abs_plans.specs.abs_turns.Plans.{ids_made, steps};
ghost use Rattle.abs_plans.specs.abs_turns.GoodPlans.{IsGoodTurn};
ghost use Rattle.abs_plans.specs.abs_turns.PlansSeen.{turn_seen};
ghost use Rattle.abs_expand.specs.Answers.{Answers, HasPlanChildren};
ghost use Rattle.abs_expand.specs.inner.Building.{IsChildOf, turn_counts};
ghost use Rattle.abs_expand.specs.declared.fault.ExpandFault.TheVariants.{Memory};
ghost use Rattle.abs_expand.specs.Expansions.{AreFew, IsFirstTooMany};

use crate::children::child;
use crate::clauses::bad_clause;
use crate::fault::ExpandFault;
use crate::splitting::{class_children, equal_children, null_children};
use abs_cells::{AbsState, MOST_IDS, Pairs};
use abs_heap::HeapFault;
use abs_plans::abs_turns::code_verify::Typing;
use abs_plans::abs_turns::{Act, Plan, Turn};
use abs_plans::plan;
use abs_reach::Marks;
use class_program::Program;
use jvm_values::Types;
use list_views::Seq;
use std::alloc::Global;
use term_graph::Child;

/// How many ids a step makes.
fn made<P: Pairs>(program: &Program<'_>, state: &AbsState<P>, turn: &Turn) -> usize
    requires { IsGoodTurn (types_of (program_of program.now).world) state.now (turn_seen turn.now) }
    ensures is { result ≡ ids_made (types_of (program_of program.now).world) (turn_seen turn.now).act }
    ensures few { result + 2048 < 2 ^ 64 }
{
    match turn.act {
        Act::Nothing | Act::Writes(_) => 0,
        Act::Makes(_) | Act::Item(_) | Act::Array(_, _) => 1,
        Act::Object(class) => 1 + program.world.fields(class).len(),
    }
}

/// The first step whose child has too many ids.
fn first_too_many<P: Pairs>(
    program: &Program<'_>,
    state: &AbsState<P>,
    count: usize,
    turns: &[Turn],
) -> Option<usize>
    requires few { count ≤ 2048 }
    requires turns { AllByRecursion (IsGoodTurn (types_of (program_of program.now).world) state.now) (map turn_seen turns.now) }
    ensures { MatchOption result (AreFew (turn_counts (types_of (program_of program.now).world) count (map turn_seen turns.now)))
        (λ n. IsFirstTooMany (turn_counts (types_of (program_of program.now).world) count (map turn_seen turns.now)) n) }
{
    for n in 0..turns.len() {
        if count + made(program, state, &turns[n]) > MOST_IDS {
            return Some(n);
        }
    }
    None
}

/// The children of steps, in order.
fn children_of<P: Pairs>(
    alloc: Global,
    program: &Program<'_>,
    state: &AbsState<P>,
    turns: Seq<Turn>,
    marks: &mut Marks,
) -> Result<Seq<Child<P>>, HeapFault>
    requires good { IsWellFormed state.now }
    requires turns { AllByRecursion (λ turn. IsGoodTurn (types_of (program_of program.now).world) state.now (turn_seen turn)) turns }
    requires room { AllByRecursion (λ turn. length state.now.cells + ids_made (types_of (program_of program.now).world)
        (turn_seen turn).act ≤ most_ids) turns }
    ensures children { IfOk result (λ children. AllZip (λ turn child. IsChildOf (types_of (program_of program.now).world) state.now
        (turn_seen turn) child) turns children) }
    ensures never { result ≡ Err faults.TooManyIds → ⊥ }
{
    let mut children = Seq::new(alloc);
    for turn in turns.into_vec() {
        children.push(child(alloc, program, state, turn, marks)?)?;
    }
    Ok(children)
}

/// The fault of a step whose ids are few enough: want of memory.
fn fault_of(fault: HeapFault) -> ExpandFault
    requires { fault ≡ faults.TooManyIds → ⊥ }
    ensures { result ≡ Memory }
{
    match fault {
        HeapFault::Memory => ExpandFault::Memory,
        HeapFault::TooManyIds => unreachable!(),
    }
}

/// The children of steps, or the first that has too many ids.
fn children<P: Pairs>(
    alloc: Global,
    program: &Program<'_>,
    state: &AbsState<P>,
    turns: Seq<Turn>,
    marks: &mut Marks,
) -> Result<Option<Seq<Child<P>>>, ExpandFault>
    requires good { IsWellFormed state.now }
    requires turns { AllByRecursion (IsGoodTurn (types_of (program_of program.now).world) state.now) (map turn_seen turns) }
    ensures { HasPlanChildren (types_of (program_of program.now).world) state.now (steps (map turn_seen turns)) result }
{
    if let Some(child) = first_too_many(program, state, state.cells().len(), turns.as_slice()) {
        return Err(ExpandFault::TooManyIds { child });
    }
    match children_of(alloc, program, state, turns, marks) {
        Ok(children) => Ok(Some(children)),
        Err(fault) => Err(fault_of(fault)),
    }
}

/// What becomes of a state at its instruction: None where the run ends with the next step, else the children, in order, each
/// with its link and without the ids that nothing reaches.
///
/// # Errors
///
/// The first clause that the state breaks; the first child that has more than 512 ids; or want of memory.
pub fn expand<P: Pairs>(
    alloc: Global,
    program: &Program<'_>,
    typing: &Typing,
    state: &AbsState<P>,
    marks: &mut Marks,
) -> Result<Option<Seq<Child<P>>>, ExpandFault>
    ensures { Answers (program_of program.now) (typing_at typing.now) state.now result }
{
    if let Some(clause) = bad_clause(program, typing, state) {
        return Err(ExpandFault::BadState { clause });
    }
    match plan(alloc, program, typing, state)? {
        Plan::Ends => Ok(None),
        Plan::Steps(turns) => children(alloc, program, state, turns, marks),
        Plan::ByNull(x) => null_children(alloc, state, x, marks),
        Plan::ByClass(x, wanted) => class_children(alloc, program, state, x, wanted, marks),
        Plan::ByEqual(x, y) => equal_children(alloc, program, state, x, y, marks),
    }
}
