//! How the graph of a program's runs grows.
ghost use Rattle.std.specs.Prelude.{◌≡◌, ℕ, true, IfOk, map};
ghost use Rattle.abs_cells.specs.Cells.{HasCell};
ghost use Rattle.abs_cells.specs.Sound.{IsWellFormed};
ghost use Rattle.abs_expand.specs.declared.fault.ExpandFault.TheVariants.{BadState};
ghost use Rattle.abs_reach.specs.Reached.{IsReached};
ghost use Rattle.class_program.specs.Views.{program_of};
ghost use Rattle.code_verify.specs.Typings.{typing_at};
ghost use Rattle.frame_types.specs.Tables.{CodeTypes};
ghost use Rattle.graph_build.specs.Growing.{GrowsOr, MatchesOr, WidensOr};
ghost use Rattle.graph_build.specs.Rules.{HaveSamePositions};
ghost use Rattle.prove_core.specs.Growth.{growth_of};
ghost use Rattle.prove_core.specs.inner.Words.{Scope, CanGrow, BecomesThese, IsGrowFault};

use crate::heads;
use abs_cells::{AbsState, Id, Pairs};
use abs_expand::{ExpandFault, expand};
use abs_match::find_map;
use abs_reach::Marks;
use abs_widen::{WidenFault, widen};
use class_program::Program;
use code_verify::Typing;
use graph_build::{GrowFault, Grower, Grown};
use graph_laws::grow_laws::{children_grow, growing_states_stand_alike, widenings_grow};
use list_views::Seq;
use std::alloc::{AllocError, Global};
use term_graph::Child;

/// Grows by a program and its typing.
#[derive(Drop)]
pub(crate) struct RunGrower<'a, 'b> {
    pub(crate) program: &'a Program<'b>,
    pub(crate) typing: &'a Typing,
    pub(crate) marks: Marks,
}

/// The states of children.
fn states_of<P: Pairs>(
    alloc: Global,
    children: Seq<Child<P>>,
) -> Result<Seq<AbsState<P>>, AllocError>
    ensures { IfOk result (λ states. states ≡ map (λ child. child.state) children) }
{
    let mut states = Seq::new(alloc);
    for child in children.into_vec() {
        let (state, _link) = child.into_parts();
        states.push(state)?;
    }
    Ok(states)
}

/// What a state with these children becomes.
fn grown_of<P: Pairs>(alloc: Global, children: Seq<Child<P>>) -> Result<Grown<P>, GrowFault>
    ensures { BecomesThese children result }
{
    let states = states_of(alloc, children)?;
    Ok(Grown::Children(states))
}

/// The fault of an expansion, as one of growing, where the state breaks no clause.
fn fault_of(fault: ExpandFault) -> GrowFault
    requires { (clause : ℕ) → fault ≡ BadState clause → ⊥ }
    ensures { IsGrowFault fault result }
{
    match fault {
        ExpandFault::TooManyIds { .. } => GrowFault::TooManyIds,
        ExpandFault::BadState { .. } => unreachable!(),
        ExpandFault::Memory => GrowFault::Memory,
    }
}

/// What a state becomes.
fn expanded<P: Pairs>(
    alloc: Global,
    program: &Program<'_>,
    typing: &Typing,
    state: &AbsState<P>,
    marks: &mut Marks,
) -> Result<Grown<P>, GrowFault>
    requires { CanGrow (program_of program.now) (typing_at typing.now) state.now }
    ensures { GrowsOr (growth_of (program_of program.now) (typing_at typing.now))
        (CanGrow (program_of program.now) (typing_at typing.now)) state.now result }
{
    program.is_good();
    children_grow();
    match expand(alloc, program, typing, state, marks) {
        Ok(Some(children)) => grown_of(alloc, children),
        Ok(None) => Ok(Grown::End),
        Err(fault) => Err(fault_of(fault)),
    }
}

/// A map by which a state is an instance of another one.
fn matched<P: Pairs>(
    alloc: Global,
    program: &Program<'_>,
    state: &AbsState<P>,
    other: &AbsState<P>,
    marks: &mut Marks,
) -> Result<Option<Seq<(Id, Id)>>, AllocError>
    requires good { IsWellFormed state.now }
    requires reached { (id : ℕ) → HasCell (λ _. true) other.now id → IsReached other.now id }
    ensures { (typing : ℕ → CodeTypes) → MatchesOr (growth_of (program_of program.now) typing) state.now other.now result }
{
    match find_map(alloc, &program.world, state, other, marks)? {
        Some(map) => Ok(Some(Seq::from_vec(map))),
        None => Ok(None),
    }
}

/// The widening of a state by another one with the same positions.
fn widened<P: Pairs>(
    alloc: Global,
    program: &Program<'_>,
    typing: &Typing,
    above: &AbsState<P>,
    state: &AbsState<P>,
    marks: &mut Marks,
) -> Result<AbsState<P>, GrowFault>
    requires above { CanGrow (program_of program.now) (typing_at typing.now) above.now }
    requires state { CanGrow (program_of program.now) (typing_at typing.now) state.now }
    requires positions { HaveSamePositions state.now above.now }
    ensures { WidensOr (growth_of (program_of program.now) (typing_at typing.now))
        (CanGrow (program_of program.now) (typing_at typing.now)) above.now state.now result }
{
    program.is_good();
    growing_states_stand_alike();
    widenings_grow();
    match widen(alloc, &program.world, above, state, marks) {
        Ok(wide) => Ok(wide),
        Err(WidenFault::TooManyIds) => Err(GrowFault::TooManyIds),
        Err(WidenFault::Memory) => Err(GrowFault::Memory),
    }
}

impl<P: Pairs> Grower<P> for RunGrower<'_, '_> {
    ghost Meaning = { Scope };

    ghost meaning = { λ grower. record { program = program_of grower.program.now; typing = typing_at grower.typing.now } };

    ghost rules = { λ scope. growth_of scope.program scope.typing };

    ghost good = { λ scope. CanGrow scope.program scope.typing };

    fn expand(&mut self, alloc: Global, state: &AbsState<P>) -> Result<Grown<P>, GrowFault> {
        expanded(alloc, self.program, self.typing, state, &mut self.marks)
    }

    fn matches(
        &mut self,
        alloc: Global,
        state: &AbsState<P>,
        other: &AbsState<P>,
    ) -> Result<Option<Seq<(Id, Id)>>, AllocError> {
        matched(alloc, self.program, state, other, &mut self.marks)
    }

    fn widen(
        &mut self,
        alloc: Global,
        above: &AbsState<P>,
        state: &AbsState<P>,
    ) -> Result<AbsState<P>, GrowFault> {
        widened(
            alloc,
            self.program,
            self.typing,
            above,
            state,
            &mut self.marks,
        )
    }

    fn is_head(&self, state: &AbsState<P>) -> bool {
        heads::is_head(self.program, state)
    }
}
