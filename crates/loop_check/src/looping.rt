//! The check of a graph that is to show that no run ends, and of a state with which one begins.
ghost use Rattle.std.specs.Prelude.{◌≡◌, ◌≤◌, ◌^◌, ◌-◌, length, OnOk};
ghost use Rattle.class_program.specs.Views.{program_of};
ghost use Rattle.code_verify.specs.Typings.{IsTypingOf, typing_at};
ghost use Rattle.input_desc.specs.Descs.{IsOwnDesc};
ghost use Rattle.input_desc.specs.Initial.{initial_of};
ghost use Rattle.input_desc.specs.States.{IsTypedInput};
ghost use Rattle.loop_check.specs.Fitting.{ChecksLoop};
ghost use Rattle.loop_check.specs.Laws.{AllGoOn};
ghost use Rattle.loop_check.specs.inner.Words.{Answers, FitsOr, Idles};

use crate::ends::first_end;
use crate::fault::{LoopFault, fault_of};
use crate::idling::idle_rows;
use crate::laws::loops_never_end;
use abs_cells::{AbsState, Pairs};
use class_program::Program;
use code_verify::Typing;
use graph_check::check_graph;
use input_desc::{Desc, StateInput};
use input_fits::fits;
use number_graphs::{Ranking, falling_has_no_cycle, rank};
use std::alloc::Global;
use term_graph::{Links, NodeSource};

/// Whether no cycle is of edges that are no steps.
///
/// # Errors
///
/// The least node on such a cycle; or want of memory.
fn never_idles<P: Pairs, S: NodeSource<P>>(
    alloc: Global,
    source: &mut S,
    links: &Links,
) -> Result<(), LoopFault>
    requires few { length (S.graph source.old) ≤ 2 ^ 32 - 16 }
    ensures idles { Idles (S.graph source.old) links.now.nodes result }
    ensures same { S.graph source.new ≡ S.graph source.old }
{
    falling_has_no_cycle();
    let rows = idle_rows(alloc, source, links)?;
    match rank(alloc, rows.as_slice())? {
        Ranking::Ranks(_ranks) => Ok(()),
        Ranking::Cycle(node) => Err(LoopFault::IdleCycle { node }),
    }
}

/// Whether a graph shows that no run ends: it is a good one with the root's state at node 0, it has no `End` node, and no cycle is
/// of edges that are no steps of the machine. Then every run of a state that fits the root goes on for ever (`loops_never_end`).
///
/// # Errors
///
/// The first fault of the graph, else its least `End` node, else the least node on a cycle of edges none of which is a step; or
/// want of memory.
fn never_ends<P: Pairs, S: NodeSource<P>>(
    alloc: Global,
    program: &Program<'_>,
    typing: &Typing,
    source: &mut S,
    root: &AbsState<P>,
) -> Result<(), LoopFault>
    requires few { length (S.graph source.old) ≤ 2 ^ 32 - 16 }
    ensures tells { Answers (program_of program.now) (typing_at typing.now) (S.graph source.old) root.now result }
    ensures same { S.graph source.new ≡ S.graph source.old }
{
    let links = match check_graph(alloc, program, typing, source, root) {
        Ok(links) => links,
        Err(fault) => return Err(fault_of(fault)),
    };
    let found = first_end(alloc, source)?;
    match found {
        Some(node) => Err(LoopFault::EndNode { node }),
        None => never_idles(alloc, source, &links),
    }
}

/// Whether a run with what is given begins in a state that a description fits.
///
/// # Errors
///
/// `NotFitting` where it doesn't; or want of memory.
fn given_fits(
    alloc: Global,
    program: &Program<'_>,
    desc: &Desc,
    input: &StateInput,
) -> Result<(), LoopFault>
    requires typed { IsTypedInput (program_of program.now) input.now }
    ensures { FitsOr (program_of program.now) desc.now input.now result }
{
    let args = input.args.as_slice();
    let statics = input.statics.as_slice();
    let fitting = fits(alloc, program, desc, args, statics, &input.heap)?;
    if fitting {
        Ok(())
    } else {
        Err(LoopFault::NotFitting)
    }
}

/// Whether a graph shows that no run of a state that a description fits ends, and what is given is such a state: the graph is a good one
/// with the description's initial state at node 0, it has no `End` node, and no cycle is of edges that are no steps of the machine; and a
/// run with these arguments, values of static fields and heap begins in a state that the description fits. Then every such state, and the
/// given one among them, goes on for ever.
///
/// # Errors
///
/// The first fault of the graph, else its least `End` node, else the least node on a cycle of edges none of which is a step, else
/// `NotFitting` where the state is none that the description fits; or want of memory.
pub fn check_loop<P: Pairs, S: NodeSource<P>>(
    alloc: Global,
    program: &Program<'_>,
    typing: &Typing,
    desc: &Desc,
    source: &mut S,
    root: &AbsState<P>,
    input: &StateInput,
) -> Result<(), LoopFault>
    requires typing { IsTypingOf (program_of program.now) (typing_at typing.now) }
    requires own { IsOwnDesc (program_of program.now) desc.now }
    requires root { root.now ≡ initial_of (program_of program.now) desc.now }
    requires typed { IsTypedInput (program_of program.now) input.now }
    requires few { length (S.graph source.old) ≤ 2 ^ 32 - 16 }
    ensures tells { ChecksLoop (program_of program.now) (typing_at typing.now) desc.now (S.graph source.old) input.now result }
    ensures forever { OnOk result (AllGoOn (program_of program.now) desc.now) }
    ensures same { S.graph source.new ≡ S.graph source.old }
{
    program.is_good();
    loops_never_end();
    match never_ends(alloc, program, typing, source, root) {
        Ok(()) => given_fits(alloc, program, desc, input),
        Err(fault) => Err(fault),
    }
}
