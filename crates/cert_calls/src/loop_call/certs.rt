//! What is said of a certificate, where its program, its description and its state are good.
ghost use Rattle.std.specs.Prelude.{◌≡◌, ◌≤◌, ◌^◌, ◌-◌, length};
ghost use Rattle.class_program.specs.Views.{program_of};
ghost use Rattle.code_verify.specs.Typings.{IsTypingOf, typing_at};
ghost use Rattle.input_desc.specs.Descs.{IsOwnDesc};
ghost use Rattle.input_desc.specs.Initial.{initial_of};
ghost use Rattle.input_desc.specs.States.{IsTypedInput};
ghost use Rattle.cert_form.specs.Certificates.{LackingAreNamed};
ghost use Rattle.term_graph.specs.Limits.{most_nodes};
ghost use Rattle.cert_calls.specs.loop_call.Answers.{OfNodes, OfContent};
ghost use Rattle.cert_calls.specs.loop_call.inner.Words.{GoOnIfDone, Shows};

use crate::loop_call::outcome::{never_ends, refused};
use abs_cells::{AbsState, PackedPairs, Pairs};
use cert_form::CertText;
use check_call::{Outcome, refuse_text};
use class_program::Program;
use code_verify::Typing;
use desc_steps::class_names;
use graph_fill::filled;
use input_desc::{Desc, StateInput, initial};
use input_steps::Refused;
use loop_check::check_loop;
use std::alloc::Global;
use term_graph::NodeSource;

/// What is said of nodes.
#[tactic(auto, using(crate::proofs::LoopSaying::shown, crate::proofs::LoopSaying::unshown, crate::proofs::LoopSaying::shown_ever, crate::proofs::LoopSaying::unshown_ever))]
fn of_nodes<P: Pairs, S: NodeSource<P>>(
    alloc: Global,
    program: &Program<'_>,
    typing: &Typing,
    desc: &Desc,
    input: &StateInput,
    root: &AbsState<P>,
    nodes: &mut S,
) -> Result<Outcome, Refused>
    requires typing { IsTypingOf (program_of program.now) (typing_at typing.now) }
    requires own { IsOwnDesc (program_of program.now) desc.now }
    requires root { root.now ≡ initial_of (program_of program.now) desc.now }
    requires typed { IsTypedInput (program_of program.now) input.now }
    requires few { length (S.graph nodes.old) ≤ 2 ^ 32 - 16 }
    ensures nodes { OfNodes (program_of program.now) (typing_at typing.now) desc.now input.now (S.graph nodes.old) result }
    ensures ever { GoOnIfDone (program_of program.now) desc.now result }
{
    match check_loop(alloc, program, typing, desc, nodes, root, input) {
        Ok(()) => never_ends(alloc),
        Err(fault) => refused(alloc, fault),
    }
}

/// What is said of what a certificate says.
#[tactic(auto, using(graph_fill::proofs::Lacking::few_filled, crate::proofs::LoopSaying::content_goes))]
fn of_text(
    alloc: Global,
    program: &Program<'_>,
    typing: &Typing,
    desc: &Desc,
    input: &StateInput,
    root: &AbsState<PackedPairs>,
    text: &CertText<'_>,
) -> Result<Outcome, Refused>
    requires typing { IsTypingOf (program_of program.now) (typing_at typing.now) }
    requires own { IsOwnDesc (program_of program.now) desc.now }
    requires root { root.now ≡ initial_of (program_of program.now) desc.now }
    requires typed { IsTypedInput (program_of program.now) input.now }
    requires named { LackingAreNamed text.now.parts }
    requires few { length text.now.parts ≤ most_nodes }
    ensures content { OfContent (program_of program.now) (typing_at typing.now) desc.now input.now text.now result }
    ensures ever { GoOnIfDone (program_of program.now) desc.now result }
{
    let mut nodes = filled::<PackedPairs, _>(alloc, program, typing, text)?;
    nodes.begin(true);
    of_nodes(alloc, program, typing, desc, input, root, &mut nodes)
}

/// What is said of the bytes of a certificate.
#[tactic(auto, using(crate::proofs::LoopSaying::text_shows, crate::proofs::LoopSaying::none_shows))]
pub(crate) fn loop_bytes(
    alloc: Global,
    program: &Program<'_>,
    typing: &Typing,
    desc: &Desc,
    input: &StateInput,
    cert: &[u8],
) -> Result<Outcome, Refused>
    requires typing { IsTypingOf (program_of program.now) (typing_at typing.now) }
    requires own { IsOwnDesc (program_of program.now) desc.now }
    requires typed { IsTypedInput (program_of program.now) input.now }
    ensures { Shows cert.now (program_of program.now) (typing_at typing.now) desc.now input.now result }
{
    let names = class_names(alloc, &program.world)?;
    let root: AbsState<PackedPairs> = initial(alloc, desc, program)?;
    match CertText::read(alloc, cert, &names) {
        Ok(text) => of_text(alloc, program, typing, desc, input, &root, &text),
        Err(fault) => refuse_text(alloc, fault),
    }
}
