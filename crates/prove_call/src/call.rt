//! The command `prove`.
ghost use Rattle.std.specs.Prelude.{◌≤◌, length, map, IsTrue};
ghost use Rattle.std.specs.List.{list_all};
ghost use Rattle.class_base.specs.ClassNames.{is_class_name};
ghost use Rattle.class_base.specs.Limits.{most_classes};
ghost use Rattle.class_world.specs.Worlds.{classes_of};
ghost use Rattle.class_program.specs.Views.{program_of};
ghost use Rattle.code_verify.specs.Typings.{typing_at};
ghost use Rattle.desc_steps.specs.Given.{IsReady};
ghost use Rattle.desc_steps.specs.Headline.{AllFittingEnd};
ghost use Rattle.desc_steps.specs.Names.{names_of};
ghost use Rattle.term_graph.specs.Limits.{most_nodes};
ghost use Rattle.prove_call.specs.Answers.{SaysOf, Answers};
ghost use Rattle.prove_call.specs.Headline.{IsProved, AllEndIfYes};

use crate::answer::{Answer, told};
use cert_check::certified_runs_end;
use desc_steps::{DescribedProgram, class_names, described_program};
use input_steps::Refused;
use prove_core::{SearchFault, search};
use std::alloc::Global;

/// What is said of a program whose inputs are described.
fn prove_given(alloc: Global, given: &DescribedProgram<'_>, nodes: u32) -> Result<Answer, Refused>
    requires ready { IsReady given.now }
    requires names { IsTrue (list_all is_class_name (names_of (classes_of given.now.program.world))) }
    requires positive { 1 ≤ nodes }
    requires small { nodes ≤ most_nodes }
    ensures says { SaysOf nodes (program_of given.now.program) (typing_at given.now.typing) given.now.desc result }
    ensures ends { IsProved result → AllFittingEnd (program_of given.now.program) given.now.desc }
{
    given.program.is_good();
    certified_runs_end();
    let names = class_names(alloc, &given.program.world)?;
    match search(
        alloc,
        &given.program,
        &given.typing,
        &given.desc,
        &names,
        nodes,
    ) {
        Ok(found) => told(alloc, &given.program, found),
        Err(SearchFault::Memory) => Err(Refused::Memory),
    }
}

/// What `prove` puts on its output, with its exit status: `YES`, a certificate and status 0, where one is found that
/// every run of the method that the description names ends, from inputs that it describes; else a text that begins
/// with `MAYBE`, status 1, and the reason that it tells, which holds. The graph that is searched has at most so many
/// nodes, from 1 to 20,000. There are at most 256 class files.
///
/// # Errors
///
/// The first fault with its place: of a class file, in order; of the description's text; of the classes as a world; of the method's
/// name; of its program; a cycle of calls; a method without a typing; of the description against the program. Want of memory.
pub fn prove_line(
    alloc: Global,
    desc: &[u8],
    files: &[Vec<u8>],
    nodes: u32,
) -> Result<Answer, Refused>
    requires few { length files.now ≤ most_classes }
    requires positive { 1 ≤ nodes }
    requires small { nodes ≤ most_nodes }
    ensures answers { Answers nodes desc.now (map (λ file. file.items) files.now) result }
    ensures headline { AllEndIfYes (map (λ file. file.items) files.now) desc.now result }
{
    match described_program(alloc, desc, files) {
        Ok(given) => prove_given(alloc, &given, nodes),
        Err(refused) => Err(refused),
    }
}
