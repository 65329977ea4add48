//! What is found is written, read again and checked before it is given.
ghost use Rattle.std.specs.Prelude.{◌≡◌, ◌≤◌, ℕ, length, map, IsTrue};
ghost use Rattle.std.specs.List.{list_all};
ghost use Rattle.abs_cells.specs.Limits.{most_ids};
ghost use Rattle.class_base.specs.ClassNames.{is_class_name};
ghost use Rattle.class_program.specs.Views.{program_of};
ghost use Rattle.code_verify.specs.Typings.{IsTypingOf, typing_at};
ghost use Rattle.term_graph.specs.Limits.{most_nodes};
ghost use Rattle.prove_core.specs.Answers.{SearchesOr};
ghost use Rattle.prove_core.specs.Reasons.{aim_of};
ghost use Rattle.prove_core.specs.inner.Words.{IsProved};

use crate::found::{Cert, Found, Reason, SearchFault};
use crate::stored::graph_is_stored;
use abs_cells::{AbsState, Pairs};
use cert_form::cert_write::encode;
use cert_form::{ClassNames, MOST_CERTIFICATE_BYTES};
use cert_verdict::{CertVerdict, judged};
use class_program::Program;
use code_verify::Typing;
use plan_links::links_fit;
use std::alloc::Global;

/// The bytes of a valid certificate, on which there was the verdict that they say one; or the certificate, where they are too many. There
/// is no other verdict.
#[tactic(auto, using(crate::proofs::Giving::too_long))]
pub(crate) fn given<P: Pairs>(
    alloc: Global,
    program: &Program<'_>,
    typing: &Typing,
    root: &AbsState<P>,
    names: &ClassNames,
    cert: Cert<P>,
) -> Result<Found<P>, SearchFault>
    requires names { IsTrue (list_all is_class_name names.now) }
    requires own_names { names.now ≡ map (λ class. class.name) (program_of program.now).world }
    requires root_ids { length root.now.cells ≤ most_ids }
    requires proved { IsProved (aim_of (program_of program.now) (typing_at typing.now) root.now) cert.graph cert.cuts cert.proof.steps }
    requires typing { IsTypingOf (program_of program.now) (typing_at typing.now) }
    requires few { length cert.graph ≤ most_nodes }
    ensures { (limit : ℕ) → length cert.graph ≤ limit → SearchesOr (aim_of (program_of program.now) (typing_at typing.now) root.now)
        names.now limit result }
{
    let Cert { graph, cuts, proof } = cert;
    graph_is_stored(&graph);
    links_fit();
    program.is_good();
    let mut graph = graph;
    let bytes = encode(alloc, &mut graph, true, cuts.as_slice(), &proof, names)?;
    if bytes.len() > MOST_CERTIFICATE_BYTES {
        let size = bytes.len() as u64;
        let cert = Cert { graph, cuts, proof };
        return Ok(Found::Maybe(Reason::Bytes { cert, size }));
    }
    let verdict = judged(alloc, program, typing, root, names, bytes.as_slice())?;
    match verdict {
        CertVerdict::Accepted => Ok(Found::Certificate(bytes)),
        _ => unreachable!(),
    }
}
