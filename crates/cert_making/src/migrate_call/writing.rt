//! Valid certificates in form 2.
ghost use Rattle.std.specs.Prelude.{◌++◌, ◌∷◌, [], IfOk, Ok, IsTrue};
ghost use Rattle.std.specs.List.{list_all};
ghost use Rattle.serde_json.specs.Written.{compact_text};
ghost use Rattle.class_base.specs.ClassNames.{is_class_name};
ghost use Rattle.cert_form.specs.Certificates.{cert_of, SaysOf};
ghost use Rattle.desc_steps.specs.Answers.{AnswersAs};
ghost use Rattle.cert_form.specs.cert_write.Data.{content_of, certificate};
ghost use Rattle.cert_form.specs.cert_write.Readable.{IsReadableGraph};

use abs_cells::Pairs;
use cert_form::ClassNames;
use cert_form::cert_write::encode;
use check_call::Outcome;
use descent::Proof;
use input_steps::Refused;
use std::alloc::Global;
use term_graph::Graph;

/// The text of a certificate in form 2, and a newline, with status 0.
pub(crate) fn migrated<P: Pairs>(
    alloc: Global,
    graph: &mut Graph<P>,
    cuts: &[u32],
    proof: &Proof,
    names: &ClassNames,
) -> Result<Outcome, Refused>
    requires { IsTrue (list_all is_class_name names.now) }
    ensures text { AnswersAs (record {
      status = 0;
      out = compact_text (certificate names.now
          (content_of graph.old cuts.now proof.now.steps)) ++ 10 ∷ [];
    }) result }
    ensures again { IsReadableGraph names.now graph.old cuts.now proof.now.steps → IfOk result (λ _. SaysOf (cert_of names.now)
        (compact_text (certificate names.now (content_of graph.old cuts.now proof.now.steps)))
        (Ok (content_of graph.old cuts.now proof.now.steps))) }
{
    let mut out = encode(alloc, graph, true, cuts, proof, names)?;
    out.push(b'\n')?;
    Ok(Outcome { status: 0, out })
}
