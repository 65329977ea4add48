//! Filled certificates as they are written.
ghost use Rattle.std.specs.Prelude.{◌≡◌, IfOk, IsTrue};
ghost use Rattle.std.specs.List.{list_all};
ghost use Rattle.class_base.specs.ClassNames.{is_class_name};
ghost use Rattle.check_call.specs.FillTexts.{filled_text};

use abs_cells::Pairs;
use cert_form::ClassNames;
use cert_form::cert_write::encode;
use descent::Proof;
use list_views::Seq;
use std::alloc::{AllocError, Global};
use term_graph::NodeSource;

/// The text of a certificate in form 1, and a newline.
#[tactic(auto, using(crate::proofs::FillSaying::text_is))]
pub(crate) fn filled_text<P: Pairs, S: NodeSource<P>>(
    alloc: Global,
    nodes: &mut S,
    cuts: &[u32],
    proof: &Proof,
    names: &ClassNames,
) -> Result<Seq<u8>, AllocError>
    requires { IsTrue (list_all is_class_name names.now) }
    ensures { IfOk result (λ text. text ≡ filled_text names.now (S.graph nodes.old) cuts.now proof.now.steps) }
{
    let mut text = encode(alloc, nodes, false, cuts, proof, names)?;
    text.push(b'\n')?;
    Ok(text)
}
