//! The certificate that was found, checked.
ghost use Rattle.std.specs.Prelude.{◌≡◌, ◌≤◌, length, map, List, ℕ, true};
ghost use Rattle.class_base.specs.Limits.{most_classes};
ghost use Rattle.desc_steps.specs.Answers.{AnswersAs};
ghost use Rattle.prove_call.specs.Lines.{yes_text};
ghost use Rattle.jterm.specs.inner.GenerateSaid.{HasAccepted};

use check_call::check_line;
use generate_text::description;
use input_steps::Refused;
use std::alloc::Global;

/// The certificate in the output of a `prove` that says YES: the bytes between its first line and its last newline.
#[tactic(auto, using(crate::proofs::GenerateCertificates::cut_out))]
fn certificate(out: &[u8]) -> &[u8]
    requires { (cert : List ℕ) × (out.now ≡ yes_text cert) }
    ensures { (cert : List ℕ) → out.now ≡ yes_text cert → result.now ≡ cert }
{
    let (_, rest) = out.split_at(4);
    let (cert, _) = rest.split_at(rest.len() - 1);
    cert
}

/// Whether `check` accepts the certificate in the output of a `prove` that says YES.
pub(crate) fn is_accepted(alloc: Global, out: &[u8], files: &[Vec<u8>]) -> Result<bool, Refused>
    requires few { length files.now ≤ most_classes }
    requires has { HasAccepted out.now (map (λ file. file.items) files.now) }
    ensures { AnswersAs true result }
{
    match check_line(alloc, certificate(out), description(), files) {
        Ok(outcome) => Ok(outcome.status == 0),
        Err(refused) => Err(refused),
    }
}
