//! The command `bound`.
ghost use Rattle.std.specs.Prelude.{◌≤◌, length, map};
ghost use Rattle.class_base.specs.Limits.{most_classes};
ghost use Rattle.cert_calls.specs.bound_call.Answers.{Answers};
ghost use Rattle.cert_calls.specs.bound_call.Headline.{AllEndWithinIfDone};

use crate::bound_call::certs::bound_bytes;
use check_call::Outcome;
use desc_steps::described_program;
use input_steps::Refused;
use std::alloc::Global;

/// What `bound` puts on its output, with its exit status. Where the certificate is valid for the method and the
/// inputs that the description names and describes, and the bound's text holds for it, the bound's lines: `steps L`,
/// `const C` and for each rank step `term K F`; status 0. Every run from a described input then ends after at most
/// the bound's value of instructions. Else `REFUSED item N: CAUSE`, as `check` says it, or `REFUSED bound: CAUSE` for
/// the first fault of the bound's text; status 2. There are at most 256 class files.
///
/// # Errors
///
/// Those of `check`, in its order: the first fault of the class files, of the description's text, of the world, of
/// the method's name, of its program, of its calls and types, of the description against the program. Want of memory.
pub fn bound_line(
    alloc: Global,
    bound: &[u8],
    cert: &[u8],
    desc: &[u8],
    files: &[Vec<u8>],
) -> Result<Outcome, Refused>
    requires { length files.now ≤ most_classes }
    ensures answers { Answers bound.now cert.now desc.now (map (λ file. file.items) files.now) result }
    ensures headline { AllEndWithinIfDone (map (λ file. file.items) files.now) desc.now result }
{
    match described_program(alloc, desc, files) {
        Ok(given) => bound_bytes(
            alloc,
            &given.program,
            &given.typing,
            &given.desc,
            cert,
            bound,
        ),
        Err(refused) => Err(refused),
    }
}
