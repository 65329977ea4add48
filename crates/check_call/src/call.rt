//! The command `check`.
ghost use Rattle.std.specs.Prelude.{◌≤◌, length, map};
ghost use Rattle.class_base.specs.Limits.{most_classes};
ghost use Rattle.check_call.specs.Answers.{Answers};
ghost use Rattle.check_call.specs.Headline.{AllEndIfAccepted};

use crate::certs::check_bytes;
use crate::outcome::Outcome;
use desc_steps::described_program;
use input_steps::Refused;
use std::alloc::Global;

/// What `check` puts on its output, with its exit status: `ACCEPTED` and a newline, status 0, where the certificate is valid for the method
/// and the inputs that the description names and describes; else `REFUSED item N: CAUSE`, a newline and status 2, for the first item that
/// fails. Where a certificate is accepted, every run from a described input comes to an end. There are at most 256 class files.
///
/// # Errors
///
/// The first fault with its place: of a class file, in order; of the description's text; of the classes as a world; of the method's
/// name; of its program; a cycle of calls; a method without a typing; of the description against the program. Want of memory.
pub fn check_line(
    alloc: Global,
    cert: &[u8],
    desc: &[u8],
    files: &[Vec<u8>],
) -> Result<Outcome, Refused>
    requires { length files.now ≤ most_classes }
    ensures answers { Answers cert.now desc.now (map (λ file. file.items) files.now) result }
    ensures headline { AllEndIfAccepted (map (λ file. file.items) files.now) desc.now result }
{
    match described_program(alloc, desc, files) {
        Ok(given) => check_bytes(alloc, &given.program, &given.typing, &given.desc, cert),
        Err(refused) => Err(refused),
    }
}
