//! The command `throws`.
ghost use Rattle.std.specs.Prelude.{◌≤◌, length, map};
ghost use Rattle.class_base.specs.Limits.{most_classes};
ghost use Rattle.cert_calls.specs.throws_call.Answers.{Answers};
ghost use Rattle.cert_calls.specs.throws_call.Headline.{AllEndAsSaidIfDone};

use crate::throws_call::certs::report_bytes;
use check_call::Outcome;
use desc_steps::described_program;
use input_steps::Refused;
use std::alloc::Global;

/// What `throws` puts on its output, with its exit status. Where the certificate is valid for the method and the
/// inputs that the description names and describes, the line `RETURNS` if a run can return, and then a line `THROWS
/// C` for each class of which an object can be thrown that nothing catches, by the classes' numbers; status 0. Every
/// run from a described input ends in one of these ways. Else the line of
/// `check`: `REFUSED item N: CAUSE`, a newline and status 2, for the first item that fails. There are at most 256 class files.
///
/// # Errors
///
/// Those of `check`, in its order: the first fault of the class files, of the description's text, of the world, of
/// the method's name, of its program, of its calls and types, of the description against the program. Want of memory.
pub fn throws_line(
    alloc: Global,
    cert: &[u8],
    desc: &[u8],
    files: &[Vec<u8>],
) -> Result<Outcome, Refused>
    requires { length files.now ≤ most_classes }
    ensures answers { Answers cert.now desc.now (map (λ file. file.items) files.now) result }
    ensures headline { AllEndAsSaidIfDone (map (λ file. file.items) files.now) desc.now result }
{
    match described_program(alloc, desc, files) {
        Ok(given) => report_bytes(alloc, &given.program, &given.typing, &given.desc, cert),
        Err(refused) => Err(refused),
    }
}
