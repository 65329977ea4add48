//! The command `migrate`.
ghost use Rattle.std.specs.Prelude.{◌≤◌, length, map};
ghost use Rattle.class_base.specs.Limits.{most_classes};
ghost use Rattle.cert_making.specs.migrate_call.Answers.{Answers};
ghost use Rattle.cert_making.specs.migrate_call.Headline.{IsMigratedIfDone};

use crate::migrate_call::certs::migrate_bytes;
use check_call::Outcome;
use desc_steps::described_program;
use input_steps::Refused;
use std::alloc::Global;

/// What `migrate` puts on its output, with its exit status: where the certificate is valid, the certificate in form 2
/// and a newline, status 0. It has the same filled graph, the same cuts and the same proof, and `check` accepts it.
/// Else the line of `check`: `REFUSED item N: CAUSE`, a newline and status 2, for the first item that fails. There
/// are at most 256 class files. All states of the graph are held at once.
///
/// # Errors
///
/// Those of `check`, in its order: the first fault of the class files, of the description's text, of the world, of
/// the method's name, of its program, of its calls and types, of the description against the program. Want of memory.
pub fn migrate_line(
    alloc: Global,
    cert: &[u8],
    desc: &[u8],
    files: &[Vec<u8>],
) -> Result<Outcome, Refused>
    requires { length files.now ≤ most_classes }
    ensures answers { Answers cert.now desc.now (map (λ file. file.items) files.now) result }
    ensures headline { IsMigratedIfDone (map (λ file. file.items) files.now) desc.now cert.now result }
{
    match described_program(alloc, desc, files) {
        Ok(given) => migrate_bytes(alloc, &given.program, &given.typing, &given.desc, cert),
        Err(refused) => Err(refused),
    }
}
