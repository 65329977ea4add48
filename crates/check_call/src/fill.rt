//! The command `fill`.
ghost use Rattle.std.specs.Prelude.{◌≤◌, length, map};
ghost use Rattle.class_base.specs.Limits.{most_classes};
ghost use Rattle.check_call.specs.FillAnswers.{Answers};

use crate::filled::fill_bytes;
use crate::outcome::Outcome;
use desc_steps::described_program;
use input_steps::Refused;
use std::alloc::Global;

/// What `fill` puts, with its exit status: the certificate in form 1 and a newline, status 0. Its cuts and its proof
/// are those that it has, and each node that lacks its state has that of the child where it is first named, or node
/// 0's where its namer has no such child, which then fails. Bytes that are no certificate are answered as `check`
/// answers them: `REFUSED item 0: CAUSE`, a newline and status 2. Whether the certificate is valid makes no
/// difference. There are at most 256 class files.
///
/// # Errors
///
/// Those of `check`, in its order: the first fault of the class files, of the description's text, of the world, of
/// the method's name, of its program, of its calls and types, of the description against the program. Want of memory.
pub fn fill_line(
    alloc: Global,
    cert: &[u8],
    desc: &[u8],
    files: &[Vec<u8>],
) -> Result<Outcome, Refused>
    requires { length files.now ≤ most_classes }
    ensures { Answers cert.now desc.now (map (λ file. file.items) files.now) result }
{
    match described_program(alloc, desc, files) {
        Ok(given) => fill_bytes(alloc, &given.program, &given.typing, cert),
        Err(refused) => Err(refused),
    }
}
