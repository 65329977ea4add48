//! The report of a certificate that is checked.
ghost use Rattle.std.specs.Prelude.{◌≡◌, ◌≤◌, ◌^◌, ◌-◌, length, IfOk};
ghost use Rattle.class_program.specs.Views.{program_of};
ghost use Rattle.code_verify.specs.Typings.{IsTypingOf, typing_at};
ghost use Rattle.descent.specs.Conditions.{AreSteps};
ghost use Rattle.cert_check.specs.Parts.{case_of};
ghost use Rattle.throw_report.specs.Answers.{Reported, OwnRunsEnd};

use crate::laws::certified_runs_end_as_reported;
use crate::reporting::report;
use crate::ways::Report;
use abs_cells::{AbsState, Pairs};
use cert_check::{Refusal, check_cert};
use class_program::Program;
use code_verify::Typing;
use descent::Proof;
use std::alloc::Global;
use term_graph::NodeSource;

/// How the runs of a program can end, where a certificate is valid: the report of its graph. Then every state that the program's
/// description fits has a run that ends in one of these ways.
///
/// # Errors
///
/// The first item of the certificate that fails, with its cause; or want of memory.
pub fn checked_report<P: Pairs, S: NodeSource<P>>(
    alloc: Global,
    program: &Program<'_>,
    typing: &Typing,
    source: &mut S,
    root: &AbsState<P>,
    cuts: &[u32],
    proof: &Proof,
) -> Result<Report, Refusal>
    requires typing { IsTypingOf (program_of program.now) (typing_at typing.now) }
    requires few { length (S.graph source.old) ≤ 2 ^ 32 - 16 }
    requires steps { AreSteps proof.now.steps }
    ensures tells { Reported (case_of (program_of program.now) (typing_at typing.now) root.now (S.graph source.old) cuts.now
        proof.now.steps) result }
    ensures ends { IfOk result (OwnRunsEnd (program_of program.now) root.now) }
    ensures same { S.graph source.new ≡ S.graph source.old }
{
    program.is_good();
    certified_runs_end_as_reported();
    match check_cert(alloc, program, typing, source, root, cuts, proof) {
        Ok(()) => Ok(report(alloc, source)?),
        Err(refusal) => Err(refusal),
    }
}
