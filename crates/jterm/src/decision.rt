//! The decision over the bytes of the input files.
ghost use Rattle.std.specs.Prelude.{◌≡◌, length, map, IfOk};
ghost use Rattle.class_calls.specs.command_rows.Rows.{Takes};
ghost use Rattle.jterm.specs.Decision.{HoldsClaim, IsAnswer, done_of, verdict_of, verdict_of_made};

use crate::certs::{bounded, looped, migrated, reported};
use crate::generate::{Generated, generate_line};
use crate::rules::rules_verdict;
use crate::verdict::Verdict;
use check_call::{Outcome, check_line};
use class_calls::asm_call::class_file;
use class_calls::command_rows::Request;
use class_calls::run_call::run_line;
use input_steps::Refused;
use list_views::Seq;
use prove_call::prove_line;
use std::alloc::Global;

/// The verdict of a command that is done, with this output.
fn done(out: Result<Seq<u8>, Refused>) -> Result<Verdict, Refused>
    ensures { result ≡ done_of out }
{
    match out {
        Ok(out) => Ok(Verdict {
            status: 0,
            out,
            reason: None,
            its: None,
        }),
        Err(refused) => Err(refused),
    }
}

/// The outcome of a command over a certificate as a verdict.
pub(crate) fn judged(outcome: Result<Outcome, Refused>) -> Result<Verdict, Refused>
    ensures { result ≡ verdict_of outcome }
{
    match outcome {
        Ok(outcome) => Ok(Verdict {
            status: outcome.status,
            out: outcome.out,
            reason: None,
            its: None,
        }),
        Err(refused) => Err(refused),
    }
}

/// What is said of a class that was made, as a verdict.
fn made(generated: Result<Generated, Refused>) -> Result<Verdict, Refused>
    ensures { result ≡ verdict_of_made generated }
{
    match generated {
        Ok(generated) => Ok(Verdict {
            status: 0,
            out: generated.out,
            reason: generated.reason,
            its: None,
        }),
        Err(refused) => Err(refused),
    }
}

/// Does what the request asks for with the bytes of the files that its command names, in the order of the words:
/// the certificate, the state, the description, and then the classes; or the listing; or none; or the rules.
///
/// # Errors
///
/// The first fault of the input with its place, or want of memory.
pub fn decide(alloc: Global, request: &Request, inputs: &[Vec<u8>]) -> Result<Verdict, Refused>
    requires { Takes request.now (length inputs.now) }

    // What a yes claims is true: of `prove` that every state that the description fits ends; of each other command what stands there.
    ensures headline { IfOk result (λ verdict. HoldsClaim request.now (map (λ file. file.items) inputs.now) verdict) }

    // The cause of each answer.
    ensures answer { IsAnswer request.now (map (λ file. file.items) inputs.now) result }
{
    match request {
        Request::Prove { nodes } => match prove_line(
            alloc,
            inputs[0].as_slice(),
            &inputs[1..],
            *nodes,
        ) {
            Ok(answer) => Ok(Verdict {
                status: answer.status,
                out: answer.out,
                reason: answer.reason,
                its: None,
            }),
            Err(fault) => Err(fault),
        },
        Request::Check => judged(check_line(
            alloc,
            inputs[0].as_slice(),
            inputs[1].as_slice(),
            &inputs[2..],
        )),
        Request::Run { fuel } => done(run_line(alloc, *fuel, inputs[0].as_slice(), &inputs[1..])),
        Request::Asm => done(class_file(alloc, inputs[0].as_slice())),
        Request::Generate { n } => made(generate_line(alloc, *n)),
        Request::Its => rules_verdict(alloc, inputs[0].as_slice()),
        Request::Migrate => migrated(alloc, inputs),
        Request::Bound => bounded(alloc, inputs),
        Request::Loop => looped(alloc, inputs),
        Request::Throws => reported(alloc, inputs),
    }
}
