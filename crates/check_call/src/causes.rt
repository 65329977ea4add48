//! The causes of refused certificates in words.
ghost use Rattle.std.specs.Prelude.{◌≡◌, IfOk};
ghost use Rattle.check_call.specs.Causes.{two_fields, lin_name, lin_fields, what_name, what_fields, path_name, path_fields};
ghost use Rattle.check_call.specs.Causes.{proof_name, proof_fields, cause_name, cause_fields, cause_text};

use cert_check::Cause;
use cert_check::graph_check::What;
use descent::{DescentFault, LinFault};
use list_views::Seq;
use list_views::fault_words::{joined, number_field};
use path_rules::PathFault;
use std::alloc::{AllocError, Global};

fn lin_name(fault: LinFault) -> &'static [u8]
    ensures { result.now ≡ lin_name fault }
{
    match fault {
        LinFault::BadIndex { .. } => b"BadIndex",
        LinFault::NegativeMultiplier { .. } => b"NegativeMultiplier",
        LinFault::Limit { .. } => b"Limit",
    }
}

fn lin_fields(alloc: Global, fault: LinFault) -> Result<Seq<u8>, AllocError>
    ensures { IfOk result (λ text. text ≡ lin_fields fault) }
{
    match fault {
        LinFault::BadIndex { n } => number_field(alloc, b"n", n as usize),
        LinFault::NegativeMultiplier { n } => number_field(alloc, b"n", n as usize),
        LinFault::Limit { n } => number_field(alloc, b"n", n as usize),
    }
}

fn what_name(what: What) -> &'static [u8]
    ensures { result.now ≡ what_name what }
{
    match what {
        What::Root => b"Root",
        What::BadState { .. } => b"BadState",
        What::TooManyIds => b"TooManyIds",
        What::ChildCount => b"ChildCount",
        What::Child { .. } => b"Child",
        What::NotEnd => b"NotEnd",
        What::BadTarget => b"BadTarget",
        What::Match(_) => b"Match",
    }
}

/// Two fields that hold numbers.
fn two_fields(
    alloc: Global,
    name: &[u8],
    value: usize,
    second: &[u8],
    other: usize,
) -> Result<Seq<u8>, AllocError>
    ensures { IfOk result (λ text. text ≡ two_fields name.now value second.now other) }
{
    let first = number_field(alloc, name, value)?;
    let second = number_field(alloc, second, other)?;
    joined(alloc, &[first.as_slice(), second.as_slice()])
}

fn what_fields(alloc: Global, what: What) -> Result<Seq<u8>, AllocError>
    ensures { IfOk result (λ text. text ≡ what_fields what) }
{
    match what {
        What::BadState { clause } => number_field(alloc, b"clause", usize::from(clause)),
        What::Child { n } => number_field(alloc, b"n", n),
        What::Match(fault) => two_fields(
            alloc,
            b"clause",
            usize::from(fault.clause),
            b"id",
            usize::from(fault.id),
        ),
        _ => Ok(Seq::new(alloc)),
    }
}

fn path_name(fault: PathFault) -> &'static [u8]
    ensures { result.now ≡ path_name fault }
{
    match fault {
        PathFault::Uncut { .. } => b"Uncut",
        PathFault::TooManyPaths => b"TooManyPaths",
        PathFault::TooManyRows { .. } => b"TooManyRows",
        PathFault::Memory => b"Memory",
    }
}

fn path_fields(alloc: Global, fault: PathFault) -> Result<Seq<u8>, AllocError>
    ensures { IfOk result (λ text. text ≡ path_fields fault) }
{
    match fault {
        PathFault::Uncut { node } => number_field(alloc, b"node", node as usize),
        PathFault::TooManyRows { path } => number_field(alloc, b"path", path as usize),
        _ => Ok(Seq::new(alloc)),
    }
}

fn proof_name(fault: DescentFault) -> &'static [u8]
    ensures { result.now ≡ proof_name fault }
{
    match fault {
        DescentFault::NotCovered { .. } => b"NotCovered",
        DescentFault::BackEdge { .. } => b"BackEdge",
        DescentFault::NotWeak { .. } => b"NotWeak",
        DescentFault::NotStrict { .. } => b"NotStrict",
        DescentFault::NotBounded { .. } => b"NotBounded",
        DescentFault::Loops { .. } => b"Loops",
        DescentFault::Lin(fault) => lin_name(fault),
        DescentFault::BadStep => b"BadStep",
    }
}

fn proof_fields(alloc: Global, fault: DescentFault) -> Result<Seq<u8>, AllocError>
    ensures { IfOk result (λ text. text ≡ proof_fields fault) }
{
    match fault {
        DescentFault::NotCovered { rule } => number_field(alloc, b"rule", rule as usize),
        DescentFault::BackEdge { from, to } => {
            two_fields(alloc, b"from", from as usize, b"to", to as usize)
        }
        DescentFault::NotWeak { rule } => number_field(alloc, b"rule", rule as usize),
        DescentFault::NotStrict { rule } => number_field(alloc, b"rule", rule as usize),
        DescentFault::NotBounded { rule } => number_field(alloc, b"rule", rule as usize),
        DescentFault::Loops { rule } => number_field(alloc, b"rule", rule as usize),
        DescentFault::Lin(fault) => lin_fields(alloc, fault),
        DescentFault::BadStep => Ok(Seq::new(alloc)),
    }
}

fn cause_name(cause: Cause) -> &'static [u8]
    ensures { result.now ≡ cause_name cause }
{
    match cause {
        Cause::Graph(what) => what_name(what),
        Cause::Cuts => b"Cuts",
        Cause::Path(fault) => path_name(fault),
        Cause::Proof(fault) => proof_name(fault),
    }
}

fn cause_fields(alloc: Global, cause: Cause) -> Result<Seq<u8>, AllocError>
    ensures { IfOk result (λ text. text ≡ cause_fields cause) }
{
    match cause {
        Cause::Graph(what) => what_fields(alloc, what),
        Cause::Cuts => Ok(Seq::new(alloc)),
        Cause::Path(fault) => path_fields(alloc, fault),
        Cause::Proof(fault) => proof_fields(alloc, fault),
    }
}

/// A cause in words: its name and its fields.
pub(crate) fn cause_text(alloc: Global, cause: Cause) -> Result<Seq<u8>, AllocError>
    ensures { IfOk result (λ text. text ≡ cause_text cause) }
{
    let fields = cause_fields(alloc, cause)?;
    joined(alloc, &[cause_name(cause), fields.as_slice()])
}
