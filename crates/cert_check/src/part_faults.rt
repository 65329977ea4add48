//! What is said of the fault of a part.
ghost use Rattle.std.specs.Prelude.{◌≡◌};
ghost use Rattle.cert_check.specs.Valid.{graph_item};
ghost use Rattle.cert_check.specs.inner.PartChecks.{graph_refusal, path_refusal, proof_refusal};

use crate::refusal::{Cause, Refusal};
use descent::StepFault;
use graph_check::{CheckFault, What};
use path_rules::PathFault;

/// The item of a fault of a graph.
fn graph_item(node: u32, what: What) -> u64
    ensures { result ≡ graph_item node what }
{
    match what {
        What::Root => 1,
        _ => 2 + u64::from(node),
    }
}

/// What is said of a fault of a graph.
pub(crate) fn graph_refusal(fault: CheckFault) -> Refusal
    ensures { result ≡ graph_refusal fault }
{
    match fault {
        CheckFault::At { node, what } => Refusal::Item {
            item: graph_item(node, what),
            cause: Cause::Graph(what),
        },
        CheckFault::Memory => Refusal::Memory,
    }
}

/// What is said of a fault of the paths of a graph of so many nodes.
pub(crate) fn path_refusal(nodes: u32, fault: PathFault) -> Refusal
    ensures { result ≡ path_refusal nodes fault }
{
    match fault {
        PathFault::Memory => Refusal::Memory,
        fault => Refusal::Item {
            item: 3 + u64::from(nodes),
            cause: Cause::Path(fault),
        },
    }
}

/// What is said of a fault of the proof of a graph of so many nodes.
pub(crate) fn proof_refusal(nodes: u32, fault: StepFault) -> Refusal
    ensures { result ≡ proof_refusal nodes fault }
{
    match fault {
        StepFault::At { step, fault } => Refusal::Item {
            item: 4 + u64::from(nodes) + u64::from(step),
            cause: Cause::Proof(fault),
        },
        StepFault::Memory => Refusal::Memory,
    }
}
