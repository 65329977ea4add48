//! Why a node is no good one, while a graph is tested.
ghost use Rattle.std.specs.Prelude.{◌≡◌};
ghost use Rattle.graph_check.specs.declared.failure.Failure.TheVariants.{Memory};
ghost use Rattle.graph_check.specs.inner.Checked.{failure_of, fault_of};

use crate::fault::{CheckFault, What};
use one_expansion::abs_expand::ExpandFault;
use std::alloc::{AllocError, AllocFailed};

/// Why a node is no good one, or want of memory.
#[derive(Clone, Copy, PartialEq, Eq)]
pub(crate) enum Failure {
    /// The node has a fault.
    Fails(What),
    /// Want of memory.
    Memory,
}

impl From<AllocError> for Failure {
    ghost from_gives = { λ _ e. e ≡ Memory };

    fn from(_e: AllocError) -> Failure {
        Failure::Memory
    }
}

impl<T: Drop> From<AllocFailed<T>> for Failure {
    ghost from_gives = { λ _ e. e ≡ Memory };

    fn from(_e: AllocFailed<T>) -> Failure {
        Failure::Memory
    }
}

/// What a state without an expansion, or with too many ids in a child, is to its node.
pub(crate) fn failure_of(fault: ExpandFault) -> Failure
    ensures { result ≡ failure_of fault }
{
    match fault {
        ExpandFault::BadState { clause } => Failure::Fails(What::BadState { clause }),
        ExpandFault::TooManyIds { .. } => Failure::Fails(What::TooManyIds),
        ExpandFault::Memory => Failure::Memory,
    }
}

/// The fault of the graph that has this node.
pub(crate) fn fault_of(node: u32, failure: Failure) -> CheckFault
    ensures { result ≡ fault_of node failure }
{
    match failure {
        Failure::Fails(what) => CheckFault::At { node, what },
        Failure::Memory => CheckFault::Memory,
    }
}
