//! Why a graph doesn't show that no run ends.
ghost use Rattle.std.specs.Prelude.{◌≡◌};
ghost use Rattle.loop_check.specs.declared.fault.LoopFault.TheVariants.{Memory};
ghost use Rattle.loop_check.specs.inner.Words.{fault_of};

use graph_check::{CheckFault, What};
use std::alloc::{AllocError, AllocFailed};

/// Why a graph doesn't show that no run ends: the first of these that holds, or want of memory.
#[derive(Clone, Copy, PartialEq, Eq)]
pub enum LoopFault {
    /// It is no good one: its first fault.
    Graph {
        /// The node.
        node: u32,
        /// What is wrong with it.
        what: What,
    },
    /// It has an `End` node.
    EndNode {
        /// The least one.
        node: u32,
    },
    /// A cycle is of edges that are no steps.
    IdleCycle {
        /// The least node on one.
        node: u32,
    },
    /// The given state is none that the description fits.
    NotFitting,
    /// Want of memory.
    Memory,
}

impl From<AllocError> for LoopFault {
    ghost from_gives = { λ _ e. e ≡ Memory };

    fn from(_e: AllocError) -> LoopFault {
        LoopFault::Memory
    }
}

impl<T: Drop> From<AllocFailed<T>> for LoopFault {
    ghost from_gives = { λ _ e. e ≡ Memory };

    fn from(_e: AllocFailed<T>) -> LoopFault {
        LoopFault::Memory
    }
}

/// What a fault of a graph is to the check of a loop.
pub(crate) fn fault_of(fault: CheckFault) -> LoopFault
    ensures { result ≡ fault_of fault }
{
    match fault {
        CheckFault::At { node, what } => LoopFault::Graph { node, what },
        CheckFault::Memory => LoopFault::Memory,
    }
}
