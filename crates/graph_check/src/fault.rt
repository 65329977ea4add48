//! Why a graph is no good one.
ghost use Rattle.std.specs.Prelude.{◌≡◌};
ghost use Rattle.graph_check.specs.declared.fault.CheckFault.TheVariants.{Memory};

use abs_match::MatchFault;
use std::alloc::{AllocError, AllocFailed};

/// What is wrong with a node.
#[derive(Clone, Copy, PartialEq, Eq)]
pub enum What {
    /// Node 0 is not there, or its state isn't the root's.
    Root,
    /// Its state has no expansion.
    BadState {
        /// The first clause that the state breaks, as `abs_expand` numbers them.
        clause: u8,
    },
    /// A child of its state has more than 512 ids.
    TooManyIds,
    /// It names more or fewer nodes than its state has children, or the run ends with its state's next step.
    ChildCount,
    /// A number that it names is no node's, or that node's state isn't the child.
    Child {
        /// The place of the first such number, from 0.
        n: usize,
    },
    /// It says that the run ends, or says nothing, where the run goes on.
    NotEnd,
    /// It is an instance of a node that isn't there.
    BadTarget,
    /// Its state is no instance of the other node's by the map that it has.
    Match(MatchFault),
}

/// Why a graph is no good one: its first fault, or want of memory.
#[derive(Clone, Copy, PartialEq, Eq)]
pub enum CheckFault {
    /// A node has a fault.
    At {
        /// The node.
        node: u32,
        /// What is wrong with it.
        what: What,
    },
    /// Want of memory.
    Memory,
}

impl From<AllocError> for CheckFault {
    ghost from_gives = { λ _ e. e ≡ Memory };

    fn from(_e: AllocError) -> CheckFault {
        CheckFault::Memory
    }
}

impl<T: Drop> From<AllocFailed<T>> for CheckFault {
    ghost from_gives = { λ _ e. e ≡ Memory };

    fn from(_e: AllocFailed<T>) -> CheckFault {
        CheckFault::Memory
    }
}
