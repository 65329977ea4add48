//! Why a certificate is refused.
ghost use Rattle.std.specs.Prelude.{◌≡◌};
ghost use Rattle.cert_check.specs.declared.refusal.Refusal.TheVariants.{Memory};

use descent::DescentFault;
use graph_check::What;
use path_rules::PathFault;
use std::alloc::{AllocError, AllocFailed};

/// What is wrong with an item of a certificate.
#[derive(Clone, Copy, PartialEq, Eq)]
pub enum Cause {
    /// The graph is no good one.
    Graph(What),
    /// The cuts don't rise, one of them is no node, or they don't begin with node 0.
    Cuts,
    /// The paths have no rules.
    Path(PathFault),
    /// A step of the proof doesn't hold.
    Proof(DescentFault),
}

/// Why a certificate is refused: its first item that fails, or want of memory.
///
/// Of a certificate with `n` nodes, item 1 is the root, item 2 + k node k, item 2 + n the cuts, item 3 + n the paths, and item
/// 4 + n + j step j of the proof. Item 0 is its form, which its reader tests.
#[derive(Clone, Copy, PartialEq, Eq)]
pub enum Refusal {
    /// An item fails.
    Item {
        /// The item.
        item: u64,
        /// What is wrong with it.
        cause: Cause,
    },
    /// Want of memory.
    Memory,
}

impl From<AllocError> for Refusal {
    ghost from_gives = { λ _ e. e ≡ Memory };

    fn from(_e: AllocError) -> Refusal {
        Refusal::Memory
    }
}

impl<T: Drop> From<AllocFailed<T>> for Refusal {
    ghost from_gives = { λ _ e. e ≡ Memory };

    fn from(_e: AllocFailed<T>) -> Refusal {
        Refusal::Memory
    }
}
