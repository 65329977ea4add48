//! What a search finds.
ghost use Rattle.std.specs.Prelude.{◌≡◌};
ghost use Rattle.prove_core.specs.declared.found.SearchFault.TheVariants.{Memory};

use abs_cells::Pairs;
use chain_proofs::LeftRule;
use descent::Proof;
use list_views::Seq;
use std::alloc::{AllocError, AllocFailed};
use term_graph::Graph;

/// A graph with its cuts, and a proof over the rules of its paths.
#[derive(Drop)]
pub struct Cert<P: Pairs> {
    /// The graph.
    pub graph: Graph<P>,
    /// Node 0 and the targets of instances, rising.
    pub cuts: Seq<u32>,
    /// The steps of the proof; those of an unfinished one name steps that are still to come.
    pub proof: Proof,
}

/// Why no certificate is given.
#[derive(Drop)]
pub enum Reason<P: Pairs> {
    /// The next growth of this graph would pass the limit of nodes.
    Nodes(Graph<P>),
    /// The next growth of this graph has a state with more than 512 ids.
    Ids(Graph<P>),
    /// There are more than 4,096 paths between the cuts of this graph, or their rules have too many rows.
    Paths(Graph<P>),
    /// This certificate is valid, and longer than 16 MiB.
    Bytes {
        /// The certificate.
        cert: Cert<P>,
        /// The number of its bytes in form 2.
        size: u64,
    },
    /// The proof so far leaves these rules, which reach each other and which no plain and no stepwise form ranks.
    Component {
        /// The graph, its cuts, and the proof so far.
        cert: Cert<P>,
        /// The rules, by their numbers.
        left: Seq<LeftRule>,
    },
}

/// What a search finds.
#[derive(Drop)]
pub enum Found<P: Pairs> {
    /// The bytes of a valid certificate, in form 2.
    Certificate(Seq<u8>),
    /// Why there is none.
    Maybe(Reason<P>),
}

/// Why a search doesn't answer.
#[derive(Clone, Copy)]
pub enum SearchFault {
    /// Want of memory.
    Memory,
}

impl From<AllocError> for SearchFault {
    ghost from_gives = { λ _ e. e ≡ Memory };

    fn from(_e: AllocError) -> SearchFault {
        SearchFault::Memory
    }
}

impl<T: Drop> From<AllocFailed<T>> for SearchFault {
    ghost from_gives = { λ _ e. e ≡ Memory };

    fn from(_e: AllocFailed<T>) -> SearchFault {
        SearchFault::Memory
    }
}
