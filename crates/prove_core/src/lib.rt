//! The search for a certificate that every run of a program ends: one that was written, read again and checked, or why there is none.
//!
//! The graph that is searched, and each reason, are definitions: `specs/Growth`, `specs/Reasons`, `specs/Answers`.
#![tactic(auto)]

mod cutting;
mod finding;
mod found;
mod grower;
mod heads;
mod plain_rules;
mod searching;
mod stored;
mod text_laws;
mod tries;

pub use chain_proofs::LeftRule;
pub use found::{Cert, Found, Reason, SearchFault};
pub use plain_rules::{
    good_graph_rules_are_plain, links_are_short, path_rules_are_plain, some_rules_are_plain,
};
pub use searching::search;
pub use stored::graph_is_stored;
pub use text_laws::{
    disciplined_graphs_have_few_ids, good_graphs_are_readable, proofs_are_readable,
};
