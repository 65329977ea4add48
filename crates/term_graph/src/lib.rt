//! Termination graphs: nodes with abstract states, how each is left, and what each edge says beside its two states
//! (Brockschmidt, Otto, von Essen, Giesl 2010).
//!
//! Contracts see a graph as the list of its nodes. What an edge says of the machine's states at its two ends is a
//! definition, `specs/Edges`.
#![tactic(auto)]

mod copies;
mod graphs;
mod limits;
mod links;
mod nodes;
mod parts;
mod sources;

pub use copies::{copied_node, copied_state};
pub use graphs::Graph;
pub use limits::MOST_NODES;
pub use links::{Link, LinkRow, Links, Side};
pub use nodes::{By, Child, Node};
pub use parts::PartSource;
pub use sources::NodeSource;
