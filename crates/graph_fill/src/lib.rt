//! Graphs whose nodes may lack their states, filled: such a node has the state of the child where it is first named.
#![tactic(auto)]

mod expansions;
mod laws;
mod source;

pub use expansions::Expansions;
pub use laws::{filled_graphs_are_one, good_graphs_fill_themselves};
pub use source::filled;
