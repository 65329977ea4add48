//! Graphs that grow by discipline from a growing root are good.
#![tactic(auto)]

mod laws;

pub use graph_check::{one_expansion, steady_plans};
pub use grow_laws;
pub use laws::{disciplined_graphs_are_good, disciplined_graphs_grow, trees_are_cut};
