//! What a value reaches in a heap of the machine: its region, and the shape of that region.
#![tactic(auto)]

mod closed;
mod dags;
mod laws;
mod marking;
mod regions;
mod shapes;
mod trees;

pub use closed::{is_closed, is_in_heap};
pub use laws::acyclic_have_terms;
pub use regions::region;
pub use shapes::shape;
pub use trees::is_tree;
