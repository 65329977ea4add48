//! Termination graphs that are built node by node, depth first, with instances and widenings at heads (Otto, Brockschmidt, von Essen,
//! Giesl 2010).
//!
//! What a state becomes, which states stand for others and where the heads are is told by a grower. What is built is a disciplined graph
//! (`specs/Disciplined`), a condition on finished trees that knows no stack and no order of work.
#![tactic(auto)]

mod building;
mod due;
mod grower;
mod growth;

pub use building::{BuildFault, Built, build};
pub use grower::{GrowFault, Grower, Grown};
