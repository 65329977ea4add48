//! Graphs of numbers, as lists of successors: ranks that fall along edges, and cycles.
#![tactic(auto)]

mod laws;
mod marking;
mod order;
mod ranking;

pub use laws::{cycles_are_listed, falling_has_no_cycle};
pub use ranking::{Ranking, rank};
