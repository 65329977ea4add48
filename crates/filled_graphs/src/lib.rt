//! Graphs whose nodes may lack their states, filled: what the filled graph is, that it is one, and where its states come from.
#![tactic(auto)]

pub mod filled_nodes;
mod origins;

pub use origins::{Origin, origins_of};
