//! Graphs whose nodes may lack their states, filled, as sources of nodes: over whatever tells the children of states.

mod children;
mod expanding;
mod filled;
mod ground;
mod holding;
mod looks;
mod slots;

pub use expanding::Expands;
pub use filled::Filled;
