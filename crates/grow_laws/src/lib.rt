//! The children of states from which graphs grow are such states, and so are their widenings and the roots.
#![tactic(auto)]

mod laws;

pub use laws::{children_grow, growing_states_stand_alike, roots_grow, widenings_grow};
