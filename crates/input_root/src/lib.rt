//! Which states a description speaks of: they have the types of the program's typing, and its initial abstract state, which is sound,
//! describes them.
//!
//! The laws are calls that do nothing when they run.
#![tactic(auto)]

mod laws;

pub use laws::{
    fitting_states_are_described, fitting_states_are_typed, roots_are_sound, roots_have_few_ids,
};
