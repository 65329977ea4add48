//! Whether an abstract state is an instance of another one.
//!
//! The clauses are relations (`abs_reach`, `specs/Instances`). What fits a state fits each state of which it is an instance.
#![tactic(auto)]

mod apart;
mod clauses;
mod covers;
mod finding;
mod forced;
mod laws;
mod least;
mod maps;
mod matching;
mod pairing;
mod places;

pub use clauses::MatchFault;
pub use finding::find_map;
pub use laws::{dropped_states_reach_all, matches_carry_fitting};
pub use matching::instance;
