//! What the steps of all forms rest on: what fits a state fits a child that a turn makes of it; where a state and a machine's state that fits it
//! stand, the kinds of turns, tests, splits and operands. The laws are calls that do nothing when they run.
#![tactic(auto)]

mod laws;

pub use abs_expand;
pub use abs_expand::abs_plans;
pub use jvm_run;
pub use laws::moved_states_fit;
