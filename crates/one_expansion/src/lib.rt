//! What becomes of an abstract state is one: its plan has one list of children, and an expansion one answer.
#![tactic(auto)]

mod laws;

pub use abs_expand;
pub use laws::{answers_are_one, children_are_one};
pub use steady_plans;
