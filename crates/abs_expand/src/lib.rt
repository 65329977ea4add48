//! What becomes of an abstract state at an instruction: whole as definitions, with what they promise, and computed.
#![tactic(auto)]

mod children;
mod clauses;
mod expanding;
mod fault;
mod making;
mod places;
mod splitting;

pub use abs_plans;
pub use clauses::bad_clause;
pub use expanding::expand;
pub use fault::ExpandFault;
