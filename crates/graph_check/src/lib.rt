//! Whether a termination graph is a good one, and what good graphs promise.
#![tactic(auto)]

mod checking;
mod children;
mod failure;
mod fault;
mod laws;
mod leaving;

pub use checking::check_graph;
pub use fault::{CheckFault, What};
pub use laws::{graphs_have_one_verdict, graphs_hold_runs};
pub use one_expansion;
pub use one_expansion::{abs_expand, steady_plans};
pub use step_laws;
