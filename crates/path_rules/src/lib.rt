//! The rules of a termination graph's paths from cut to cut.
#![tactic(auto)]

mod answers;
mod counts;
mod fault;
mod laws;
mod legs;
mod limits;
mod numbers;
mod sizes;
mod slots;
mod stops;
mod successors;
mod terms;
mod walks;
mod ways;

pub use answers::paths;
pub use fault::PathFault;
pub use laws::{rules_fit, walks_meet_rules};
pub use successors::{cut_marks, has_mark, inner_lists, successor_lists};
