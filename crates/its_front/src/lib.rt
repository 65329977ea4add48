//! Systems of integer transition rules, as texts say them: locations, variables that stand for whole numbers without a bound, and rules
//! that lead from one location to the next, each with rows over the variables' values before and after it (`docs/ITS.md`).
//!
//! [`read_rules`] gives the rules that a text says, as `descent` takes them, or the first line that breaks a rule. What a step of a
//! system is, and that its steps end where no chain of its rules is infinite, stands in `specs/Steps`.
#![tactic(auto)]

mod fault;
mod laws;
mod names;
mod reading;
mod rows;
mod rules;
pub mod text_lines;
mod words;

pub use fault::ItsFault;
pub use laws::{chains_end_steps, steps_end_walks};
pub use reading::{Its, read_rules};
