//! The search for forms that rank path rules.
#![tactic(auto)]

mod asking;
mod candidates;
mod graph_rules;
mod plain_steps;
mod searching;
mod several;
mod stepping;

pub use asking::{linear, plain};
pub use graph_rules::are_plain_rules;
pub use searching::{PlainForm, StepwiseForm, plain_form, stepwise_form};
