//! The search for forms that may differ from cut to cut, by all rows of the rules.
#![tactic(auto)]

mod cut_steps;
mod reducing;
mod searching;
pub mod simplex;
mod stop;
mod sums;
mod tables;
mod unknowns;

pub use searching::by_rows;
