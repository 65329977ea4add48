//! Texts of bounds on the instructions of runs: what they say beside a certificate.
#![tactic(auto)]

mod forms;
mod lists;
mod numbers;
mod reading;
mod texts;

pub use json_view::JsonFault;
pub use texts::{BoundEntry, BoundRule, BoundText};
