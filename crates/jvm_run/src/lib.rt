//! What typings give: states with the types of a program's least typings never get stuck. And the run of so many steps.
//!
//! The laws stand in `specs/Laws`, what `run` leaves in `specs/Runs`.
#![tactic(auto)]

mod ended;
mod laws;
mod runs;

pub use ended::Ended;
pub use laws::{runs_are_never_stuck, runs_are_typed, starts_are_typed, steps_are_typed};
pub use runs::run;
