//! Whether the arguments, the values of static fields and the heap that are given to a program are what a description says.
#![tactic(auto)]

mod given;
mod inputs;
mod listed;
mod regions;

pub use given::fits;
