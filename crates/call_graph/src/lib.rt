//! Calls between the methods of a program.
#![tactic(auto)]

mod calls;
mod check;
mod fault;

pub use check::{acyclic, method_name};
pub use fault::CallFault;
