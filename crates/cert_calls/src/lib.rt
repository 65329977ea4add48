//! The commands over a certificate beside `check` that say what it shows: how the runs of a method can end (`throws_call`), that they never do
//! (`loop_call`), after how many instructions at most (`bound_call`).
#![tactic(auto)]

pub mod bound_call;
pub mod loop_call;
pub mod throws_call;
