//! Proofs that no chain of path rules is infinite, made class by class, with a form for each class of rules that reach each other, which a search
//! finds ([`Forms`]).
//!
//! What a proof that isn't finished is, and which rules are stuck, are definitions: `specs/Unfinished`, `specs/Stuck`, `specs/Answers`.
#![tactic(auto)]

mod copying;
mod forms;
mod proving;
mod ranking;
mod splitting;

pub use forms::{Forms, PathForms};
pub use proving::{LeftRule, Proved, prove, prove_by};
