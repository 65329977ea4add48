//! The search for a proof that the steps of a system of rules end: class by class of rules that reach each other, by a variable, its
//! negative or the difference of two, and where none of these ranks the rules, by linear forms.

mod changes;
mod plain_forms;
mod ranking;
mod searching;
mod system_forms;

pub use chain_proofs::LeftRule;
pub use searching::{ItsFound, its_search};
