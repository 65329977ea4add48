//! What instructions do, as one enumeration.
//!
//! A machine, a verifier and an expansion of abstract states are each one table over [`Form`].
#![tactic(auto)]

mod form;
mod laws;

pub use form::{Form, ItemKind, Shuffle, form_of};
pub use laws::{forms_are_in_width, good_ops_have_forms};
