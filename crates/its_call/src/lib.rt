//! What is said of a text of integer transition rules: yes, or the rules that are left (`docs/ITS.md`).
#![tactic(auto)]

mod answer;
pub mod its_search;
mod lines;

pub use crate::its_search::{ItsFound, LeftRule};
pub use answer::{ItsAnswer, its_answer};
pub use its_front::ItsFault;
