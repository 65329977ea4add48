//! What graphs grow from, and that the plan of each instruction keeps it: two laws of ints, and lemmas for the crates above.
#![tactic(auto)]

mod laws;

pub use laws::{branches_stay_ints, results_stay_ints};
