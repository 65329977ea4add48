//! What the plans of all states have in common: a step that makes no id sends none anywhere, and its rows name none.
#![tactic(auto)]

mod laws;

pub use laws::plans_are_steady;
