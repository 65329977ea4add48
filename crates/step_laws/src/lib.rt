//! That expansions are true of the machine, of any state of a closed program; the forms of items and the writes of fields are shown here too.
#![tactic(auto)]

mod laws;

pub use laws::{ends_end, steps_fit_children};
