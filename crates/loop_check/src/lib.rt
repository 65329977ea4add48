//! Whether a termination graph shows that no run ends, and whether a given state begins such a run.
#![tactic(auto)]

mod ends;
mod fault;
mod idling;
mod laws;
mod lines;
mod looping;

pub use ends::first_end;
pub use fault::LoopFault;
pub use laws::{loops_have_one_verdict, loops_never_end};
pub use lines::cause_text;
pub use looping::check_loop;
