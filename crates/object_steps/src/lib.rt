//! The forms that change frames alone, and those of objects, are true of the machine: ints, moves, jumps, tests, returns, static fields; fields
//! that are read, lengths, new objects, casts and calls. The lemmas have no calls.
#![tactic(auto)]

pub use form_steps;
pub use form_steps::{abs_expand, jvm_run};
