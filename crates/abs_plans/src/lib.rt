//! The plan of an abstract state: whether the run ends, what each of its steps does, or into which cases the state is split.
#![tactic(auto)]

pub mod abs_rows;
mod calls;
mod casts;
mod planning;
mod testing;
mod throwing;

pub use abs_turns;
pub use planning::plan;
