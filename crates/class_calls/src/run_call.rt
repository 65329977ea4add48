//! The command `run`, from the bytes of a state and of class files to the line of its output.
//!
//! The definitions stand in `specs/Answers` (the answer, step by step) and `specs/Lines` (the line).

mod call;
mod laws;
mod lines;
mod running;
mod state;

pub use call::run_line;
pub use laws::answers_are_one;
pub use state::{input_of, read_state};
