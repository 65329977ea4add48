//! The command `bound`, from the bytes of a bound, of a certificate, of a description and of class files to its output: how many
//! instructions the runs of a method take at most.
//!
//! The definitions stand in `specs/Answers` (the answer), `specs/Lines` (the lines), `specs/Headline` (what they claim) and `specs/Laws`.

mod call;
mod certs;
mod laws;
mod outcome;

pub use call::bound_line;
pub use laws::answers_are_one;
