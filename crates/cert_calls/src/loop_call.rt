//! The command `loop`, from the bytes of a certificate, of a state, of a description and of class files to its output: that a method never
//! ends.
//!
//! The definitions stand in `specs/States` (the steps), `specs/Answers` (the answer), `specs/Lines` (the lines),
//! `specs/Headline` (what `NO` claims) and `specs/Laws`.

mod call;
mod certs;
mod laws;
mod naming;
mod outcome;

pub use call::loop_line;
pub use laws::answers_are_one;
