//! The command `throws`, from the bytes of a certificate, of a description and of class files to its output: in which ways the runs of a
//! method can end.
//!
//! The definitions stand in `specs/Answers` (the answer), `specs/Headline` (what its lines claim) and `specs/Laws`.

mod call;
mod certs;
mod laws;

pub use call::throws_line;
pub use laws::answers_are_one;
