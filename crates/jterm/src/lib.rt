//! A prover of termination for Java bytecode: the public calls over the bytes of its input files and over the words of the command line.
#![tactic(auto)]

mod certs;
mod decision;
mod generate;
mod inputs;
mod laws;
mod lines;
mod made_cert;
mod made_line;
mod rules;
mod top;
mod verdict;

pub use class_calls::command_rows::Request;
pub use decision::decide;
pub use input_steps::{Fault, Place, Refused};
pub use laws::{accepted_migrate, answers_are_one, certificates_are_accepted, reasons_are_kept};
pub use top::{Done, jterm};
pub use verdict::Verdict;
