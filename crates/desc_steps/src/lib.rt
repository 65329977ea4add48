//! The steps that the commands `prove` and `check` share: from the bytes of a description and of class files to a program, its typing, and
//! what is described of its inputs.
//!
//! The definitions stand in `specs/Headline` (what the files and the description name, and what it is for every run to end),
//! `specs/Descriptions` (the single steps) and `specs/Answers` (the steps in their order, whatever a command says then).
#![tactic(auto)]

mod description;
mod given;
mod laws;
mod names;

pub use description::{described, entry_of, read_desc};
pub use given::{DescribedProgram, described_program};
pub use laws::{names_one, some_state_fits};
pub use names::class_names;
