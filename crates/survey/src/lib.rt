//! A survey of class files: of each method with code, whether every run of it ends, under a description that leaves
//! no input out or one that was handed in.
//!
//! The definitions stand in `specs/Claims` (what a line that begins with YES says), `specs/Lines` (how lines are
//! written), `specs/Words` (the words) and `specs/Outside` (what a survey reads and puts, and what its status says).
#![tactic(auto)]

mod failure;
pub mod java_lines;
mod judging;
mod leaving;
mod lines;
mod putting;
mod reading;
pub mod survey_notes;
pub mod survey_why;
mod surveying;
mod top;
mod walking;
mod words;

pub use top::survey;
