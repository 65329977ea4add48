//! The commands over certificates, from the bytes of a certificate, of a description and of class files to their
//! output: `check`, and `fill`, which writes the certificate once more, each node with its state.
//!
//! The definitions stand in `specs/Answers` (the answer, step by step), `specs/Causes` and `specs/Lines` (the words of the output), and
//! `specs/Headline` (what an accepted certificate says); for `fill` in `specs/FillAnswers` and `specs/FillTexts`.
#![tactic(auto)]

mod call;
mod causes;
mod certs;
mod fill;
mod filled;
mod laws;
mod outcome;
mod writing;

pub use call::check_line;
pub use certs::{refuse_item, refuse_text};
pub use fill::fill_line;
pub use laws::{accepted_ends, answers_are_one};
pub use outcome::Outcome;
