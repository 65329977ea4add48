//! The command `migrate`, from the bytes of a certificate, of a description and of class files to the certificate in form 2.
//!
//! The definitions stand in `specs/Texts` (the text), `specs/Answers` (the answer), `specs/Headline` (what its output claims) and
//! `specs/Laws`.

mod call;
mod certs;
mod collecting;
mod laws;
mod writing;

pub use call::migrate_line;
pub use laws::{answers_are_one, what_is_accepted_migrates};
