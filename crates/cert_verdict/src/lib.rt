//! The verdict on the bytes of a certificate: they are read, its nodes get the states that are left out, and then it is checked. The
//! commands `check` and `prove` both ask for it here.
//!
//! The definitions: `specs/Verdicts` (the verdict), `specs/OneVerdict` (that there is one).
#![tactic(auto)]

mod judging;
mod laws;
mod verdict;

pub use judging::judged;
pub use laws::verdicts_are_one;
pub use verdict::CertVerdict;
