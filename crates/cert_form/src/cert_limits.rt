//! What certificates that were read keep, so that they are written and read again. The law is a call that does nothing when it runs.
//!
//! The definition stands in `specs/Limits`.

mod laws;

pub use laws::read_certificates_keep_limits;
