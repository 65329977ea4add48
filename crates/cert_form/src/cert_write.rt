//! Certificates as they are written: as compact JSON, in form 1 or in form 2.

mod certs;
mod lists;
mod nodes;
mod proofs;
mod states;
mod types;

pub use certs::{encode, encode_parts};
