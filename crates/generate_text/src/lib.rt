//! A class that is made to order, as a listing, with the description of its method's inputs: so many loops behind one another, which count
//! and walk along lists in turn.
//!
//! The definitions stand in `specs/Listings` and `specs/Descriptions`.
#![tactic(auto)]

mod blocks;
pub mod generate_laws;
mod texts;

pub use texts::{description, listing};
