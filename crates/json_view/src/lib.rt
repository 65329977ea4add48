//! Fields of JSON values, or the exact fault with its place.
#![tactic(auto)]

mod fault;
mod laws;
mod names;
mod place;
mod view;

pub use fault::JsonFault;
pub use laws::places_lead_to_their_values;
pub use view::{View, parse};
