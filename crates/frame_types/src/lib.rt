//! What is known of the frames of a method, place by place, and how it grows until nothing more comes.
#![tactic(auto)]

mod copies;
mod joins;
mod merges;
mod table;

pub use copies::copy_of;
pub use joins::join_places;
pub use table::Table;
