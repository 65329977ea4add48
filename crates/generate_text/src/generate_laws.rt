//! What is known of the listings that `generate_text` makes.
//!
//! The law stands in `specs/Laws`.

mod laws;

pub use laws::listings_assemble;
