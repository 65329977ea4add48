//! The constant pool of a listing.
//!
//! An entry is what it says ([`Entry`]): a class by its name, a member by class, name and descriptor. [`Needs::of`] gives the
//! entries that a listing's lines need, in the order of the class's file; [`pool_of`] each of them once, behind those that it
//! names; [`Pool::number`] gives an entry's number, and [`Pool::entries`] the entries as the file has them.

mod entry;
mod listing_pool;
mod needs;
mod pool;

pub use entry::Entry;
pub use listing_pool::pool_of;
pub use needs::{Needs, catch_entry, constant_entry, counted_words, operation_entry, super_of};
pub use pool::Pool;
