//! Small types over the library's vectors and slices that contracts see as plain lists.
//!
//! A type that holds a [`Seq`] or [`Bytes`] is equal to another exactly where the lists are: capacity, allocator and
//! place in memory play no part.
#![tactic(auto)]

mod bytes;
pub mod fault_words;
mod seq;
mod stack;

pub use bytes::Bytes;
pub use seq::Seq;
pub use stack::Stack;
