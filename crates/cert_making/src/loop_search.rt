//! The search for a certificate that no run of a method ends: a graph without an `End` node.
//!
//! Nothing is proved of what it finds, but that it is found safely: the command `loop` says whether a certificate shows something.

mod searching;

pub use searching::loop_line;
