//! Bounds on the instructions of runs, linear in ints and sizes of the inputs: what a bound is, its check beside a certificate, and its
//! lines.
//!
//! The definitions: `specs/Parts`, `specs/Entries` (the first fault of entries), `specs/Bounds` (the bound and its value), `specs/Laws`
//! (what a check is to answer, and what a bound promises), `specs/Answers` (the same for bytes), `specs/Lines`.
#![tactic(auto)]

mod bound;
mod causes;
mod certified;
mod checking;
mod entries;
mod fault;
mod forms;
mod laws;
mod lines;
mod lists;
mod parts;
mod refusal;
mod walks;

pub use bound::{Bound, RootForm};
pub use causes::cause_text;
pub use certified::{checked_bound, valid_parts};
pub use checking::check_bound;
pub use fault::BoundFault;
pub use laws::bounds_hold;
pub use lines::bound_lines;
pub use parts::given_sets;
pub use refusal::BoundRefusal;
