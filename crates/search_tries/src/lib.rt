//! Further tries of the search for a certificate, for programs of whose first graph no proof was found: other graphs, in which the first
//! visits of a head are expanded and heads look ahead before they are widened, and proofs that leave out rules which nothing can take.
//!
//! Nothing is promised of what is found: a certificate that is made of it is checked like every other. So the contracts say only what
//! the calls need of each other.
#![tactic(auto)]

mod building;
mod cycles;
mod dead;
mod due;
mod edges;
mod numbers;
mod proving;
mod work;

pub use building::{Way, grow};
pub use proving::{LiveForms, proof_of};
