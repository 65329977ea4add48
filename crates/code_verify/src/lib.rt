//! What locals and stacks hold at each place of a program's methods, before any run.
#![tactic(auto)]

mod after;
mod fault;
mod flows;
mod least;
mod method;
mod operands;
mod passed;
mod rows;
mod shuffles;
mod typing;
mod want;

pub use after::types_after;
pub use fault::VerifyFault;
pub use least::least_typings_exist;
pub use typing::{Typing, verify};
pub use want::Want;
