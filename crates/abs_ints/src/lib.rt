//! What the operators and conditions over ints do on intervals: the cases of an operation, each with what its operands
//! and its result are narrowed to, what is known of them, and where the machine goes on.
#![tactic(auto)]

mod bits;
mod cases;
mod comparing;
mod divisions;
mod few;
mod int_intervals;
mod narrowings;
mod operating;
mod products;
mod relations;
mod shifts;
mod span;
mod sums;

pub use cases::{IntCase, ShortRow, Way};
pub use comparing::compare;
pub use few::Few;
pub use operating::operate;
