//! Rules, forms and numbers as they stand in the cases of tables, and whether rules are within the limits of proofs.

mod limits;
mod listed;
mod reading;

pub use limits::{are_rules, is_rule};
pub use listed::{ends, rules};
pub use reading::{multiples, pairs};
