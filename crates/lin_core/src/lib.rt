//! Exact sums of rows: what a combination of known rows says, and whether it shows a target.
//!
//! A row is a sum of whole-number variables with a constant, known to be at least 0 or to be 0. Its constant may have
//! multiples of the weights of classes; how much each class weighs stands beside the rows. A combination by multipliers is
//! computed exactly, in 128 bits, and is at least 0 wherever its rows hold.
#![tactic(auto)]

mod combining;
mod faults;
mod intervals;
mod laws;
mod rows;
mod showing;
mod sums;
mod weighing;
mod wrapping;

pub use combining::combine;
pub use faults::LinFault;
pub use intervals::Interval;
pub use laws::{faultless_are_allowed, shown_targets_hold, sums_show};
pub use rows::{RowKind, Target, WRow};
pub use showing::shows;
pub use sums::Scratch;
pub use weighing::weighed;
pub use wrapping::wrap32;
