//! Why a method is a MAYBE, in lines of Java, and what would help: read off the reason that a search keeps. Nothing is claimed of it.

mod advice;
mod changes;
mod cuts;
mod narrow;
mod ways;

pub use advice::put_advice;
pub use cuts::reason_text;
pub use narrow::{NARROWINGS, Narrowing, narrowed};
