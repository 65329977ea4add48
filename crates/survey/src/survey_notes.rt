//! What a survey says beside its answers: lines of Java, words for the premises that a program touches, and advice. Nothing is claimed of it.

mod faults;
mod places;
mod sources;
mod touching;

pub use faults::{put_fault_place, put_refusal, refusal_advice};
pub use places::Places;
pub use sources::{CodePlace, Sources};
pub use touching::{Touched, premises_of};
