//! The widening of an abstract state by another one: a state of which both are instances, in the steps that a growing
//! graph takes so that it ends (Otto, Brockschmidt, von Essen, Giesl 2010).
#![tactic(auto)]

mod cells;
mod clashes;
mod fault;
mod ints;
mod laws;
mod merged;
mod numbers;
mod pairing;
mod positions;
mod rows;
mod shapes;
mod stands;
mod visits;
mod widening;

pub use fault::WidenFault;
pub use laws::{widenings_are_few, widenings_are_sound, widenings_are_wider};
pub use stands::stand_alike;
pub use widening::widen;
