//! The values, objects, frames and states of the written machine, and its types.
//!
//! The machine is that of the Java virtual machine specification (Java SE 8), chapter 2, in the part that this
//! library knows: ints, references and null. Two values of these types are equal where they hold the same lists and
//! numbers: capacity and allocator play no part.
#![tactic(auto)]

mod heap;
mod ints;
mod joins;
mod laws;
mod object_types;
mod shape;
mod state;
mod types;
mod typing;
mod world_types;
mod writes;

pub use heap::{Heap, Object, Value, initial_values};
pub use ints::{Cond, IntOp};
pub use joins::{item_of, join};
pub use laws::typed_heaps_are_closed;
pub use list_views;
pub use object_types::is_object_below;
pub use shape::{Shape, Term};
pub use state::{Frame, Mode, State};
pub use types::{Base, Kind, Slot, Ty, array_of, array_of_numbers, class_type};
pub use typing::{FrameType, PlaceType};
pub use world_types::Types;
pub use writes::{
    int_writes_keep, null_keeps_shapes, number_writes_keep, path_splits, write_gains, write_keeps,
    write_makes_no_cycle,
};
