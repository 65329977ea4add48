//! The types that a typing gives to the places of a frame (JVM specification, section 4.10.1.2).
use crate::types::Ty;
use list_views::{Seq, Stack};

/// What a local variable or a stack entry holds.
#[derive(Clone, Copy, PartialEq, Eq)]
pub enum PlaceType {
    /// Nothing that may be used: a local variable before it is set, or where two ways differ. No stack entry has it.
    Unset,
    /// An int.
    Int,
    /// Null alone.
    Null,
    /// Null, or a reference to an object of this type or a type below it. The type is its own erasure.
    Ref(Ty),
}

/// The types of a frame's places.
#[derive(Drop)]
pub struct FrameType {
    /// The local variables' types.
    pub locals: Seq<PlaceType>,
    /// The operand stack's types, seen top first.
    pub stack: Stack<PlaceType>,
}
