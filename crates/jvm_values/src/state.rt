//! Frames and states (JVM specification, sections 2.5 and 2.6).
use crate::heap::{Heap, Value};
use list_views::{Seq, Stack};

/// The frame of a call that runs (JVM specification, section 2.6).
#[derive(Drop)]
pub struct Frame {
    /// The method's number among the reached methods.
    pub method: u32,
    /// The place of the instruction that runs next, in bytes from the code's start. A caller's place stays at its
    /// invoke instruction until the callee returns.
    pub pc: u16,
    /// The local variables, of which some may be unset.
    pub locals: Seq<Option<Value>>,
    /// The operand stack, seen top first beside its room.
    pub stack: Stack<Value>,
}

/// Whether a state runs instructions or looks for a handler.
#[derive(Clone, Copy, PartialEq, Eq)]
pub enum Mode {
    /// The top frame's instruction runs next.
    Normal,
    /// The object of this number is thrown and not yet caught.
    Throwing(u32),
}

/// A state of the machine.
#[derive(Drop)]
pub struct State {
    /// The frames, seen with the running call's first beside the stack's room.
    pub frames: Stack<Frame>,
    /// The heap.
    pub heap: Heap,
    /// The mode.
    pub mode: Mode,
    /// The values of the program's static fields, each at its place among these.
    pub statics: Seq<Value>,
}
