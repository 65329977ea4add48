//! What is left to do after an instruction.
use jvm_values::Value;

/// What is left to do after an instruction has changed its frame, the heap and the static fields.
#[derive(Clone, Copy)]
pub enum After {
    /// The next instruction runs.
    Next,
    /// The instruction at this place runs.
    Jump(u16),
    /// A new object of the built-in class of this number is thrown.
    Raise(u32),
    /// The object of this number is thrown.
    Throw(u32),
    /// The method of a number is called.
    Invoke(u32, usize),
    /// The call returns, with a value or none.
    Return(Option<Value>),
}
