//! What instructions ask of their operands.
use jvm_values::Ty;
use op_forms::ItemKind;

/// What an instruction asks of an operand on the stack.
#[derive(Clone, Copy, PartialEq, Eq)]
pub enum Want {
    /// An int.
    Int,
    /// Null or any reference.
    Reference,
    /// Null, or a reference of this type as assignments see it, or of one below.
    Below(Ty),
    /// Null, or a reference of both types as assignments see them, or of ones below.
    BelowBoth(Ty, Ty),
    /// Null or an array.
    Array,
    /// Null, or an array of numbers that such an instruction is for.
    Numbers(ItemKind),
    /// Null, or an array of references.
    References,
}
