//! Operands of operations on ints.
use abs_cells::Id;

/// An operand of an operation on ints.
#[derive(Clone, Copy)]
pub enum Operand {
    /// A number that the instruction names.
    Known(i32),
    /// The int of an id.
    Id(Id),
}
