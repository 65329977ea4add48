//! The code of a method's lines: its bytes and its exception table.
//!
//! [`method_code`] gives the code, or the first fault of a line: an unknown or repeated label, an operand or a distance
//! without room in its field, an empty range, a code of no bytes or of more than 65,535. What a line names in the constant
//! pool is given beside it ([`PooledLine`]).

mod code;
mod instruction;
mod labels;
mod line_fault;
mod places;
mod pooled;

pub use code::{MethodCode, method_code};
pub use pooled::{PoolOperand, PooledLine};
