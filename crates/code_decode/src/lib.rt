//! The instructions of a code, read and written exactly.
//!
//! [`decode`] gives a code's instructions, or the first fault; [`encode`] gives the code of a list of instructions. The
//! table that ties each instruction to its opcode and operands stands once, in the definitions of `code_forms`: both cite it.
#![tactic(auto)]

mod code;
mod flow;
mod names;
mod one_way;
mod reading;
mod spelling;
mod writing;

pub use code::decode;
pub use flow::{falls_through, length, targets};
pub use names::name;
pub use one_way::{one_reading, read_is_spelled};
pub use spelling::{SpellingView, spelling_of};
pub use writing::{encode, put_insn};
