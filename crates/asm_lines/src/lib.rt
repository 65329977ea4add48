//! What the lines of a listing say.
//!
//! A listing is a class file in words (`docs/LISTINGS.md`). [`read_listing`] sorts its lines by what they are part of: the
//! line that begins the class, constants, fields, attributes, and methods with their lines. Which class they say together
//! is asked by the crates above.
#![tactic(auto)]

mod class_line;
mod fault;
mod first;
mod item;
mod lines_and_words;
mod listing;
mod number;
mod operation;
mod statement;

pub use fault::AsmFault;
pub use first::First;
pub use item::{CatchLine, Item};
pub use listing::{CodeLine, Listing, MethodLines, read_listing};
pub use number::Number;
pub use operation::Operation;
pub use statement::{AttributeLine, ClassLine, Constant, FieldLine, MethodLine, copy};
