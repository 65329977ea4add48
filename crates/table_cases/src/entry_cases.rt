//! Cases of tables that begin with an entry method and end with class files, and names of their classes and methods in words.

mod classes;
mod entry;
mod words;

pub use classes::{class_files, linked};
pub use entry::{Entry, ProgramAnswers, answer_from_entry, answer_in_program};
pub use words::{kind_letter, put_bytes, put_class, put_descriptor, put_method};
