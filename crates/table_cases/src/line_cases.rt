//! Lines that commands write, as tables write them; and the class files of a case.

mod files;
mod lines;

pub use files::files_from;
pub use lines::{fault_line, refused_line, without_newline};
