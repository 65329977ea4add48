//! The table of commands: a row for each, with its word, the number and the files behind it; and the words of a command line, read by it.
//!
//! The definitions stand in `specs/Rows` (the table), `specs/Words` (when words are a row of it) and `specs/Usage` (the lines that name the
//! rows).

mod file_words;
mod laws;
mod row;
mod table;
mod words;

pub use file_words::FileWords;
pub use laws::{commands_are_one, commands_are_taken};
pub use row::{FileWord, NumberRange, NumberWord, Row};
pub use table::{COMMANDS, Command, DEFAULT_NODES, MOST_BLOCKS, MOST_FUEL, Request, usage_text};
pub use words::Asked;
