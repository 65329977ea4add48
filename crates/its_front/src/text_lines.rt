//! Lines, words and whole numbers of texts.

mod lines_and_words;
mod numbers;

pub use lines_and_words::{lines, words};
pub use numbers::{Number, read_number};
